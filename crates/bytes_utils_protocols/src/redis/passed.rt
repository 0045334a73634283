//! Bytes of a stream that were let go.
ghost use Rattle.std.specs.Prelude.{◌≡◌, ◌+◌, ◌^◌, ◌<◌, ◌≤◌, [], ◌++◌, length, take};
ghost use Rattle.std.specs.List.{concat};

use bytes::{Bytes, BytesMut};
use bytes_utils::EitherBuf;
use bytes_utils::segmented::PackedBuf;
use std::marker::Model;
use std::mem::replace;
use std::snapshot::Snapshot;

/// The first bytes of buffers, one after another.
#[derive(Drop)]
enum Log {
    Start,
    More(usize, Snapshot<PackedBuf>, Snapshot<Log>),
}

/// Bytes that were let go: only their number is kept. Clauses see the bytes.
#[derive(Drop)]
pub(super) struct Passed {
    len: usize,
    log: Snapshot<Log>,
}

impl Model for Passed {
    ghost use Rattle.std.specs.Prelude.{◌≡◌, ℕ, List, length};
    ghost use Rattle.bytes_utils_protocols.specs.RedisPassed.{passed_bytes};

    ghost Value = { List ℕ };

    ghost view = { λ p. passed_bytes p.log.value };

    ghost invariant = { λ p. p.len ≡ length (passed_bytes p.log.value) };
}

impl Passed {
    /// No bytes.
    pub(super) fn none() -> Passed
        ensures { result ≡ [] }
    {
        Passed {
            len: 0,
            log: Snapshot::of(&Log::Start),
        }
    }

    /// Adds the first `len` bytes of these.
    pub(super) fn add(&mut self, len: usize, bytes: &PackedBuf)
        requires within { len ≤ length (concat bytes.now.held.segments) }
        requires fits { length self.old + len < 2 ^ 64 }
        ensures { self.new ≡ self.old ++ take len (concat bytes.now.held.segments) }
    {
        let before = replace(&mut self.log, Snapshot::of(&Log::Start));
        self.log = Snapshot::of(&Log::More(len, Snapshot::of(bytes), before));
        self.len += len;
    }

    /// How many bytes there were.
    pub(super) fn len(&self) -> usize
        ensures { result ≡ length self.now }
    {
        self.len
    }
}
