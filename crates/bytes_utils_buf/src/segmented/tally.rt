//! What a segmented value counts, for contracts alone.
ghost use Rattle.std.specs.Prelude.{◌≡◌, ◌+◌};
ghost use Rattle.bytes_utils_buf.specs.Tally.{nothing_counted};

use std::fmt::{self, Debug, Formatter, Write};
use std::marker::Model;
use std::mem::replace;
use std::snapshot::Snapshot;

/// The last count, and the counts before it.
#[derive(Drop)]
enum Log {
    Start,
    Given(usize, usize, Snapshot<Log>),
    Called(Snapshot<Log>),
    Turned(usize, Snapshot<Log>),
}

/// Counts of segments given, of those dropped at once, of calls and of turns. It has no bytes at
/// run time, since a snapshot has none.
#[derive(Drop)]
pub(crate) struct Tally {
    log: Snapshot<Log>,
}

impl Model for Tally {
    ghost use Rattle.bytes_utils_buf.specs.Tally.{Tallied};
    ghost use Rattle.bytes_utils_buf.specs.Log.{counted_in_log};

    ghost Value = { Tallied };

    ghost view = { λ t. counted_in_log t.log.value };
}

impl Tally {
    pub(crate) fn new() -> Tally
        ensures { result ≡ nothing_counted }
    {
        Tally {
            log: Snapshot::of(&Log::Start),
        }
    }

    /// Counts `count` accepted segments, of which `dropped` were dropped at once.
    pub(crate) fn give(&mut self, count: usize, dropped: usize)
        ensures { self.new ≡ record self.old {
          given = self.old.given + count;
          dropped = self.old.dropped + dropped;
        } }
    {
        let before = replace(&mut self.log, Snapshot::of(&Log::Start));
        self.log = Snapshot::of(&Log::Given(count, dropped, before));
    }

    /// Counts a call.
    pub(crate) fn call(&mut self)
        ensures { self.new ≡ record self.old { calls = self.old.calls + 1 } }
    {
        let before = replace(&mut self.log, Snapshot::of(&Log::Start));
        self.log = Snapshot::of(&Log::Called(before));
    }

    /// Counts a turn: a segment is passed.
    pub(crate) fn turn(&mut self)
        ensures { self.new ≡ record self.old { turns = self.old.turns + 1 } }
    {
        self.turns(1);
    }

    /// Counts a turn for each of `count` segments that are passed at once.
    pub(crate) fn turns(&mut self, count: usize)
        ensures { self.new ≡ record self.old { turns = self.old.turns + count } }
    {
        let before = replace(&mut self.log, Snapshot::of(&Log::Start));
        self.log = Snapshot::of(&Log::Turned(count, before));
    }
}

impl Debug for Tally {
    fn fmt<W: Write>(&self, f: &mut Formatter<W>) -> fmt::Result {
        f.write_str("Tally")
    }
}
