//! A buffer that counts the calls made on it.
ghost use Rattle.std.specs.Prelude.{◌≡◌};

use bytes::{Buf, Bytes};
use std::cell::Cell;
use std::marker::Model;

/// Bytes that count how often they are advanced and how often they are looked at, so that a test
/// sees whether they are walked again. A count stays at `usize::MAX` once it is there.
#[derive(Debug, Drop)]
pub struct Asked {
    bytes: Bytes,
    advances: usize,
    looks: Cell<usize>,
}

impl Model for Asked {
    ghost use Rattle.std.specs.Prelude.{ℕ, List};

    ghost Value = { List ℕ };

    ghost view = { λ a. a.bytes };
}

impl Asked {
    /// Makes a buffer of these bytes, with both counts at 0.
    pub fn new(bytes: Bytes) -> Asked
        ensures { result ≡ bytes }
    {
        Asked {
            bytes,
            advances: 0,
            looks: Cell::new(0),
        }
    }

    /// Returns how often `advance` was called. No clause says so.
    pub fn advances(&self) -> usize {
        self.advances
    }

    /// Returns how often `remaining` or `chunk` was called. No clause says so.
    pub fn looked(&self) -> usize {
        self.looks.get()
    }

    fn look(&self) {
        self.looks.set(self.looks.get().saturating_add(1));
    }
}

impl Buf for Asked {
    ghost unread = { λ a. a };

    fn remaining(&self) -> usize {
        self.look();
        self.bytes.len()
    }

    fn chunk(&self) -> &[u8] {
        self.look();
        self.bytes.chunk()
    }

    fn advance(&mut self, cnt: usize) {
        self.advances = self.advances.saturating_add(1);
        self.bytes.advance(cnt);
    }
}
