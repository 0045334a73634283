//! Texts split whole, lists of calls on buffers, laws, and a program, over `bytes_utils`.
//!
//! - [`cut_all`] splits a text into all of its parts. [`drive`] makes a list of calls on a
//!   `SegmentedBuf`, and [`read_calls`] on any buffer. [`script`] is a whole program over both.
//! - `splitter` has one iterator for all ways to split.
//! - `laws` has theorems about lists of parts, and the methods of `str` with contracts.
//! - `odd` has lawful but unusual buffers, and a storage that refuses after some splits, for tests.
#![tactic(auto)]

mod calls;
mod cut;
mod how;
pub mod laws;
pub mod odd;
pub mod program;
pub mod splitter;

pub use calls::{Call, ReadCall, Replies, Reply, drive, read_calls};
pub use cut::{Parts, cut_all};
pub use how::How;
pub use program::{Fault, script};
