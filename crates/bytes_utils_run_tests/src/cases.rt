//! What no clause says, by subject.
mod calls;
mod cut;
mod fakes;
mod laws;
mod odd;
mod program;
