//! What no clause says, by subject.
mod fixtures;
mod json;
mod split;
mod string;
