//! The tests, and what they share.
mod callers;
mod cursor;
mod decode;
mod find;
mod fixtures;
mod readme;
mod search;
mod texts;
