//! What no clause says: that calls succeed with enough memory, printed text, and worked cases.
mod calls;
mod compare;
mod convert;
mod format;
mod items;
mod join_texts;
mod long;
mod memory;
mod show;
mod slice;
mod steps;
mod utf8_error;
