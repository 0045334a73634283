//! What no clause says: that calls succeed with enough memory, printed text, and worked cases.
mod borrowed;
mod closure;
mod long;
mod memory;
mod places;
mod size_hint;
mod slice_ref;
mod split_counts;
mod ways;
mod white_space;
