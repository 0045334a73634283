//! Buffers of several segments.
mod buf;
mod caller;
mod insert;
mod long;
mod looks;
mod memory;
mod nested;
mod packed;
mod passed;
mod peek;
mod random;
mod range;
mod rows;
mod slice;
