//! Tests of the decoders, readers, searches and cursors of `bytes_utils_codec`, the example of the
//! README, and other callers.
#![tactic(auto)]

#[cfg(test)]
mod cases;
