//! Tests of `bytes_utils_buf`: its buffers, their errors, and how they are written out.
#![tactic(auto)]

#[cfg(test)]
mod cases;
