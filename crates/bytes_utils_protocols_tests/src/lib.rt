//! Tests of `bytes_utils_protocols`.
#![tactic(auto)]

#[cfg(test)]
mod cases;
