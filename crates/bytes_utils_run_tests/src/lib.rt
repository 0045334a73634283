//! Tests of `bytes_utils_run`: texts split whole, lists of calls, laws, odd parts, and the program
//! over fake readers and writers.
#![tactic(auto)]

#[cfg(test)]
mod cases;
