//! Tests of the texts, the splitters and the JSON of `bytes_utils`.
#![tactic(auto)]

#[cfg(test)]
mod cases;
