//! Messages of protocols, read off streams that come in pieces, and some that are written. Each
//! public module is one protocol, and needs no other one; some share `header` and `number`.
//!
//! What comments say of shared or copied bytes is so in the bodies: no clause sees it.
#![tactic(auto)]

pub mod events;
mod header;
pub mod multipart;
pub mod netstrings;
mod number;
pub mod records;
pub mod redis;
pub mod requests;
