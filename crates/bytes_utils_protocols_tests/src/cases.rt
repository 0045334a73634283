//! The tests, a file for each protocol, `dispositions` for the names in parts of forms, and
//! `part_streams` for parts that are given as they come (`joined`); `errors`, `long`, `memory`
//! and `written` span several. Most are tables of rows (`rows`, `notation`), along
//! which `walks` takes the reader of any protocol (`readers`).
mod dispositions;
mod errors;
mod events;
mod joined;
mod long;
mod memory;
mod multipart;
mod netstrings;
mod notation;
mod part_streams;
mod readers;
mod records;
mod redis;
mod requests;
mod rows;
mod walks;
mod written;
