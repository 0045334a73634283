//! Rows of worked cases: a stream, and what comes with which byte of it.
//!
//! A row is lines. Its stream is the bytes of these lines, joined.
//!
//! | line | |
//! |---|---|
//! | `BYTES` | nothing comes with any of these bytes |
//! | `BYTES => TEXT` | with the last of these bytes comes a message, or an error, which `Debug` writes so |
//! | `BYTES => always TEXT` | an error, which then comes at each call, until a later line has one |
//! | four spaces and `TEXT` | more of the text of the line before, after a space if it has some |
//! | `end: TEXT` | in the end the reader says this of itself |
//! | `# TEXT` | a comment |
//!
//! `notation` says how bytes are written. In a text only repeats are.
use super::notation::{append_repeated_notation, bytes_of_notation};
use std::alloc::Global;

/// What comes with a byte of a stream.
#[derive(Drop)]
pub(super) struct RowDue {
    /// The number of bytes up to that byte.
    pub(super) end: usize,
    pub(super) text: Vec<u8>,
    /// Whether it comes at each call.
    pub(super) stays: bool,
}

impl RowDue {
    fn add(&mut self, text: &str) -> Option<()> {
        if !self.text.is_empty() {
            self.text.push(b' ').ok()?;
        }
        append_repeated_notation(&mut self.text, text)
    }
}

/// A row.
#[derive(Drop)]
pub(super) struct Row<'r> {
    pub(super) stream: Vec<u8>,
    /// The number of bytes of the first line.
    pub(super) first: usize,
    pub(super) dues: Vec<RowDue>,
    /// What the reader says of itself in the end, or nothing.
    pub(super) end: &'r str,
}

impl<'r> Row<'r> {
    /// The row of a line and more lines, or `None` if memory is refused.
    pub(super) fn of(alloc: Global, first: &'r str, lines: &'r str) -> Option<Row<'r>> {
        let mut row = Row {
            stream: Vec::new(alloc),
            first: 0,
            dues: Vec::new(alloc),
            end: "",
        };
        row.add(alloc, first)?;
        row.first = row.stream.len();
        for line in lines.lines() {
            row.add(alloc, line)?;
        }
        Some(row)
    }

    fn add(&mut self, alloc: Global, line: &'r str) -> Option<()> {
        if line.starts_with('#') {
            return Some(());
        }
        if let Some(more) = line.strip_prefix("    ") {
            return self.dues.last_mut()?.add(more);
        }
        if let Some(end) = line.strip_prefix("end: ") {
            self.end = end;
            return Some(());
        }
        match line.split_once(" =>") {
            Some((bytes, text)) => {
                self.add_bytes(alloc, bytes)?;
                self.add_due(alloc, text.trim_start())
            }
            None => self.add_bytes(alloc, line),
        }
    }

    fn add_bytes(&mut self, alloc: Global, written: &str) -> Option<()> {
        let bytes = bytes_of_notation(alloc, written)?;
        self.stream.extend_from_slice(&bytes).ok()
    }

    fn add_due(&mut self, alloc: Global, text: &str) -> Option<()> {
        let lasting = text.strip_prefix("always ");
        let due = RowDue {
            end: self.stream.len(),
            text: Vec::new(alloc),
            stays: lasting.is_some(),
        };
        self.dues.push(due).ok()?;
        self.dues.last_mut()?.add(lasting.unwrap_or(text))
    }
}
