//! Readers and writers that are slow, fail, accept few bytes a call or never end, and a text whose
//! splits are refused.
ghost use Rattle.std.specs.Prelude.{◌<◌};

use bytes::Bytes;
use bytes_utils::string::StrInner;
use bytes_utils_run::odd::RefuseAfter;
use std::alloc::Global;
use std::io::{self, ErrorKind, Read, Write};

/// Counts calls and lets one fail: the one numbered `fails_at`, from 1 on, or none if that is 0. It
/// fails with `Interrupted`, after which std's own loops try again, and the next call succeeds.
#[derive(Drop)]
pub(crate) struct FakeCalls {
    pub(crate) made: usize,
    pub(crate) fails_at: usize,
}

impl FakeCalls {
    fn count(&mut self) -> io::Result<()> {
        self.made = self.made.saturating_add(1);
        if self.made == self.fails_at {
            return Err(io::Error::from(ErrorKind::Interrupted));
        }
        Ok(())
    }
}

/// A reader that gives at most `most` bytes a call, and fails one call.
#[derive(Drop)]
pub(crate) struct FakeSlowReader<'a> {
    pub(crate) rest: &'a [u8],
    most: usize,
    calls: FakeCalls,
    ghost gives_some: { 0 < most },
}

impl<'a> FakeSlowReader<'a> {
    pub(crate) fn new(input: &'a [u8], most: usize, fails_at: usize) -> Self
        requires { 0 < most }
    {
        FakeSlowReader {
            rest: input,
            most,
            calls: FakeCalls { made: 0, fails_at },
        }
    }
}

impl Read for FakeSlowReader<'_> {
    ghost use Rattle.std.specs.Prelude.{Some};

    ghost remaining = { λ reader. Some reader.rest.now };

    fn read(&mut self, buf: &mut [u8]) -> io::Result<usize> {
        self.calls.count()?;
        let most = buf.len().min(self.most);
        self.rest.read(&mut buf[..most])
    }
}

/// Gives its input in as few calls as possible, and notes the lengths of the shortest and the
/// longest buffer that it was given to fill.
#[derive(Drop)]
pub(crate) struct FakeNotingReader<'a> {
    pub(crate) rest: &'a [u8],
    pub(crate) shortest: usize,
    pub(crate) longest: usize,
}

impl Read for FakeNotingReader<'_> {
    ghost use Rattle.std.specs.Prelude.{Some};

    ghost remaining = { λ reader. Some reader.rest.now };

    fn read(&mut self, buf: &mut [u8]) -> io::Result<usize> {
        self.shortest = self.shortest.min(buf.len());
        self.longest = self.longest.max(buf.len());
        self.rest.read(buf)
    }
}

/// A reader that gives one `a` a call, never ends, and counts its calls.
#[derive(Drop)]
pub(crate) struct FakeEndlessReader {
    pub(crate) calls: usize,
}

impl Read for FakeEndlessReader {
    ghost use Rattle.std.specs.Prelude.{None};

    ghost remaining = { λ _. None };

    fn read(&mut self, buf: &mut [u8]) -> io::Result<usize> {
        self.calls = self.calls.saturating_add(1);
        if buf.is_empty() {
            return Ok(0);
        }
        buf[0] = b'a';
        Ok(1)
    }
}

/// Accepts at most `most` bytes a call, and fails at one call. A flush is a call too.
#[derive(Drop)]
pub(crate) struct FakeSlowWriter {
    pub(crate) held: Vec<u8>,
    pub(crate) most: usize,
    pub(crate) calls: FakeCalls,
}

impl Write for FakeSlowWriter {
    ghost use Rattle.std.specs.Prelude.{Some};

    ghost contents = { λ writer. Some writer.held.items };

    fn write(&mut self, buf: &[u8]) -> io::Result<usize> {
        self.calls.count()?;
        let count = buf.len().min(self.most);
        self.held.extend_from_slice(&buf[..count])?;
        Ok(count)
    }

    fn flush(&mut self) -> io::Result<()> {
        self.calls.count()
    }
}

/// Makes a text over a storage that grants `splits` splits.
pub(crate) fn fake_granting(
    alloc: Global,
    text: &str,
    splits: usize,
) -> Option<StrInner<RefuseAfter>> {
    let bytes = Bytes::copy_from_slice(alloc, text.as_bytes()).ok()?;
    StrInner::from_inner(RefuseAfter::new(bytes, splits)).ok()
}
