//! Runs of the program over readers and writers that are slow, fail or never end. Runs of the built
//! program are in `runs.txt` of the crate `bytes_utils_demo`.
mod memory;

use crate::cases::fakes::{
    FakeCalls, FakeEndlessReader, FakeNotingReader, FakeSlowReader, FakeSlowWriter,
};
use bytes_utils_run::program::{Fault, script};
use std::alloc::Global;
use std::io::Read;
use std::process::Abort;
use std::test::Fail;

const INPUT: &[u8] = b"split ,\na,b,,c";

const PRINTED: &[u8] = b"1:a\n1:b\n0:\n1:c\n";

// A fault is printed as it is: width, fill, precision and style change nothing.
#[test]
fn program_faults_have_no_padding(rt: HostRuntime) -> Result<(), Fail> {
    let fault = Fault::NotUtf8;
    let reported = format!(in rt.alloc(); "{fault:*^12.3}|{fault:#}|{fault:?}")?;
    assert!(rt; reported.as_str() == "not UTF-8|not UTF-8|NotUtf8");
    Ok(())
}

/// The fault after which nothing is written.
fn program_fault_of<R: Read>(alloc: Global, reader: &mut R) -> Option<Fault> {
    let mut writer = Vec::new(alloc);
    let fault = script(alloc, reader, &mut writer).err();
    if writer.is_empty() { fault } else { None }
}

// Each call of `read` may give 4,096 bytes, the last one too.
#[test]
fn program_with_failing_and_endless_readers(rt: HostRuntime) {
    let mut reader = FakeNotingReader {
        rest: &[b'a'; 9_000],
        shortest: usize::MAX,
        longest: 0,
    };
    assert!(rt; program_fault_of(rt.alloc(), &mut reader) == Some(Fault::UnknownCommand));
    assert!(rt; reader.shortest == 4_096 && reader.longest == 4_096);
    let mut reader = FakeSlowReader::new(INPUT, 7, 2);
    assert!(rt; program_fault_of(rt.alloc(), &mut reader) == Some(Fault::Io));
    assert!(rt; reader.rest == b"\na,b,,c".as_slice());
    let mut reader = FakeEndlessReader { calls: 0 };
    assert!(rt;
        program_fault_of(rt.alloc(), &mut reader) == Some(Fault::Io) && reader.calls == 1_048_576
    );
}

// A writer that fails at its fourth byte, one that takes a byte a call, one that takes none, and one
// that fails after its last byte, to flush: the most bytes a call, the call that fails, the answer,
// and what is written then.
#[test]
fn program_with_failing_writers(rt: HostRuntime) {
    for (most, fails_at, answer, written) in [
        (1, 4, Err(Fault::Io), b"1:a".as_slice()),
        (1, 0, Ok(()), PRINTED),
        (0, 0, Err(Fault::Io), b""),
        (1, 16, Err(Fault::Io), PRINTED),
    ] {
        let mut writer = FakeSlowWriter {
            held: Vec::new(rt.alloc()),
            most,
            calls: FakeCalls { made: 0, fails_at },
        };
        let given = script(rt.alloc(), &mut &*INPUT, &mut writer);
        assert!(rt; given == answer && writer.held.as_slice() == written);
    }
}

// After a write that fails late, in the second call for a long part, the writer isn't called again:
// its fourth call is the last one.
#[test]
fn program_with_a_late_failing_writer(rt: HostRuntime) {
    let mut input = [b'a'; 9_000];
    input[..8].copy_from_slice(b"split ,\n");
    let mut writer = FakeSlowWriter {
        held: Vec::new(rt.alloc()),
        most: 5_000,
        calls: FakeCalls {
            made: 0,
            fails_at: 4,
        },
    };
    let given = script(rt.alloc(), &mut input.as_slice(), &mut writer);
    assert!(rt; given == Err(Fault::Io) && writer.calls.made == 4 && writer.held.len() == 5_005);
}
