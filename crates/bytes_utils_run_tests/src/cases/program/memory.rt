//! The result and the output of the program if a request for memory is refused. With enough memory
//! none is refused. A run in which one is refused prints a line for it.
use crate::cases::fakes::{FakeSlowReader, fake_granting};
use bytes_utils::Reason;
use bytes_utils::string::StrInner;
use bytes_utils_run::How;
use bytes_utils_run::odd::RefuseAfter;
use bytes_utils_run::program::print::print_parts;
use bytes_utils_run::program::{Fault, script};
use bytes_utils_run::splitter::AnySplitter;
use std::alloc::Global;
use std::test::Fail;

const CALLS: &[u8] = b"buf
push Hello
push  
push 
push World
copy 8
segments
chunk
advance 9
";

const REPLIES: &[u8] = b"ok\nok\nok\nok\n8:Hello Wo\n1\n3:rld\npast end\n";

/// Runs the program on calls that arrive in small pieces. Returns the result, and the number of
/// bytes that it wrote, if they are the first replies, each of them whole.
fn run_program_if_memory_allows(alloc: Global) -> (Result<(), Fault>, Option<usize>) {
    let mut reader = FakeSlowReader::new(CALLS, 7, 0);
    let mut place = [0; 80];
    let mut writer = place.as_mut_slice();
    let answer = script(alloc, &mut reader, &mut writer);
    let left = writer.len().min(80);
    let written = &place[..80 - left];
    let is_whole = written.is_empty() || written.ends_with(b"\n");
    let are_first = is_whole && REPLIES.starts_with(written);
    (answer, are_first.then_some(written.len()))
}

// If a request is refused, only the first replies may be written, and the fault is `OutOfMemory`.
// The next run writes all of them.
#[test]
fn program_replies_if_memory_is_refused(rt: HostRuntime) -> Result<(), Fail> {
    let (mut answer, mut written) = run_program_if_memory_allows(rt.alloc());
    if answer.is_err() {
        assert!(rt; answer == Err(Fault::OutOfMemory) && written.is_some());
        println!(rt; "refused script")?;
        if written != Some(0) {
            println!(rt; "refused script after a reply")?;
        }
        (answer, written) = run_program_if_memory_allows(rt.alloc());
    }
    assert!(rt; answer.is_ok() && written == Some(REPLIES.len()));
    Ok(())
}

/// Returns whether the first part alone of the text `a,b,c` is printed, before a refusal.
fn program_prints_first_if_memory_is_refused(text: StrInner<RefuseAfter>) -> bool {
    let mut place = [0; 4];
    let mut writer = place.as_mut_slice();
    let mut splitter = AnySplitter::new(text, How::Split(","));
    let refused = print_parts(&mut writer, &mut splitter);
    drop(splitter); // An implicit drop would be proved here again, case by case.
    let is_full = writer.is_empty();
    is_full && refused == Ok(Some(Reason::OutOfMemory)) && place.as_slice() == b"1:a\n".as_slice()
}

// The first part takes both splits.
#[test]
fn program_prints_parts_before_memory_is_refused(rt: HostRuntime) {
    if let Some(text) = fake_granting(rt.alloc(), "a,b,c", 2) {
        assert!(rt; program_prints_first_if_memory_is_refused(text));
    }
}
