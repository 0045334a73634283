//! One call on a `SegmentedBuf`.
ghost use Rattle.bytes_utils_buf.specs.Segments.{IsPaid};
ghost use Rattle.bytes_utils_run.specs.Calls.{CountsRead, IsCall, IsRead, LosesOfSegments};

use super::call::{Call, ReadCall, Reply};
use super::show::{show_chunk, show_slices};
use bytes::Buf;
use bytes_utils::parts::BufParts;
use bytes_utils::{Reason, SegmentedBuf};
use std::alloc::Global;

/// Makes this call and returns its reply.
pub(super) fn make_segmented<B: BufParts + Drop>(
    alloc: Global,
    buf: &mut SegmentedBuf<B>,
    call: Call<B>,
) -> Reply
    ensures reply { IsCall B.unread B.loses call buf.old result buf.new }
    ensures paid { IsPaid buf.old buf.new }
{
    match call {
        Call::Push(part) => push_segmented(buf, part),
        Call::Segments => Reply::Number(buf.segments()),
        Call::Read(call) => read_segmented(alloc, buf, call),
    }
}

fn push_segmented<B: BufParts + Drop>(buf: &mut SegmentedBuf<B>, part: B) -> Reply
    ensures reply { IsCall B.unread B.loses (Call.Push part) buf.old result buf.new }
    ensures paid { IsPaid buf.old buf.new }
{
    match buf.try_push(part) {
        Ok(()) => Reply::Done,
        Err(refused) => match refused.reason {
            Reason::TooLong => Reply::TooLong,
            Reason::OutOfMemory => Reply::NoMemory,
        },
    }
}

fn read_segmented<B: BufParts + Drop>(
    alloc: Global,
    buf: &mut SegmentedBuf<B>,
    call: ReadCall,
) -> Reply
    ensures reply { IsRead (LosesOfSegments B.loses) call buf.old.segments result buf.new.segments }
    ensures counts { CountsRead call buf.old result buf.new }
    ensures paid { IsPaid buf.old buf.new }
{
    match call {
        ReadCall::Remaining => Reply::Number(buf.remaining()),
        ReadCall::Chunk => show_chunk(alloc, buf),
        ReadCall::Advance(cnt) => advance_segmented(buf, cnt),
        ReadCall::CopyOut(len) => copy_segmented(alloc, buf, len),
        ReadCall::Chunks(places) => show_slices(alloc, buf, places),
    }
}

fn advance_segmented<B: BufParts + Drop>(buf: &mut SegmentedBuf<B>, cnt: usize) -> Reply
    ensures reply { IsRead (LosesOfSegments B.loses) (ReadCall.Advance cnt) buf.old.segments result buf.new.segments }
    ensures counts { CountsRead (ReadCall.Advance cnt) buf.old result buf.new }
    ensures paid { IsPaid buf.old buf.new }
{
    if cnt > buf.remaining() {
        return Reply::PastEnd;
    }
    buf.advance(cnt);
    Reply::Done
}

fn copy_segmented<B: BufParts + Drop>(alloc: Global, buf: &mut SegmentedBuf<B>, len: usize) -> Reply
    ensures reply { IsRead (LosesOfSegments B.loses) (ReadCall.CopyOut len) buf.old.segments result buf.new.segments }
    ensures counts { CountsRead (ReadCall.CopyOut len) buf.old result buf.new }
    ensures paid { IsPaid buf.old buf.new }
{
    if len > buf.remaining() {
        return Reply::PastEnd;
    }
    match buf.copy_to_bytes(alloc, len) {
        Ok(piece) => Reply::Piece(piece),
        Err(refused) => Reply::CopyStopped(refused.taken),
    }
}
