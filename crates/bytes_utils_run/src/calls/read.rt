//! One read of any buffer.
ghost use Rattle.std.specs.Prelude.{◌≡◌};
ghost use Rattle.bytes_utils_run.specs.Calls.{IsRead, LosesOfBuffer, lists_for_calls};

use super::call::{ReadCall, Reply};
use super::show::{show_chunk, show_slices};
use bytes::Buf;
use bytes_utils::parts::BufParts;
use std::alloc::Global;

/// Makes this call and returns its reply.
pub(super) fn make_read<B: BufParts>(alloc: Global, buf: &mut B, call: ReadCall) -> Reply
    ensures reply { IsRead (LosesOfBuffer B.loses) call (lists_for_calls (B.unread buf.old)) result (lists_for_calls (B.unread buf.new)) }
    ensures kept { B.kept buf.new ≡ B.kept buf.old }
{
    match call {
        ReadCall::Remaining => Reply::Number(buf.remaining()),
        ReadCall::Chunk => show_chunk(alloc, buf),
        ReadCall::Advance(cnt) => read_advance(buf, cnt),
        ReadCall::CopyOut(len) => read_copy(alloc, buf, len),
        ReadCall::Chunks(places) => show_slices(alloc, buf, places),
    }
}

#[tactic(auto, using(crate::proofs::CallsLemmas::concat_lists_of, crate::proofs::CallsLemmas::skips_lists_of))]
fn read_advance<B: BufParts>(buf: &mut B, cnt: usize) -> Reply
    ensures reply { IsRead (LosesOfBuffer B.loses) (ReadCall.Advance cnt)
        (lists_for_calls (B.unread buf.old)) result (lists_for_calls (B.unread buf.new)) }
    ensures kept { B.kept buf.new ≡ B.kept buf.old }
{
    if cnt > buf.remaining() {
        return Reply::PastEnd;
    }
    buf.advance(cnt);
    Reply::Done
}

#[tactic(auto, using(crate::proofs::CallsLemmas::concat_lists_of, crate::proofs::CallsLemmas::skips_lists_of))]
fn read_copy<B: BufParts>(alloc: Global, buf: &mut B, len: usize) -> Reply
    ensures reply { IsRead (LosesOfBuffer B.loses) (ReadCall.CopyOut len)
        (lists_for_calls (B.unread buf.old)) result (lists_for_calls (B.unread buf.new)) }
    ensures kept { B.kept buf.new ≡ B.kept buf.old }
{
    if len > buf.remaining() {
        return Reply::PastEnd;
    }
    match buf.copy_out(alloc, len) {
        Ok(piece) => Reply::Piece(piece),
        Err(refused) => Reply::CopyStopped(refused.taken),
    }
}
