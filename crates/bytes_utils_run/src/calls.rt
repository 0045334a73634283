//! Lists of calls on a buffer, with one reply for each call.
ghost use Rattle.std.specs.Prelude.{◌≡◌, [], Some, IsNone, IfNone, OnSome, IfSome};
ghost use Rattle.bytes_utils_buf.specs.Segments.{IsPaid};
ghost use Rattle.bytes_utils_buf.specs.Tally.{IsBalanced, IsCovered};
ghost use Rattle.bytes_utils_run.specs.Calls.{IsCall, IsRead, IsRunOfCalls, LosesOfBuffer, lists_for_calls};
ghost use Rattle.bytes_utils_buf.specs.declared.refused.Reason.{Reason as WhyRefused};

mod call;
mod read;
mod segmented;
mod show;

use bytes::Buf;
use bytes_utils::parts::BufParts;
use bytes_utils::{Reason, SegmentedBuf};
pub use call::{Call, ReadCall, Reply};
use read::make_read;
use segmented::make_segmented;
use std::alloc::Global;

/// The replies to calls, and the reason if there are none.
#[derive(Debug, Drop)]
pub struct Replies {
    /// A reply for each call; none if memory for the list was refused.
    pub given: Vec<Reply>,
    /// Why no call was made, if none was.
    pub refused: Option<Reason>,
}

impl Replies {
    /// No replies: memory for the list was refused.
    fn without_place(alloc: Global) -> Replies
        ensures given { result.given.items ≡ [] }
        ensures reason { result.refused ≡ Some WhyRefused.OutOfMemory }
    {
        Replies {
            given: Vec::new(alloc),
            refused: Some(Reason::OutOfMemory),
        }
    }
}

/// Makes these calls on `buf`, one after another, and returns a reply for each. Memory for the
/// replies is reserved first. If it is refused, no call is made, and `refused` has the reason
/// `OutOfMemory`. It is never refused for no calls.
pub fn drive<B: BufParts + Drop>(
    alloc: Global,
    buf: &mut SegmentedBuf<B>,
    calls: Vec<Call<B>>,
) -> Replies
    ensures run { IfNone result.refused
        (IsRunOfCalls (IsCall B.unread B.loses) calls.items buf.old result.given.items buf.new) }
    ensures refused { IfSome result.refused (λ reason. reason ≡ WhyRefused.OutOfMemory) }
    ensures none { OnSome result.refused (result.given.items ≡ []) }
    ensures empty { calls.items ≡ [] → IsNone result.refused }
    ensures same { OnSome result.refused (buf.new ≡ buf.old) }

    // Each segment that was ever given was dropped at once, was passed by one turn, or is left. So
    // the turns of all the calls together are paid for, by these calls alone and since the
    // beginning.
    ensures balanced { IsBalanced buf.new.segments buf.new.tally }
    ensures paid { IsPaid buf.old buf.new }
    ensures covered { IsCovered buf.new.segments buf.new.tally }
{
    // No segment is empty, so there are no more segments than bytes.
    prove!(buf.segments() <= buf.remaining());
    let Ok(mut given) = Vec::with_capacity(alloc, calls.len()) else {
        return Replies::without_place(alloc);
    };
    for call in calls {
        given.push_reserved(make_segmented(alloc, buf, call));
    }
    prove!(buf.segments() <= buf.remaining());
    Replies {
        given,
        refused: None,
    }
}

/// Makes these calls on any buffer, one after another, as `drive` does on a `SegmentedBuf`.
pub fn read_calls<B: BufParts>(alloc: Global, buf: &mut B, calls: Vec<ReadCall>) -> Replies
    ensures run { IfNone result.refused (IsRunOfCalls (IsRead (LosesOfBuffer B.loses)) calls.items (lists_for_calls (B.unread buf.old))
        result.given.items (lists_for_calls (B.unread buf.new))) }
    ensures refused { IfSome result.refused (λ reason. reason ≡ WhyRefused.OutOfMemory) }
    ensures none { OnSome result.refused (result.given.items ≡ []) }
    ensures empty { calls.items ≡ [] → IsNone result.refused }
    ensures same { OnSome result.refused (buf.new ≡ buf.old) }
    ensures kept { B.kept buf.new ≡ B.kept buf.old }
{
    let Ok(mut given) = Vec::with_capacity(alloc, calls.len()) else {
        return Replies::without_place(alloc);
    };
    for call in calls {
        given.push_reserved(make_read(alloc, buf, call));
    }
    Replies {
        given,
        refused: None,
    }
}
