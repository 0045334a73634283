//! Running the command of an input.
ghost use Rattle.std.specs.Prelude.{◌≡◌, ◌⊎◌, ℕ, List, [], Option, IfOk, IfErr, IsErrOf, IsOkUnless};
ghost use Rattle.std.specs.List.{position};
ghost use Rattle.std.specs.Str.{chars};
ghost use Rattle.bytes_utils.specs.Lines.{text_after_line};
ghost use Rattle.bytes_utils.specs.Outcome.{Outcome};
ghost use Rattle.bytes_utils_buf.specs.declared.refused.Reason.{Reason as WhyRefused};
ghost use Rattle.bytes_utils_run.specs.Answer.{ComesOf, HasParts};
ghost use Rattle.bytes_utils_run.specs.Command.{command_line};
ghost use Rattle.bytes_utils_run.specs.Calls.{reply_lacks_memory};
ghost use Rattle.bytes_utils_run.specs.Request.{AreFirstRequestedReplies, IsRequest, Request};
ghost use Rattle.bytes_utils_run.specs.Run.{RunAsksFor};

use crate::program::Fault;
use crate::program::call_line::calls_of_lines;
use crate::program::command::{Command, command_line_places, read_command};
use crate::splitter::AnySplitter;
use crate::{Call, Replies, Reply, drive};
use bytes::Bytes;
use bytes_utils::{Reason, SegmentedBuf, Str};
use std::alloc::Global;

/// What is to be printed.
#[derive(Drop)]
pub(super) enum Answer<'l> {
    /// The parts that a splitter gives.
    Splitter(AnySplitter<'l, Bytes>),
    /// The replies to calls.
    Replies {
        /// The replies before the first one that memory was refused for.
        given: Vec<Reply>,
        /// Why some replies are missing, if some are.
        refused: Option<Reason>,
    },
}

/// Finds the first reply that memory was refused for.
fn first_unanswered(replies: &[Reply]) -> Option<usize>
    ensures { result ≡ position reply_lacks_memory replies.now }
{
    replies.iter().position(|reply| matches!(reply, Reply::NoMemory | Reply::CopyStopped(_)))
}

/// Makes the calls on a new buffer. Returns the replies before the first refusal of memory, and the
/// reason if some are missing.
fn answer_calls(
    alloc: Global,
    calls: Vec<Call<Bytes>>,
) -> Result<(Vec<Reply>, Option<Reason>), Fault>
    ensures ok { IfOk result (λ replies. AreFirstRequestedReplies calls.items replies.0.items replies.1) }
    ensures fault { IsOkUnless result Fault.OutOfMemory }
{
    let mut buf = SegmentedBuf::new(alloc);
    let Replies { mut given, refused } = drive(alloc, &mut buf, calls);
    if refused.is_some() {
        return Err(Fault::OutOfMemory);
    }
    let Some(count) = first_unanswered(&given) else {
        return Ok((given, None));
    };
    given.truncate(count);
    Ok((given, Some(Reason::OutOfMemory)))
}

/// Runs the command in the first line of `input` on the text after it.
pub(super) fn answer_to(alloc: Global, input: &Str) -> Result<Answer<'_>, Fault>
    ensures ok { IfOk result (λ answer. (given : List (List ℕ)) (refused : Option WhyRefused)
        → ComesOf answer given refused → Outcome (RunAsksFor (chars input.now)) given refused) }
    ensures some { IfOk result HasParts }
    ensures unknown { IsErrOf result Fault.UnknownCommand → (request : Request)
        → ¬ IsRequest request (command_line (chars input.now)) (text_after_line (chars input.now)) }
    ensures fault { IfErr result
        (λ fault. (fault ≡ Fault.UnknownCommand) ⊎ (fault ≡ Fault.OutOfMemory)) }
    ensures empty { input.now ≡ [] → IsErrOf result Fault.UnknownCommand }
{
    let (end, next) = command_line_places(input.as_str());
    let Some(command) = read_command(&input.as_str()[..end]) else {
        return Err(Fault::UnknownCommand);
    };
    let text = input.slice_from(next)?;
    match command {
        Command::Cut(how) => Ok(Answer::Splitter(AnySplitter::new(text, how))),
        Command::Buf => {
            let calls = calls_of_lines(alloc, text)?;
            let (given, refused) = answer_calls(alloc, calls)?;
            Ok(Answer::Replies { given, refused })
        }
    }
}
