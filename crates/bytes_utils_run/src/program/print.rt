//! Printing results: parts, replies, and the slices in a reply.
ghost use Rattle.std.specs.Prelude.{◌≡◌, ◌⊎◌, ℕ, List, [], None, Some, OnOk, OnErr, IsOk, IfOk, IfErr, IfSome, IsErrOf, IsOkUnless, map, length, ◌++◌};
ghost use Rattle.std.specs.Io.KnownBytes.{Appends};
ghost use Rattle.std.specs.List.{concat};
ghost use Rattle.std.specs.Str.{chars};
ghost use Rattle.bytes_utils.specs.Outcome.{Outcome};
ghost use Rattle.bytes_utils_buf.specs.declared.refused.Reason.{Reason as WhyRefused};
ghost use Rattle.bytes_utils_run.specs.Answer.{HasParts, PrintsBeginning, PrintsGiven};
ghost use Rattle.bytes_utils_run.specs.AnySplitter.{AreToCome, MayRefuseAfter};
ghost use Rattle.bytes_utils_run.specs.AppendsAndConsumes.{AppendsBeginning};
ghost use Rattle.bytes_utils_run.specs.Printed.{printed as printed_bytes, printed_number, printed_part, printed_reply};

use crate::Reply;
use crate::program::Fault;
use crate::program::answer::Answer;
use crate::program::output::{flush_output, output_bytes, output_number, write_output};
use crate::splitter::AnySplitter;
use bytes_utils::Reason;
use bytes_utils::string::{Storage, StrInner};
use std::io::Write;

/// A value that the program prints.
pub(super) trait Printable {
    // The printed bytes.
    ghost printed: { Self → List ℕ };

    /// Prints this value.
    fn print<W: Write>(&self, writer: &mut W) -> Result<(), Fault>
        ensures ok { OnOk result
            (Appends (W.contents writer.old) (W.contents writer.new) (Self.printed self.now)) }
        ensures err { OnErr result (AppendsBeginning (W.contents writer.old) (W.contents writer.new)
            (Self.printed self.now)) }
        ensures fault { IsOkUnless result Fault.Io };
}

impl<S: Storage> Printable for StrInner<S> {
    ghost printed = { λ part. printed_part (chars part) };

    fn print<W: Write>(&self, writer: &mut W) -> Result<(), Fault> {
        output_bytes(writer, self.as_str().as_bytes())
    }
}

impl Printable for Vec<u8> {
    ghost printed = { λ bytes. printed_bytes bytes.items };

    fn print<W: Write>(&self, writer: &mut W) -> Result<(), Fault> {
        output_bytes(writer, self)
    }
}

impl Printable for Reply {
    ghost printed = { printed_reply };

    /// Prints nothing for a reply that memory was refused for.
    fn print<W: Write>(&self, writer: &mut W) -> Result<(), Fault> {
        match self {
            Reply::Done => write_output(writer, b"ok\n"),
            Reply::PastEnd => write_output(writer, b"past end\n"),
            Reply::TooLong => write_output(writer, b"too long\n"),
            Reply::NoMemory | Reply::CopyStopped(_) => Ok(()),
            Reply::Number(number) => output_number(writer, *number),
            Reply::Piece(piece) => output_bytes(writer, piece),
            Reply::Shown(chunk) => output_bytes(writer, chunk),
            Reply::Slices(slices) => print_slices(writer, slices),
        }
    }
}

/// Prints the number of slices, and then each slice.
fn print_slices<W: Write>(writer: &mut W, slices: &[Vec<u8>]) -> Result<(), Fault>
    ensures ok { OnOk result (Appends (W.contents writer.old) (W.contents writer.new)
        (printed_number (length slices.now) ++ concat (map (λ slice. printed_bytes slice.items) slices.now))) }
    ensures err { OnErr result (AppendsBeginning (W.contents writer.old) (W.contents writer.new)
        (printed_number (length slices.now) ++ concat (map (λ slice. printed_bytes slice.items) slices.now))) }
    ensures fault { IsOkUnless result Fault.Io }
{
    output_number(writer, slices.len())?;
    print_all(writer, slices)
}

/// Prints entries in order.
pub(super) fn print_all<E: Printable, W: Write>(writer: &mut W, entries: &[E]) -> Result<(), Fault>
    ensures ok { OnOk result (Appends (W.contents writer.old) (W.contents writer.new)
        (concat (map E.printed entries.now))) }
    ensures err { OnErr result (AppendsBeginning (W.contents writer.old) (W.contents writer.new)
        (concat (map E.printed entries.now))) }
    ensures fault { IsOkUnless result Fault.Io }
{
    for entry in entries {
        entry.print(writer)?;
    }
    Ok(())
}

/// Prints the parts that a splitter gives, each as soon as it is split off. Returns `None` if all are
/// printed, or the reason if a split is refused, one for which a split may be refused after the parts
/// before it; then these are printed, and not all. Fails with `Io` if a write fails; then a beginning
/// of what all parts print was written. It never fails if no part is to come. Requires that some list
/// of parts is to come, as of each splitter that `AnySplitter::new` makes.
pub fn print_parts<S: Storage, W: Write>(
    writer: &mut W,
    splitter: &mut AnySplitter<'_, S>,
) -> Result<Option<Reason>, Fault>
    requires { (parts : List (List ℕ)) × AreToCome splitter.now parts }
    ensures ok { IfOk result (λ refused. (parts : List (List ℕ))
        × Outcome (AreToCome splitter.old) parts refused
        × IfSome refused (MayRefuseAfter S.refuses S.refuses_empty S.refuses_side splitter.old parts)
        × Appends (W.contents writer.old) (W.contents writer.new)
        (concat (map printed_part parts))) }
    ensures err { OnErr result ((parts : List (List ℕ)) × AreToCome splitter.old parts
        × AppendsBeginning (W.contents writer.old) (W.contents writer.new)
        (concat (map printed_part parts))) }
    ensures fault { IsOkUnless result Fault.Io }
    ensures none { AreToCome splitter.old [] → IsOk result }
{
    for item in splitter {
        match item {
            Ok(part) => part.print(writer)?,
            Err(reason) => return Ok(Some(reason)),
        }
    }
    Ok(None)
}

/// Prints the results one by one. Returns the reason if a refusal left some of them out.
fn print_given<W: Write>(writer: &mut W, answer: Answer<'_>) -> Result<Option<Reason>, Fault>
    requires { HasParts answer }
    ensures ok { IfOk result (λ refused. PrintsGiven answer.entry refused
        (W.contents writer.old) (W.contents writer.new)) }
    ensures err { OnErr result (PrintsBeginning answer.entry
        (W.contents writer.old) (W.contents writer.new)) }
    ensures fault { IsOkUnless result Fault.Io }
{
    match answer {
        Answer::Splitter(mut splitter) => {
            let refused = print_parts(writer, &mut splitter);
            drop(splitter); // An implicit drop would be proved here again, case by case.
            refused
        }
        Answer::Replies { given, refused } => {
            print_all(writer, &given)?;
            Ok(refused)
        }
    }
}

/// Prints the results and flushes. Fails if a write or the flush fails, or a refusal left some out.
pub(super) fn print_answer<W: Write>(writer: &mut W, answer: Answer<'_>) -> Result<(), Fault>
    requires { HasParts answer }
    ensures ok { OnOk result (PrintsGiven answer.entry None
        (W.contents writer.old) (W.contents writer.new)) }
    ensures out_of_memory { IsErrOf result Fault.OutOfMemory
        → (reason : WhyRefused) × PrintsGiven answer.entry (Some reason)
        (W.contents writer.old) (W.contents writer.new) }
    ensures io { IsErrOf result Fault.Io → PrintsBeginning answer.entry
        (W.contents writer.old) (W.contents writer.new) }
    ensures fault { IfErr result (λ fault. (fault ≡ Fault.OutOfMemory) ⊎ (fault ≡ Fault.Io)) }
{
    let refused = print_given(writer, answer)?;
    flush_output(writer)?;
    match refused {
        None => Ok(()),
        Some(reason) => Err(reason.into()),
    }
}
