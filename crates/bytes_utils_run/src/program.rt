//! The program: reads a command and a text, runs the command on the text, and prints the result.
ghost use Rattle.std.specs.Prelude.{◌≡◌, ◌⊎◌, [], Some, OnOk, IsErrOf};
ghost use Rattle.std.specs.Io.KnownBytes.{Keeps};
ghost use Rattle.bytes_utils_run.specs.Run.{RunFindsNoRequest, RunFindsNotUtf8, RunPrintsAll, RunPrintsFirst, RunWritesBeginning};

mod answer;
mod call_line;
mod command;
mod fault;
mod input;
mod output;
pub mod print;
mod word;

use answer::answer_to;
pub use fault::Fault;
use input::{input_text, read_input};
use print::print_answer;
use std::alloc::Global;
use std::io::{Read, Write};

/// Reads all of its input, runs the command in the first line on the text after it, and prints the
/// result. The input is read in at most 1,048,576 calls of `read`.
///
/// Fails with `UnknownCommand` or `NotUtf8`; then nothing was written. Fails with `OutOfMemory` if
/// memory is refused, never for an empty input; then nothing was written, or some of the first
/// results, each of them whole. Fails with `Io` if a read, write or flush fails, or the input hasn't
/// ended after those calls; then some of the first bytes of the output, or all, may have been written.
pub fn script<R: Read, W: Write>(alloc: Global, reader: &mut R, writer: &mut W) -> Result<(), Fault>
    ensures ok { OnOk result (RunPrintsAll (R.remaining reader.old) (R.remaining reader.new)
        (W.contents writer.old) (W.contents writer.new)) }
    ensures unknown_command { IsErrOf result Fault.UnknownCommand
        → RunFindsNoRequest (R.remaining reader.old) (R.remaining reader.new)
        (W.contents writer.old) (W.contents writer.new) }
    ensures not_utf8 { IsErrOf result Fault.NotUtf8
        → RunFindsNotUtf8 (R.remaining reader.old) (R.remaining reader.new)
        (W.contents writer.old) (W.contents writer.new) }
    ensures out_of_memory { IsErrOf result Fault.OutOfMemory
        → Keeps (W.contents writer.old) (W.contents writer.new)
        ⊎ RunPrintsFirst (R.remaining reader.old) (R.remaining reader.new)
        (W.contents writer.old) (W.contents writer.new) }
    ensures empty { R.remaining reader.old ≡ Some [] → ¬ IsErrOf result Fault.OutOfMemory }
    ensures io { IsErrOf result Fault.Io
        → Keeps (W.contents writer.old) (W.contents writer.new)
        ⊎ RunWritesBeginning (R.remaining reader.old) (R.remaining reader.new)
        (W.contents writer.old) (W.contents writer.new) }
{
    let input = read_input(alloc, reader)?;
    let text = input_text(input)?;
    let answer = answer_to(alloc, &text)?;
    print_answer(writer, answer)
}
