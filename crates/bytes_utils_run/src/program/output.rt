//! Writing the output, without memory of its own.
ghost use Rattle.std.specs.Prelude.{OnOk, OnErr, IsOkUnless};
ghost use Rattle.std.specs.Io.KnownBytes.{Appends, Keeps};
ghost use Rattle.bytes_utils_run.specs.AppendsAndConsumes.{AppendsBeginning};
ghost use Rattle.bytes_utils_run.specs.Printed.{printed, printed_number};

use crate::program::Fault;
use itoa::Buffer;
use std::io::Write;

/// Writes all of `bytes`, in as many calls of `write` as needed. A write that fails, or takes no
/// byte, isn't tried again.
pub(super) fn write_output<W: Write>(writer: &mut W, bytes: &[u8]) -> Result<(), Fault>
    ensures ok { OnOk result (Appends (W.contents writer.old) (W.contents writer.new) bytes.now) }
    ensures err { OnErr result
        (AppendsBeginning (W.contents writer.old) (W.contents writer.new) bytes.now) }
    ensures fault { IsOkUnless result Fault.Io }
{
    let mut written = 0;
    while written < bytes.len() {
        match writer.write(&bytes[written..]) {
            Ok(0) | Err(_) => return Err(Fault::Io),
            Ok(count) => written += count,
        }
    }
    Ok(())
}

/// Prints the number of bytes, a colon, the bytes, and a line feed.
pub(super) fn output_bytes<W: Write>(writer: &mut W, bytes: &[u8]) -> Result<(), Fault>
    ensures ok { OnOk result
        (Appends (W.contents writer.old) (W.contents writer.new) (printed bytes.now)) }
    ensures err { OnErr result
        (AppendsBeginning (W.contents writer.old) (W.contents writer.new) (printed bytes.now)) }
    ensures fault { IsOkUnless result Fault.Io }
{
    let mut digits = Buffer::new();
    write_output(writer, digits.format(bytes.len()).as_bytes())?;
    write_output(writer, b":")?;
    write_output(writer, bytes)?;
    write_output(writer, b"\n")
}

/// Prints a number on a line of its own.
pub(super) fn output_number<W: Write>(writer: &mut W, number: usize) -> Result<(), Fault>
    ensures ok { OnOk result
        (Appends (W.contents writer.old) (W.contents writer.new) (printed_number number)) }
    ensures err { OnErr result
        (AppendsBeginning (W.contents writer.old) (W.contents writer.new) (printed_number number)) }
    ensures fault { IsOkUnless result Fault.Io }
{
    let mut digits = Buffer::new();
    write_output(writer, digits.format(number).as_bytes())?;
    write_output(writer, b"\n")
}

/// Flushes the writer.
pub(super) fn flush_output<W: Write>(writer: &mut W) -> Result<(), Fault>
    ensures contents { Keeps (W.contents writer.old) (W.contents writer.new) }
    ensures fault { IsOkUnless result Fault.Io }
{
    match writer.flush() {
        Ok(()) => Ok(()),
        Err(_) => Err(Fault::Io),
    }
}
