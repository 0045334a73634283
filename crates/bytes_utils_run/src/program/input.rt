//! Reading all of the input, as a text.
ghost use Rattle.std.specs.Prelude.{◌≡◌, ◌⊎◌, ◌*◌, ◌<◌, [], Some, length, OnOk, OnErr, IfOk, IfErr, IsErrOf, IsUtf8};
ghost use Rattle.bytes_utils_run.specs.AppendsAndConsumes.{ConsumesSome, ConsumesWhole};

use crate::program::Fault;
use bytes::Bytes;
use bytes_utils::Str;
use std::alloc::Global;
use std::io::Read;

/// The most bytes that one call of `read` may give.
const BYTES_PER_READ: usize = 4_096;

/// The most calls of `read` that are made.
const MOST_READS: usize = 1_048_576;

/// Reads to the end of the input. A read that fails isn't tried again. A reader that hasn't ended
/// after `MOST_READS` calls counts as failed.
pub(super) fn read_input<R: Read>(alloc: Global, reader: &mut R) -> Result<Vec<u8>, Fault>
    ensures whole { IfOk result
        (λ bytes. ConsumesWhole (R.remaining reader.old) (R.remaining reader.new) bytes.items) }
    ensures bounded { IfOk result (λ bytes. length bytes.items < BYTES_PER_READ * MOST_READS) }
    ensures err { OnErr result (ConsumesSome (R.remaining reader.old) (R.remaining reader.new)) }
    ensures fault { IfErr result (λ fault. (fault ≡ Fault.Io) ⊎ (fault ≡ Fault.OutOfMemory)) }
    ensures empty { R.remaining reader.old ≡ Some [] → ¬ IsErrOf result Fault.OutOfMemory }
{
    let mut bytes = Vec::new(alloc);
    let mut place = [0; BYTES_PER_READ];
    for _ in 0..MOST_READS {
        match reader.read(&mut place) {
            Ok(0) => return Ok(bytes),
            Ok(count) => {
                if bytes.extend_from_slice(&place[..count]).is_err() {
                    return Err(Fault::OutOfMemory);
                }
            }
            Err(_) => return Err(Fault::Io),
        }
    }
    Err(Fault::Io)
}

/// Turns the input into text.
pub(super) fn input_text(input: Vec<u8>) -> Result<Str, Fault>
    ensures ok { IfOk result (λ text. text ≡ input.items) }
    ensures utf8 { OnOk result (IsUtf8 input.items) }
    ensures not_utf8 { IsErrOf result Fault.NotUtf8 → ¬ IsUtf8 input.items }
    ensures fault { IfErr result (λ fault. (fault ≡ Fault.NotUtf8) ⊎ (fault ≡ Fault.OutOfMemory)) }
    ensures empty { input.items ≡ [] → ¬ IsErrOf result Fault.OutOfMemory }
{
    let Ok(bytes) = Bytes::from_vec(input) else {
        return Err(Fault::OutOfMemory);
    };
    match Str::from_inner(bytes) {
        Ok(text) => Ok(text),
        Err(_) => Err(Fault::NotUtf8),
    }
}
