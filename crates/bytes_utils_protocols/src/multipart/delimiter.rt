//! The delimiter of a boundary.
ghost use Rattle.std.specs.Prelude.{◌≡◌, IfOk, IfErr};
ghost use Rattle.bytes_utils_protocols.specs.Multipart.{multipart_delimiter};

use bytes_utils::Reason;
use std::alloc::Global;

/// A line end, two dashes and the boundary.
pub(super) fn delimiter_of(alloc: Global, boundary: &[u8]) -> Result<Vec<u8>, Reason>
    ensures ok { IfOk result (λ delimiter. delimiter.items ≡ multipart_delimiter boundary.now) }
    ensures reason { IfErr result (λ reason. reason ≡ Reason.OutOfMemory) }
{
    let mut delimiter = Vec::from_slice(alloc, b"\r\n--")?;
    delimiter.extend_from_slice(boundary)?;
    Ok(delimiter)
}
