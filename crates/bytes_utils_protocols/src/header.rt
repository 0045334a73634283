//! A line of a head as a header, which is a name, a colon and a value; and the blanks at the
//! beginning of a text.
ghost use Rattle.std.specs.Prelude.{◌≡◌, ℕ, ◌≤◌, List, length, IfSome, IfNone};
ghost use Rattle.std.specs.List.{prefix_len};
ghost use Rattle.bytes_utils_protocols.specs.Headers.{IsHeader, is_header_blank, is_header_name_byte};

/// The name and the value of a header, or `None` if the line isn't a header.
pub(crate) fn header_of(line: &[u8]) -> Option<(&[u8], &[u8])>
    ensures some { IfSome result (λ parts. IsHeader line.now parts.0.now parts.1.now) }
    ensures none { IfNone result ((name value : List ℕ) → ¬ IsHeader line.now name value) }
{
    let (name, rest) = line.split_at(header_name_len(line));
    let (colon, value) = rest.split_first()?;
    if name.is_empty() || *colon != b':' {
        return None;
    }
    Some((name, value))
}

/// The number of bytes at the beginning that a name may have.
fn header_name_len(line: &[u8]) -> usize
    ensures bound { result ≤ length line.now }
    ensures count { result ≡ prefix_len is_header_name_byte line.now }
{
    line.iter()
        .take_while(|byte| is_header_name_byte(**byte))
        .count()
}

/// Whether a name may have the byte.
fn is_header_name_byte(byte: u8) -> bool
    ensures { result ≡ is_header_name_byte byte }
{
    byte.is_ascii_graphic() && byte != b':'
}

/// The number of spaces and tabs at the beginning.
pub(crate) fn header_blanks_len(text: &[u8]) -> usize
    ensures bound { result ≤ length text.now }
    ensures count { result ≡ prefix_len is_header_blank text.now }
{
    text.iter()
        .take_while(|byte| is_header_blank(**byte))
        .count()
}

/// Whether the byte is a space or a tab.
pub(crate) fn is_header_blank(byte: u8) -> bool
    ensures { result ≡ is_header_blank byte }
{
    matches!(byte, b' ' | b'\t')
}
