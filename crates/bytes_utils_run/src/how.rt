//! The ways to split a text.

/// How a text is split.
#[derive(Clone, Copy, Debug)]
pub enum How<'s> {
    /// Into words between white space, as `str::split_whitespace`.
    Words,
    /// Into words between ASCII white space, as `str::split_ascii_whitespace`.
    AsciiWords,
    /// Into lines, as `str::lines`.
    Lines,
    /// At each separator, as `str::split`.
    Split(&'s str),
    /// At separators, into at most the given number of parts, as `str::splitn`.
    SplitN(usize, &'s str),
    /// At each separator, from the back, as `str::rsplit`.
    RSplit(&'s str),
    /// At separators, from the back, into at most the given number of parts, as `str::rsplitn`.
    RSplitN(usize, &'s str),
    /// After each separator, as `str::split_inclusive`. The separator isn't empty.
    Inclusive(&'s str),
}
