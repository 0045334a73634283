//! Where a text's first and last characters are.
ghost use Rattle.std.specs.Prelude.{◌≡◌, ◌-◌, ◌<◌, [], MatchOption, length};
ghost use Rattle.std.specs.Str.{chars};
ghost use Rattle.bytes_utils.specs.Characters.{character_place};

/// Returns the byte place at which the first character ends, or `None` if the text is empty.
#[inline]
pub fn first_end(text: &str) -> Option<usize>
    ensures { MatchOption result (chars text.now ≡ []) (λ end. (0 < length (chars text.now))
        × (end ≡ character_place (chars text.now) 1)) }
{
    let character = text.chars().next()?;
    Some(character.len_utf8())
}

/// Returns the byte place at which the last character begins, or `None` if the text is empty.
#[inline]
pub(super) fn last_character_start(text: &str) -> Option<usize>
    ensures { MatchOption result (chars text.now ≡ []) (λ start. (0 < length (chars text.now))
        × (start ≡ character_place (chars text.now) (length (chars text.now) - 1))) }
{
    let inside_last = text.len().checked_sub(1)?;
    Some(text.floor_char_boundary(inside_last))
}
