//! A text that is cut to the length of a RadioText (profile).
ghost use Rattle.std.specs.Prelude.{◌≡◌, ◌<◌, ◌≤◌, ◌-◌, length};
ghost use Rattle.titles.specs.Cut.{IsCut, IsCutBehind, ends_word};

use uecp_elements::TEXT_MAX;

/// Within how many of the last bytes a word ends, where a text is cut behind it.
const NEAR_END: usize = 16;

/// Cuts a text that is longer than a RadioText: behind the last word that ends within the last 16 of its 64 bytes, or
/// where none does behind the 64th.
pub(crate) fn cut(text: &mut Vec<u8>)
    ensures { IsCut text.old.items text.new.items }
{
    if text.len() > TEXT_MAX {
        let count = shown_count(text.as_slice());
        text.truncate(count);
    }
}

/// Behind how many bytes a text is cut.
fn shown_count(text: &[u8]) -> usize
    requires { 64 < length text.now }
    ensures { IsCutBehind text.now result }
{
    for left_out in 0..NEAR_END {
        let count = TEXT_MAX - left_out;
        if ends_word(text, count) {
            return count;
        }
    }
    TEXT_MAX
}

/// Whether a word ends behind so many bytes, and a space comes.
fn ends_word(text: &[u8], count: usize) -> bool
    requires some { 1 ≤ count }
    requires more { count < length text.now }
    ensures { result ≡ ends_word text.now count }
{
    text[count - 1] != b' ' && text[count] == b' '
}
