//! What is nearest in the basic character set to a character that is not in it (profile).
ghost use Rattle.std.specs.Prelude.{◌≡◌, option_map};
ghost use Rattle.titles.specs.Nearest.{nearest, is_blank, is_apostrophe, is_quote, is_dash, is_unseen, nearest_letters};

/// What is nearest to a character that is not in the set, where something is near.
#[tactic(auto, unfolding(crate::specs::Nearest::nearest))]
pub(crate) fn nearest_to(character: char) -> Option<&'static [u8]>
    ensures { option_map (λ text. text.now) result ≡ nearest character }
{
    if is_blank(character) {
        return Some(b" ");
    }
    if is_apostrophe(character) {
        return Some(b"'");
    }
    if is_quote(character) {
        return Some(b"\"");
    }
    if is_dash(character) {
        return Some(b"-");
    }
    if is_unseen(character) {
        return Some(b"");
    }
    letters_for(character)
}

/// Whether it is a control character or a space of another width.
fn is_blank(character: char) -> bool
    ensures { result ≡ is_blank character }
{
    character < ' '
        || '\u{7f}' <= character && character <= '\u{a0}'
        || '\u{2000}' <= character && character <= '\u{200a}'
        || character == '\u{2028}'
        || character == '\u{2029}'
        || character == '\u{202f}'
        || character == '\u{205f}'
        || character == '\u{3000}'
}

/// Whether it is an apostrophe, or a single quote.
fn is_apostrophe(character: char) -> bool
    ensures { result ≡ is_apostrophe character }
{
    character == '`'
        || character == '´'
        || character == 'ʻ'
        || character == 'ʼ'
        || '‘' <= character && character <= '‛'
        || character == '′'
        || character == '‹'
        || character == '›'
}

/// Whether it is a quote.
fn is_quote(character: char) -> bool
    ensures { result ≡ is_quote character }
{
    character == '«' || character == '»' || '“' <= character && character <= '‟' || character == '″'
}

/// Whether it is a dash, a hyphen, a dot in the middle or a tilde.
fn is_dash(character: char) -> bool
    ensures { result ≡ is_dash character }
{
    character == '~'
        || character == '·'
        || '‐' <= character && character <= '—'
        || character == '•'
        || character == '−'
}

/// Whether it is not seen: a soft hyphen, a joiner, a mark of direction or of byte order.
fn is_unseen(character: char) -> bool
    ensures { result ≡ is_unseen character }
{
    character == '\u{ad}'
        || '\u{200b}' <= character && character <= '\u{200f}'
        || '\u{202a}' <= character && character <= '\u{202e}'
        || '\u{2060}' <= character && character <= '\u{2069}'
        || character == '\u{feff}'
}

/// The letters or signs that stand for a letter with a stroke, a ligature that has no parts, or a sign.
fn letters_for(character: char) -> Option<&'static [u8]>
    ensures { option_map (λ text. text.now) result ≡ nearest_letters character }
{
    match character {
        'Đ' => Some(b"D"),
        'Ħ' => Some(b"H"),
        'ħ' => Some(b"h"),
        'ĸ' => Some(b"k"),
        'Ł' => Some(b"L"),
        'ł' => Some(b"l"),
        'ẞ' => Some(b"SS"),
        'ƒ' => Some(b"f"),
        'ə' => Some(b"e"),
        '¢' => Some(b"c"),
        '¥' => Some(b"Y"),
        '®' => Some(b"(R)"),
        '×' => Some(b"x"),
        '⁄' => Some(b"/"),
        '^' => Some(b"'"),
        _ => None,
    }
}
