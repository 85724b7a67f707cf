//! The basic character set of RDS. Source: IEC 62106, basic character set.
ghost use Rattle.std.specs.Prelude.{◌≡◌, ◌≢◌, ◌<◌, ◌≤◌, ℕ, Some, IfSome, IfNone, slice_get};
ghost use Rattle.rds_text.specs.BasicSet.{character_of, upper};

/// The characters of the bytes from 80 to FE, sixteen a line.
const UPPER: &[char] = &[
    'á', 'à', 'é', 'è', 'í', 'ì', 'ó', 'ò', 'ú', 'ù', 'Ñ', 'Ç', 'Ş', 'ß', '¡', 'Ĳ', 'â', 'ä', 'ê',
    'ë', 'î', 'ï', 'ô', 'ö', 'û', 'ü', 'ñ', 'ç', 'ş', 'ǧ', 'ı', 'ĳ', 'ª', 'α', '©', '‰', 'Ǧ', 'ě',
    'ň', 'ő', 'π', '€', '£', '$', '←', '↑', '→', '↓', 'º', '¹', '²', '³', '±', 'İ', 'ń', 'ű', 'µ',
    '¿', '÷', '°', '¼', '½', '¾', '§', 'Á', 'À', 'É', 'È', 'Í', 'Ì', 'Ó', 'Ò', 'Ú', 'Ù', 'Ř', 'Č',
    'Š', 'Ž', 'Ð', 'Ŀ', 'Â', 'Ä', 'Ê', 'Ë', 'Î', 'Ï', 'Ô', 'Ö', 'Û', 'Ü', 'ř', 'č', 'š', 'ž', 'đ',
    'ŀ', 'Ã', 'Å', 'Æ', 'Œ', 'ŷ', 'Ý', 'Õ', 'Ø', 'Þ', 'Ŋ', 'Ŕ', 'Ć', 'Ś', 'Ź', 'Ŧ', 'ð', 'ã', 'å',
    'æ', 'œ', 'ŵ', 'ý', 'õ', 'ø', 'þ', 'ŋ', 'ŕ', 'ć', 'ś', 'ź', 'ŧ',
];

/// The character that a byte of a name or of a RadioText stands for, or None: 00 to 1F, 7F and FF stand for none.
///
/// ```
/// character_of(0x82); // Some('é')
/// ```
#[tactic(auto, unfolding(crate::specs::BasicSet::character_of))]
pub fn character_of(byte: u8) -> Option<char>
    ensures { result ≡ character_of byte }
{
    match byte {
        0x24 => Some('¤'),
        0x5e => Some('―'),
        0x60 => Some('‖'),
        0x7e => Some('‾'),
        0x20..=0x7d => Some(char::from(byte)),
        0x80..=0xff => upper_at(usize::from(byte - 0x80)),
        _ => None,
    }
}

/// The character at a place of the upper half.
fn upper_at(place: usize) -> Option<char>
    ensures { result ≡ slice_get upper place }
{
    if place < UPPER.len() {
        Some(UPPER[place])
    } else {
        None
    }
}

/// The byte that stands for a character, or None where the character is not in the set.
///
/// ```
/// byte_of('é'); // Some(0x82)
/// ```
pub fn byte_of(character: char) -> Option<u8>
    ensures some { IfSome result (λ byte. character_of byte ≡ Some character) }
    ensures none { IfNone result ((byte : ℕ) → character_of byte ≢ Some character) }
{
    for byte in 0..0xff {
        if character_of(byte) == Some(character) {
            return Some(byte);
        }
    }
    None
}
