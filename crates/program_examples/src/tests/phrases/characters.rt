//! The basic character set, names of programme types, and bytes as they are written between quotes.
use crate::tests::asserting::{holds, same};
use rds_text::{
    QuotedFault, Region, byte_of, character_of, first_byte, name_of, number_of, written,
};
use std::test::Fail;

/// The characters of 80 to FE in the repertoire of digital radio (ETSI TS 101 756), as Debian's dablin 1.14.0 has them.
const OF_DIGITAL_RADIO: &[char] = &[
    'á', 'à', 'é', 'è', 'í', 'ì', 'ó', 'ò', 'ú', 'ù', 'Ñ', 'Ç', 'Ş', 'ß', '¡', 'Ÿ', 'â', 'ä', 'ê',
    'ë', 'î', 'ï', 'ô', 'ö', 'û', 'ü', 'ñ', 'ç', 'ş', 'ğ', 'ı', 'ÿ', 'Ķ', 'Ņ', '©', 'Ģ', 'Ğ', 'ě',
    'ň', 'ő', 'Ő', '€', '£', '$', 'Ā', 'Ē', 'Ī', 'Ū', 'ķ', 'ņ', 'Ļ', 'ģ', 'ļ', 'İ', 'ń', 'ű', 'Ű',
    '¿', 'ľ', '°', 'ā', 'ē', 'ī', 'ū', 'Á', 'À', 'É', 'È', 'Í', 'Ì', 'Ó', 'Ò', 'Ú', 'Ù', 'Ř', 'Č',
    'Š', 'Ž', 'Ð', 'Ŀ', 'Â', 'Ä', 'Ê', 'Ë', 'Î', 'Ï', 'Ô', 'Ö', 'Û', 'Ü', 'ř', 'č', 'š', 'ž', 'đ',
    'ŀ', 'Ã', 'Å', 'Æ', 'Œ', 'ŷ', 'Ý', 'Õ', 'Ø', 'Þ', 'Ŋ', 'Ŕ', 'Ć', 'Ś', 'Ź', 'Ť', 'ð', 'ã', 'å',
    'æ', 'œ', 'ŵ', 'ý', 'õ', 'ø', 'þ', 'ŋ', 'ŕ', 'ć', 'ś', 'ź', 'ť',
];

/// Where the basic set has another character than that.
const OWN: &[(u8, char)] = &[
    (0x8f, 'Ĳ'),
    (0x9d, 'ǧ'),
    (0x9f, 'ĳ'),
    (0xa0, 'ª'),
    (0xa1, 'α'),
    (0xa3, '‰'),
    (0xa4, 'Ǧ'),
    (0xa8, 'π'),
    (0xac, '←'),
    (0xad, '↑'),
    (0xae, '→'),
    (0xaf, '↓'),
    (0xb0, 'º'),
    (0xb1, '¹'),
    (0xb2, '²'),
    (0xb3, '³'),
    (0xb4, '±'),
    (0xb8, 'µ'),
    (0xba, '÷'),
    (0xbc, '¼'),
    (0xbd, '½'),
    (0xbe, '¾'),
    (0xbf, '§'),
    (0xee, 'Ŧ'),
    (0xfe, 'ŧ'),
];

/// Whether the basic set has another character than digital radio.
fn is_own(byte: u8) -> bool {
    OWN.iter().any(|(own, _)| *own == byte)
}

#[test]
fn the_upper_half_is_that_of_digital_radio_but_for_25_characters(rt: HostRuntime) {
    for byte in 0x80..0xffu8 {
        let theirs = OF_DIGITAL_RADIO.get(usize::from(byte - 0x80)).copied();
        holds!(rt; theirs.is_some());
        same!(rt; character_of(byte) != theirs, is_own(byte), byte);
    }
}

#[test]
fn the_characters_that_digital_radio_has_not(rt: HostRuntime) {
    for (byte, character) in OWN {
        same!(rt; character_of(*byte), Some(*character));
    }
    for (byte, character) in [
        (0x24, '¤'),
        (0x5e, '―'),
        (0x60, '‖'),
        (0x7e, '‾'),
        (0x41, 'A'),
    ] {
        same!(rt; character_of(byte), Some(character));
    }
}

#[test]
fn each_character_back_to_its_byte(rt: HostRuntime) {
    let mut count = 0u8;
    for byte in 0..=0xffu8 {
        if let Some(character) = character_of(byte) {
            same!(rt; byte_of(character), Some(byte));
            count = count.saturating_add(1);
        }
    }
    same!(rt; count, 222);
    same!(rt; byte_of('^'), None);
    same!(rt; byte_of('\n'), None);
}

#[test]
fn names_of_programme_types(rt: HostRuntime) -> Result<(), Fail> {
    same!(rt; name_of(Region::Europe, 10).ok_or("no name")?, "Pop Music");
    same!(rt;
        name_of(Region::NorthAmerica, 10).ok_or("no name")?,
        "Country"
    );
    holds!(rt; name_of(Region::NorthAmerica, 27).is_none());
    same!(rt; number_of(Region::Europe, b"pop MUSIC"), Some(10));
    same!(rt; number_of(Region::NorthAmerica, b"Pop Music"), None);
    same!(rt; number_of(Region::Europe, b""), None);
    Ok(())
}

#[test]
fn bytes_as_they_are_written_between_quotes(rt: HostRuntime) {
    same!(rt; written(0x82).as_slice(), ['é'].as_slice());
    same!(rt; written(0x22).as_slice(), ['\\', '"'].as_slice());
    same!(rt; written(0x0d).as_slice(), ['\\', 'x', '0', 'D'].as_slice());
    same!(rt; first_byte(&['\\', 'x', '0', 'd', 'A']), Ok((0x0d, 4)));
    same!(rt; first_byte(&['\\', 'u', '0', '0', 'E', '9']), Ok((0x82, 6)));
    same!(rt; first_byte(&['\\', '\\']), Ok((0x5c, 2)));
    same!(rt; first_byte(&['é', 'A']), Ok((0x82, 1)));
    same!(rt; first_byte(&['\\', 'x', '0']), Err(QuotedFault::Escape));
    same!(rt;
        first_byte(&['\\', 'u', 'D', '8', '0', '0']),
        Err(QuotedFault::Escape)
    );
    same!(rt; first_byte(&['^']), Err(QuotedFault::NotInSet));
}
