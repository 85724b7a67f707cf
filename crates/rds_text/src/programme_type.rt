//! The names of the programme types. Source: IEC 62106, programme types.
ghost use Rattle.std.specs.Prelude.{◌≡◌, ℕ, ◌↔◌, IfSome, IfNone, IsTrue, Some, None};
ghost use Rattle.rds_text.specs.ProgrammeTypes.{name_of, HasName};
ghost use Rattle.rds_text.specs.declared.programme_type.Region.TheVariants.{Europe, NorthAmerica};

/// Whose names of programme types are meant.
#[derive(Clone, Copy, Debug, PartialEq, Eq, Drop)]
pub enum Region {
    /// RDS, as in Europe.
    Europe,
    /// RBDS, as in North America, where 27 and 28 have no name.
    NorthAmerica,
}

/// The name of a programme type, at most sixteen characters of ASCII, or None where it has none: from 32 on, and 27 and
/// 28 in North America.
///
/// ```
/// name_of(Region::Europe, 10); // Some("Pop Music")
/// ```
pub fn name_of(region: Region, number: u8) -> Option<&'static str>
    ensures some { IfSome result (λ name. name_of region number ≡ Some name.now) }
    ensures none { IfNone result (name_of region number ≡ None) }
{
    match region {
        Region::Europe => european(number),
        Region::NorthAmerica => north_american(number),
    }
}

/// Europe's name of a programme type.
#[tactic(auto, unfolding(crate::specs::ProgrammeTypes::name_of, crate::specs::ProgrammeTypes::names))]
fn european(number: u8) -> Option<&'static str>
    ensures some { IfSome result (λ name. name_of Europe number ≡ Some name.now) }
    ensures none { IfNone result (name_of Europe number ≡ None) }
{
    match number {
        0 => Some("None"),
        1 => Some("News"),
        2 => Some("Current Affairs"),
        3 => Some("Information"),
        4 => Some("Sport"),
        5 => Some("Education"),
        6 => Some("Drama"),
        7 => Some("Cultures"),
        8 => Some("Science"),
        9 => Some("Varied Speech"),
        10 => Some("Pop Music"),
        11 => Some("Rock Music"),
        12 => Some("Easy Listening"),
        13 => Some("Light Classics M"),
        14 => Some("Serious Classics"),
        15 => Some("Other Music"),
        16 => Some("Weather & Metr"),
        17 => Some("Finance"),
        18 => Some("Children's Progs"),
        19 => Some("Social Affairs"),
        20 => Some("Religion"),
        21 => Some("Phone In"),
        22 => Some("Travel & Touring"),
        23 => Some("Leisure & Hobby"),
        24 => Some("Jazz Music"),
        25 => Some("Country Music"),
        26 => Some("National Music"),
        27 => Some("Oldies Music"),
        28 => Some("Folk Music"),
        29 => Some("Documentary"),
        30 => Some("Alarm Test"),
        31 => Some("Alarm - Alarm !"),
        32..=255 => None,
    }
}

/// North America's name of a programme type.
#[tactic(auto, unfolding(crate::specs::ProgrammeTypes::name_of, crate::specs::ProgrammeTypes::names))]
fn north_american(number: u8) -> Option<&'static str>
    ensures some { IfSome result (λ name. name_of NorthAmerica number ≡ Some name.now) }
    ensures none { IfNone result (name_of NorthAmerica number ≡ None) }
{
    match number {
        0 => Some("None"),
        1 => Some("News"),
        2 => Some("Information"),
        3 => Some("Sports"),
        4 => Some("Talk"),
        5 => Some("Rock"),
        6 => Some("Classic Rock"),
        7 => Some("Adult Hits"),
        8 => Some("Soft Rock"),
        9 => Some("Top 40"),
        10 => Some("Country"),
        11 => Some("Oldies"),
        12 => Some("Soft"),
        13 => Some("Nostalgia"),
        14 => Some("Jazz"),
        15 => Some("Classical"),
        16 => Some("Rhythm and Blues"),
        17 => Some("Soft R & B"),
        18 => Some("Foreign Language"),
        19 => Some("Religious Music"),
        20 => Some("Religious Talk"),
        21 => Some("Personality"),
        22 => Some("Public"),
        23 => Some("College"),
        24 => Some("Spanish Talk"),
        25 => Some("Spanish Music"),
        26 => Some("Hip-Hop"),
        29 => Some("Weather"),
        30 => Some("Emergency Test"),
        31 => Some("ALERT! ALERT!"),
        27 => None,
        28 => None,
        32..=255 => None,
    }
}

/// The programme type of that name, whatever the case of its letters, or None.
///
/// ```
/// number_of(Region::Europe, b"pop music"); // Some(10)
/// ```
pub fn number_of(region: Region, name: &[u8]) -> Option<u8>
    ensures some { IfSome result (λ number. HasName region number name.now) }
    ensures none { IfNone result ((number : ℕ) → HasName region number name.now → ⊥) }
{
    for number in 0..32 {
        if has_name(region, number, name) {
            return Some(number);
        }
    }
    None
}

/// Whether a number has this name.
fn has_name(region: Region, number: u8, name: &[u8]) -> bool
    ensures { IsTrue result ↔ HasName region number name.now }
{
    match name_of(region, number) {
        Some(own) => own.as_bytes().eq_ignore_ascii_case(name),
        None => false,
    }
}
