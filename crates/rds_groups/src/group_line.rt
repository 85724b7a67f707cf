//! The line of a group: four words in hexadecimal. Source: profile.
ghost use Rattle.std.specs.Prelude.{◌≡◌, ◌≢◌, ◌+◌, ◌<◌, length, slice_index, IfSome, IfNone};
ghost use Rattle.rds_groups.specs.Lines as lines;
ghost use Rattle.rds_groups.specs.declared.group.Group.{Group};

use crate::group::Group;

/// The line of a group, as `C201 0548 E0E0 5241`.
pub fn line(group: &Group) -> [u8; 19]
    ensures { result ≡ lines.line group.now }
{
    let [a, b, c, d] = digits(group.block1);
    let [e, f, g, h] = digits(group.block2);
    let [i, j, k, l] = digits(group.block3);
    let [m, n, o, p] = digits(group.block4);
    [
        a, b, c, d, b' ', e, f, g, h, b' ', i, j, k, l, b' ', m, n, o, p,
    ]
}

/// The group whose line this is; None exactly where it is no group's.
pub fn read_line(text: &[u8]) -> Option<Group>
    ensures some { IfSome result (λ group. lines.line group ≡ text.now) }
    ensures none { IfNone result ((group : Group) → lines.IsGroup group → lines.line group ≢ text.now) }
{
    let group = Group {
        block1: number_at(text, 0),
        block2: number_at(text, 5),
        block3: number_at(text, 10),
        block4: number_at(text, 15),
    };
    let written = line(&group);
    let is_line = written.as_slice() == text;
    if is_line { Some(group) } else { None }
}

/// The number of four digits at a place, if digits are there.
fn number_at(text: &[u8], place: usize) -> u16
    requires { place < 16 }
    ensures { result ≡ lines.number_at text.now place }
{
    value_at(text, place) * 4096
        + value_at(text, place + 1) * 256
        + value_at(text, place + 2) * 16
        + value_at(text, place + 3)
}

/// The value of a digit, if one is there.
fn value_at(text: &[u8], place: usize) -> u16
    ensures value { result ≡ lines.value (slice_index text.now place) }
    ensures below { result < 16 }
{
    let byte = if place < text.len() { text[place] } else { 0 };
    u16::from(if byte < 58 {
        byte.saturating_sub(48)
    } else {
        byte - 55
    }) % 16
}

fn digits(word: u16) -> [u8; 4]
    ensures { result ≡ lines.digits word }
{
    [
        digit((word / 4096) as u8),
        digit((word / 256 % 16) as u8),
        digit((word / 16 % 16) as u8),
        digit((word % 16) as u8),
    ]
}

fn digit(number: u8) -> u8
    requires { number < 16 }
    ensures { result ≡ lines.digit number }
{
    if number < 10 {
        48 + number
    } else {
        55 + number
    }
}
