//! A group as it goes out (profile).
ghost use Rattle.std.specs.Prelude.{◌≡◌, ◌<◌, ◌++◌, ◌∷◌, [], length};
ghost use Rattle.air_edges.specs.AirBytes.{air_bytes};

use arrayvec::ArrayVec;
use rds_groups::{Group, bit_line, line};

/// In which form groups go out.
#[derive(Clone, Copy, Debug, PartialEq, Eq)]
pub enum AirForm {
    /// A line of four words a group.
    Lines,
    /// A line of 104 digits 0 and 1 a group, the first bit first.
    Bits,
}

/// A group in this form, with its line feed.
pub(crate) fn bytes_of(group: &Group, form: AirForm) -> ArrayVec<u8, 105>
    ensures { result.items ≡ air_bytes form group.now }
{
    match form {
        AirForm::Lines => ended(&line(group)),
        AirForm::Bits => ended(&bit_line(group)),
    }
}

/// These characters and a line feed.
fn ended(characters: &[u8]) -> ArrayVec<u8, 105>
    requires { length characters.now < 105 }
    ensures { result.items ≡ characters.now ++ 10 ∷ [] }
{
    let mut bytes = ArrayVec::new();
    match bytes.try_extend_from_slice(characters) {
        Ok(()) => {}
        Err(_) => unreachable!(),
    }
    bytes.push(b'\n');
    bytes
}
