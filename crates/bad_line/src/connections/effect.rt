//! What a line does on purpose, as it is told (profile).
ghost use Rattle.std.specs.Prelude.{◌≡◌, [], ◌∷◌, codes, OnOk};
ghost use Rattle.std.specs.Io.KnownBytes.{Appends};
ghost use Rattle.uecp_text.specs.Written.{Begins};
ghost use Rattle.bad_line.specs.Rules.{way_word};
ghost use Rattle.bad_line.specs.declared.connections.effect.Effect.TheVariants.{Damaged};
ghost use Rattle.bad_line.specs.Effects.{effect_line, segment_line, joined};

use crate::rules::{Fate, Way};
use itoa::Buffer;
use std::io::Write;
use uecp_text::{RunFault, write_parts};

/// One thing that a line did.
#[derive(Clone, Copy, Debug, PartialEq, Eq)]
pub enum Effect {
    /// The segment of this number was lost.
    Lost(Way, u64),
    /// It came twice.
    Twice(Way, u64),
    /// It came with the byte at this place changed.
    Damaged(Way, u64, usize),
    /// The connection broke behind it.
    Broken(Way, u64),
    /// A connection was refused: taken and closed at once.
    Refused,
}

/// Whom it is told. It is told each as it happens, before what comes of it is handed on.
pub trait Effects {
    /// Tells one.
    fn tell(&self, effect: Effect);
}

/// Tells what came of the segment of this number: that it was lost, or that it came twice, and which byte of it was
/// changed; and that the connection broke behind it.
pub(crate) fn tell_fate<E: Effects>(way: Way, number: u64, fate: Fate, effects: &E) {
    match fate.copies {
        0 => effects.tell(Effect::Lost(way, number)),
        1 => {}
        _ => effects.tell(Effect::Twice(way, number)),
    }
    if let Some(place) = fate.damaged
        && fate.copies > 0
    {
        effects.tell(Effect::Damaged(way, number, place));
    }
    if fate.breaks {
        effects.tell(Effect::Broken(way, number));
    }
}

/// Writes what is said of an effect, as a line, such as `frame 3 lost`. It makes several writes: who wants one writes
/// into a buffer.
///
/// Errors: `Writing` where the writer fails; it has got a beginning of the line then.
pub fn write_effect<W: Write>(effect: Effect, writer: &mut W) -> Result<(), RunFault>
    ensures written { OnOk result (Appends (W.contents writer.old) (W.contents writer.new) (effect_line effect)) }
    ensures begun { Begins (W.contents writer.old) (W.contents writer.new) (effect_line effect) }
{
    match effect {
        Effect::Lost(way, number) => write_segment(b"", way, number, b" lost\n", writer),
        Effect::Twice(way, number) => write_segment(b"", way, number, b" twice\n", writer),
        Effect::Damaged(way, number, place) => write_damage(way, number, place, writer),
        Effect::Broken(way, number) => {
            write_segment(b"broken behind ", way, number, b"\n", writer)
        }
        Effect::Refused => write_parts(&[b"connection refused\n"], writer),
    }
}

/// Writes this of a segment: what stands before it, and what stands behind it.
fn write_segment<W: Write>(
    before: &[u8],
    way: Way,
    number: u64,
    behind: &[u8],
    writer: &mut W,
) -> Result<(), RunFault>
    ensures written { OnOk result (Appends (W.contents writer.old) (W.contents writer.new)
        (segment_line before.now way number behind.now)) }
    ensures begun { Begins (W.contents writer.old) (W.contents writer.new)
        (segment_line before.now way number behind.now) }
{
    let mut buffer = Buffer::new();
    let digits = buffer.format(number).as_bytes();
    write_words(before, name_of(way), digits, behind, writer)
}

/// Writes these, the second and the third with a space between.
fn write_words<'a, W: Write>(
    before: &'a [u8],
    name: &'a [u8],
    digits: &'a [u8],
    behind: &'a [u8],
    writer: &mut W,
) -> Result<(), RunFault>
    ensures written { OnOk result (Appends (W.contents writer.old) (W.contents writer.new)
        (joined (before.now ∷ name.now ∷ codes " " ∷ digits.now ∷ behind.now ∷ []))) }
    ensures begun { Begins (W.contents writer.old) (W.contents writer.new)
        (joined (before.now ∷ name.now ∷ codes " " ∷ digits.now ∷ behind.now ∷ [])) }
{
    write_parts(&[before, name, b" ", digits, behind], writer)
}

/// Writes that a byte of a segment was changed.
fn write_damage<W: Write>(
    way: Way,
    number: u64,
    place: usize,
    writer: &mut W,
) -> Result<(), RunFault>
    ensures written { OnOk result (Appends (W.contents writer.old) (W.contents writer.new)
        (effect_line (Damaged way number place))) }
    ensures begun { Begins (W.contents writer.old) (W.contents writer.new)
        (effect_line (Damaged way number place)) }
{
    let mut numbers = Buffer::new();
    let number = numbers.format(number).as_bytes();
    let mut places = Buffer::new();
    let place = places.format(place).as_bytes();
    write_parts(
        &[
            name_of(way),
            b" ",
            number,
            b" damaged at byte ",
            place,
            b"\n",
        ],
        writer,
    )
}

/// The word of a direction.
fn name_of(way: Way) -> &'static [u8]
    ensures { result.now ≡ way_word way }
{
    match way {
        Way::Frame => b"frame",
        Way::Reply => b"reply",
    }
}
