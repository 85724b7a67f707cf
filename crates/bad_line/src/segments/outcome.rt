//! What comes out of a segment (profile).
ghost use Rattle.std.specs.Prelude.{◌≡◌, ◌≤◌, ◌+◌, ◌*◌, ◌++◌, [], length};
ghost use Rattle.bad_line.specs.Pieces.{times, with_damage, out_of_segment};

use crate::rules::Fate;
use crate::segments::cutter::{Out, SEGMENT_MAX};
use arrayvec::ArrayVec;

/// The bit that damage turns.
const DAMAGE: u8 = 0x20;

/// The segment that is held ends: what comes of it comes out, and nothing is held any longer. The caller knows that
/// there is room.
pub(crate) fn end(held: &mut ArrayVec<u8, SEGMENT_MAX>, fate: Fate, out: &mut Out)
    requires { length out.old.items + fate.copies * length held.old.items ≤ 8192 }
    ensures given { out.new.items ≡ out.old.items ++ out_of_segment fate held.old.items }
    ensures held { held.new.items ≡ [] }
{
    damage(held.as_mut_slice(), fate.damaged);
    give_copies(fate.copies, held.as_slice(), out);
    held.clear();
}

/// Damages the byte at this place, counted from 1, if there is one.
fn damage(segment: &mut [u8], place: Option<usize>)
    ensures { segment.new ≡ with_damage place segment.old }
{
    if let Some(place) = place {
        let index = place.saturating_sub(1);
        if index < segment.len() {
            segment[index] ^= DAMAGE;
        }
    }
}

/// The bytes come out as they are. The caller knows that there is room.
pub(crate) fn give(bytes: &[u8], out: &mut Out)
    requires { length out.old.items + length bytes.now ≤ 8192 }
    ensures { out.new.items ≡ out.old.items ++ bytes.now }
{
    let _ = out.try_extend_from_slice(bytes);
}

/// So many copies of the bytes come out. The caller knows that there is room.
fn give_copies(copies: u8, bytes: &[u8], out: &mut Out)
    requires { length out.old.items + copies * length bytes.now ≤ 8192 }
    ensures { out.new.items ≡ out.old.items ++ times copies bytes.now }
{
    for _copy in 0..copies {
        give(bytes, out);
    }
}
