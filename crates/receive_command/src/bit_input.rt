//! Bits are heard as they come, and what changed is told (profile).
ghost use Rattle.std.specs.Prelude.{◌≡◌, ◌||◌, List, [], ◌∷◌, false, is_some, IfErr, OnOk, IsTrue};
ghost use Rattle.std.specs.List.{list_any};
ghost use Rattle.rds_groups.specs.Shown.{switched_on};
ghost use Rattle.rds_groups.specs.View.{receiver_of};
ghost use Rattle.rds_groups.specs.Sync as sync;
ghost use Rattle.receive_command.specs.Bits.{HearsText, FailsInText, SaysForeign, is_foreign, foreign_line};
ghost use Rattle.receive_command.specs.View.{bits_of_hearing, SaysMore};

use crate::group_lines::GroupLine;
use crate::line_input::hear_group;
use commands::ShownForm;
use notices::{Notices, NoticesTo};
use rds_groups::{Receiver, Synchroniser};
use std::io::Write;
use std::time::Clock;
use uecp_text::{Output, RunFault};

/// What was heard of bits so far.
#[derive(Drop)]
pub(crate) struct BitHearing {
    /// Where the next group is looked for.
    pub(crate) synchroniser: Synchroniser,
    /// The receiver.
    pub(crate) receiver: Receiver,
    /// Whether something came that is neither bit nor white space.
    pub(crate) foreign: bool,
}

impl BitHearing {
    /// Nothing came.
    pub(crate) fn new() -> BitHearing
        ensures synchroniser { result.synchroniser ≡ sync.switched_on }
        ensures receiver { receiver_of result.receiver ≡ switched_on }
        ensures foreign { result.foreign ≡ false }
    {
        BitHearing {
            synchroniser: Synchroniser::new(),
            receiver: Receiver::new(),
            foreign: false,
        }
    }
}

/// Notes what of a read is neither bit nor white space, and says it where it is the first.
pub(crate) fn note_foreign<E: Write>(
    bytes: &[u8],
    hearing: &mut BitHearing,
    errors: &mut NoticesTo<E>,
)
    ensures foreign { hearing.new.foreign ≡ hearing.old.foreign || list_any is_foreign bytes.now }
    ensures synchroniser { hearing.new.synchroniser ≡ hearing.old.synchroniser }
    ensures receiver { hearing.new.receiver ≡ hearing.old.receiver }
    ensures said { SaysMore hearing.old.foreign (list_any is_foreign bytes.now)
        errors.old errors.new }
{
    if !hearing.foreign && has_foreign(bytes) {
        hearing.foreign = true;
        errors.say(&[b"uecp: input that is neither 0 nor 1\n"]);
    }
}

/// Whether some of the characters are neither bits nor white space.
fn has_foreign(bytes: &[u8]) -> bool
    ensures { result ≡ list_any is_foreign bytes.now }
{
    bytes.iter().any(|&byte| is_foreign(byte))
}

/// Whether the character is neither a bit nor white space.
fn is_foreign(character: u8) -> bool
    ensures { result ≡ is_foreign character }
{
    !matches!(character, b'0' | b'1' | b' ' | b'\n' | b'\r' | b'\t')
}

/// The bits of a read are heard, and what changed is told behind each group.
///
/// Errors: `OutOfMemory`, `Writing`; then some of the bits were not heard.
pub(crate) fn hear_bits<W: Write, C: Clock>(
    form: ShownForm,
    clock: Option<&C>,
    bytes: &[u8],
    hearing: &mut BitHearing,
    output: &mut Output,
    writer: &mut W,
) -> Result<(), RunFault>
    requires empty { output.old.bytes ≡ [] }
    requires whole { IsTrue output.old.is_whole }
    ensures heard { OnOk result (HearsText form (is_some clock.entry) bytes.now
        (bits_of_hearing hearing.old (W.contents writer.old)) (bits_of_hearing hearing.new (W.contents writer.new))) }
    ensures failed { IfErr result (FailsInText form (is_some clock.entry) bytes.now
        (bits_of_hearing hearing.old (W.contents writer.old)) (W.contents writer.new)) }
    ensures foreign { hearing.new.foreign ≡ hearing.old.foreign }
    ensures empty { OnOk result (output.new.bytes ≡ []) }
    ensures whole { OnOk result (IsTrue output.new.is_whole) }
{
    for place in 0..bytes.len() {
        hear_character(form, clock, bytes[place], hearing, output, writer)?;
    }
    Ok(())
}

/// A character is heard, and what changed is told where a group ends with it.
///
/// Errors: `OutOfMemory`, `Writing`.
fn hear_character<W: Write, C: Clock>(
    form: ShownForm,
    clock: Option<&C>,
    character: u8,
    hearing: &mut BitHearing,
    output: &mut Output,
    writer: &mut W,
) -> Result<(), RunFault>
    requires empty { output.old.bytes ≡ [] }
    requires whole { IsTrue output.old.is_whole }
    ensures heard { OnOk result (HearsText form (is_some clock.entry) (character ∷ [])
        (bits_of_hearing hearing.old (W.contents writer.old)) (bits_of_hearing hearing.new (W.contents writer.new))) }
    ensures failed { IfErr result (FailsInText form (is_some clock.entry) (character ∷ [])
        (bits_of_hearing hearing.old (W.contents writer.old)) (W.contents writer.new)) }
    ensures foreign { hearing.new.foreign ≡ hearing.old.foreign }
    ensures empty { OnOk result (output.new.bytes ≡ []) }
    ensures whole { OnOk result (IsTrue output.new.is_whole) }
{
    match hearing.synchroniser.take_character(character) {
        None => Ok(()),
        Some(group) => {
            let group = GroupLine::Group(group);
            hear_group(form, clock, &group, &mut hearing.receiver, output, writer)
        }
    }
}
