//! The rows of what came of an event (profile).
ghost use Rattle.std.specs.Prelude.{◌≡◌, ◌++◌, ◌∷◌, [], OnOk, option_to_list};
ghost use Rattle.uecp_link.specs.Events.{event_of};
ghost use Rattle.ladders.specs.Rows.{rows_of, row_of, lost_before, replaced, mark_of, mark_by, label_of};

use crate::row::{Label, Mark, Remark, Row};
use std::alloc::AllocError;
use uecp_jobs::named_message;
use uecp_link::{LineEvent, LineRefusal, Side, Stepped};

/// Adds the rows of an event: its own, and before it, where its frame came again though the server did not know that
/// the message had come, that of the reply that was lost. `is_acknowledged` is whether the server knew that before the
/// event. On `AllocError` there was no memory, and the row of a lost reply may have been added.
pub fn rows_of(
    event: &LineEvent<'_>,
    outcome: Result<Stepped, LineRefusal>,
    is_acknowledged: bool,
    rows: &mut Vec<Row>,
) -> Result<(), AllocError>
    ensures { OnOk result (rows.new.items ≡ rows.old.items
        ++ rows_of (event_of event.now) outcome is_acknowledged) }
{
    if let Some(lost) = lost_before(event, outcome, is_acknowledged) {
        rows.push(lost)?;
    }
    rows.push(row_of(event, outcome))?;
    Ok(())
}

/// The row of a server that was replaced by one that knows nothing: how many messages were given up.
pub fn row_of_replacement(given_up: usize) -> Row
    ensures { result ≡ replaced given_up }
{
    Row {
        mark: Mark::AtServer,
        label: Label::Nothing,
        said: Remark::GivenUp(given_up),
    }
}

/// The row of a reply that was lost before this event, if the event shows one.
fn lost_before(
    event: &LineEvent<'_>,
    outcome: Result<Stepped, LineRefusal>,
    is_acknowledged: bool,
) -> Option<Row>
    ensures { option_to_list result ≡ lost_before (event_of event.now) outcome is_acknowledged }
{
    match (*event, outcome) {
        (LineEvent::Frame { number, .. }, Ok(Stepped::Delivered { fresh: false, .. }))
            if !is_acknowledged => {
            Some(Row {
                mark: Mark::LostToServer,
                label: Label::Reply(number),
                said: Remark::Lost,
            })
        }
        _ => None,
    }
}

/// The row of the event itself.
fn row_of(event: &LineEvent<'_>, outcome: Result<Stepped, LineRefusal>) -> Row
    ensures { result ≡ row_of (event_of event.now) outcome }
{
    Row {
        mark: mark_by(event, outcome),
        label: label_of(event),
        said: Remark::Step {
            outcome,
            named: named_message(event),
        },
    }
}

/// The arrow or mark of an event; none where it was refused.
fn mark_by(event: &LineEvent<'_>, outcome: Result<Stepped, LineRefusal>) -> Mark
    ensures { result ≡ mark_by (event_of event.now) outcome }
{
    match outcome {
        Ok(_) => mark_of(event),
        Err(_) => Mark::Nothing,
    }
}

/// The arrow or mark of an event that took place.
fn mark_of(event: &LineEvent<'_>) -> Mark
    ensures { result ≡ mark_of (event_of event.now) }
{
    match *event {
        LineEvent::Submit(_) | LineEvent::ServerRestart => Mark::AtServer,
        LineEvent::Frame { .. } => Mark::ToEncoder,
        LineEvent::Reply { .. } => Mark::ToServer,
        LineEvent::NoiseToEncoder(_) => Mark::LostToEncoder,
        LineEvent::NoiseToServer(_) => Mark::LostToServer,
        LineEvent::LineLost(Side::Encoder) => Mark::LostAtEncoder,
        LineEvent::LineLost(Side::Server) => Mark::LostAtServer,
        LineEvent::EncoderRestart | LineEvent::Take => Mark::AtEncoder,
    }
}

/// What the arrow of an event carries.
fn label_of(event: &LineEvent<'_>) -> Label
    ensures { result ≡ label_of (event_of event.now) }
{
    match *event {
        LineEvent::Frame { number, .. } => Label::Frame(number),
        LineEvent::Reply { number, .. } => Label::Reply(number),
        LineEvent::NoiseToEncoder(_) | LineEvent::NoiseToServer(_) => Label::Noise,
        _ => Label::Nothing,
    }
}
