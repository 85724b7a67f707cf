//! What is counted of a control line (profile).
ghost use Rattle.std.specs.Prelude.{◌≡◌, ◌+◌, ◌-◌, ◌^◌, min};
ghost use Rattle.serde_json.specs.View.{view};
ghost use Rattle.page.specs.Members.{says};
ghost use Rattle.page.specs.Counts.{counted, no_counts, one_more, is_sent, is_message, is_empty, is_repeat, is_kind};
ghost use Rattle.page.specs.Counts.{is_told, is_refused_line, is_new_answer, has_bad_code, lines_not_told};
ghost use Rattle.page.specs.StateView.{counts_of};

use crate::state::members::{flag_at, number_or_0, says};
use serde_json::Value;

/// What was counted of a control line; no more than 2^64 - 1 of anything.
#[derive(Clone, Copy, Debug, PartialEq, Eq)]
pub(crate) struct Counts {
    /// Objects.
    pub(crate) lines: u64,
    /// Messages that the studio's end told the answer to.
    pub(crate) sent: u64,
    /// Those of them that were refused.
    pub(crate) sent_refusals: u64,
    /// Lines that the studio's end refused.
    pub(crate) refused_lines: u64,
    /// Messages that the encoder's end told.
    pub(crate) messages: u64,
    /// Empty messages that it told.
    pub(crate) empty: u64,
    /// Messages that came again.
    pub(crate) repeats: u64,
    /// Messages that it refused.
    pub(crate) refusals: u64,
    /// Segments that were no frame.
    pub(crate) dropped: u64,
    /// Connections.
    pub(crate) connections: u64,
    /// Lines that an end could not tell, since nobody read them.
    pub(crate) not_told: u64,
}

impl Counts {
    /// Nothing was counted.
    pub(crate) fn new() -> Counts
        ensures { counts_of result ≡ no_counts }
    {
        Counts {
            lines: 0,
            sent: 0,
            sent_refusals: 0,
            refused_lines: 0,
            messages: 0,
            empty: 0,
            repeats: 0,
            refusals: 0,
            dropped: 0,
            connections: 0,
            not_told: 0,
        }
    }

    /// The counts behind an object of ours.
    pub(crate) fn count(&mut self, value: &Value)
        ensures { counts_of self.new ≡ counted (view value.now) (counts_of self.old) }
    {
        let is_bad = has_bad_code(value);
        add(true, &mut self.lines);
        add(is_sent(value), &mut self.sent);
        add(is_sent(value) && is_bad, &mut self.sent_refusals);
        add(is_refused_line(value), &mut self.refused_lines);
        add(is_message(value), &mut self.messages);
        add(is_empty(value), &mut self.empty);
        add(is_repeat(value), &mut self.repeats);
        add(is_new_answer(value) && is_bad, &mut self.refusals);
        add(is_kind(value, "dropped"), &mut self.dropped);
        add(is_kind(value, "connection"), &mut self.connections);
        self.not_told = self.not_told.saturating_add(lines_not_told(value));
    }
}

/// Counts one more, where something holds.
pub(crate) fn add(holds: bool, count: &mut u64)
    ensures { count.new ≡ one_more holds count.old }
{
    if holds {
        *count = count.saturating_add(1);
    }
}

/// Whether an object is of this kind.
pub(crate) fn is_kind(value: &Value, kind: &str) -> bool
    ensures { result ≡ is_kind kind.now (view value.now) }
{
    says(value, "kind", kind)
}

/// Whether the studio's end tells what became of a message that it sent.
pub(crate) fn is_sent(value: &Value) -> bool
    ensures { result ≡ is_sent (view value.now) }
{
    is_kind(value, "answer")
}

/// Whether the studio's end refused a line that it was given.
pub(crate) fn is_refused_line(value: &Value) -> bool
    ensures { result ≡ is_refused_line (view value.now) }
{
    is_kind(value, "line_refused")
}

/// Whether the encoder's end tells a frame with no message in it.
fn is_empty(value: &Value) -> bool
    ensures { result ≡ is_empty (view value.now) }
{
    is_kind(value, "frame") && says(value, "message", "")
}

/// Whether the encoder's end tells a message: by its frame, or by its reply where no frame is told.
fn is_message(value: &Value) -> bool
    ensures { result ≡ is_message (view value.now) }
{
    let is_full = is_kind(value, "frame") && !says(value, "message", "");
    is_full || is_kind(value, "reply")
}

/// Whether an end tells a message, either of them.
pub(crate) fn is_told(value: &Value) -> bool
    ensures { result ≡ is_told (view value.now) }
{
    is_sent(value) || is_message(value)
}

/// Whether it tells that a message came again.
fn is_repeat(value: &Value) -> bool
    ensures { result ≡ is_repeat (view value.now) }
{
    let is_again = is_kind(value, "answered") && says(value, "answer", "repeat");
    let is_kept = is_kind(value, "reply") && flag_at(value, "fresh") != Some(true);
    is_again || is_kept
}

/// Whether the encoder's end tells what became of a message that had not come before.
pub(crate) fn is_new_answer(value: &Value) -> bool
    ensures { result ≡ is_new_answer (view value.now) }
{
    is_kind(value, "answered") && says(value, "answer", "new")
}

/// Whether a message was refused: its code is not 00.
pub(crate) fn has_bad_code(value: &Value) -> bool
    ensures { result ≡ has_bad_code (view value.now) }
{
    !says(value, "code", "00")
}

/// How many lines an end could not tell, as it says.
fn lines_not_told(value: &Value) -> u64
    ensures { result ≡ lines_not_told (view value.now) }
{
    if is_kind(value, "not_told") {
        number_or_0(value, "lines")
    } else {
        0
    }
}
