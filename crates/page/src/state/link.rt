//! What the ends of a control line tell of it: its connection, the last refusals, a save that failed (profile).
ghost use Rattle.std.specs.Prelude.{◌≡◌, IfOk, option_map, string_bytes};
ghost use Rattle.serde_json.specs.View.{view};
ghost use Rattle.page.specs.Link.{link_kind, link_told, is_bad, since_when, linked_after, is_verdict, refused_after};
ghost use Rattle.page.specs.Link.{failed_after, heard_after, was_bad, is_heard, refused_line_after};
ghost use Rattle.page.specs.StateView.{linked_of, refusal_of, refused_line_of};

use crate::state::counts::{has_bad_code, is_kind, is_new_answer, is_refused_line, is_sent};
use crate::state::members::{number_at, says, text_at};
use serde_json::Value;
use std::alloc::{AllocError, Global};

/// What the studio's end told of the connection to an encoder.
#[derive(Clone, Copy, Debug, PartialEq, Eq)]
pub(crate) enum Link {
    /// There is one.
    Connected,
    /// None could be made.
    NoConnection,
    /// It was lost.
    Lost,
    /// The encoder answers nothing.
    AnswersNothing,
    /// No more are made.
    GivenUp,
    /// Sending ended.
    Ended,
}

/// What was told of the connection last.
#[derive(Drop)]
pub(crate) struct Linked {
    /// How it is.
    pub(crate) link: Link,
    /// The time that was told when it began to be so.
    pub(crate) since: Option<String>,
    /// The status that was told with it, as where sending ended.
    pub(crate) status: Option<u64>,
}

/// A message that was refused.
#[derive(Drop)]
pub(crate) struct Refusal {
    /// What its code means.
    pub(crate) meaning: Option<String>,
    /// When that was told.
    pub(crate) time: Option<String>,
}

/// A line that the studio's end was given and refused.
#[derive(Drop)]
pub(crate) struct RefusedLine {
    /// Its number.
    pub(crate) number: Option<u64>,
    /// The column at which it is wrong.
    pub(crate) column: Option<u64>,
    /// What is wrong with it.
    pub(crate) meaning: Option<String>,
    /// What it says.
    pub(crate) text: Option<String>,
    /// When that was told.
    pub(crate) time: Option<String>,
}

impl Link {
    /// The kind of the objects that tell it.
    pub(crate) fn kind(self) -> &'static str
        ensures { result.now ≡ link_kind self }
    {
        match self {
            Link::Connected => "connected",
            Link::NoConnection => "no_connection",
            Link::Lost => "lost",
            Link::AnswersNothing => "answers_nothing",
            Link::GivenUp => "line_given_up",
            Link::Ended => "ended",
        }
    }

    /// Whether nothing goes over the line.
    pub(crate) fn is_bad(self) -> bool
        ensures { result ≡ is_bad self }
    {
        match self {
            Link::Connected => false,
            Link::NoConnection | Link::Lost | Link::AnswersNothing | Link::GivenUp | Link::Ended =>
                true,
        }
    }

    /// What an object tells of the connection: by its kind; or where nothing went over the line, that something does,
    /// since something was heard.
    fn told_by(value: &Value, was_bad: bool) -> Option<Link>
        ensures { result ≡ link_told was_bad (view value.now) }
    {
        if is_kind(value, "connected") {
            Some(Link::Connected)
        } else if is_kind(value, "no_connection") {
            Some(Link::NoConnection)
        } else if is_kind(value, "lost") {
            Some(Link::Lost)
        } else if is_kind(value, "answers_nothing") {
            Some(Link::AnswersNothing)
        } else if is_kind(value, "line_given_up") {
            Some(Link::GivenUp)
        } else if is_kind(value, "ended") {
            Some(Link::Ended)
        } else if was_bad && is_heard(value) {
            Some(Link::Connected)
        } else {
            None
        }
    }
}

/// Whether nothing went over the line, by what was told before.
fn was_bad(before: &Option<Linked>) -> bool
    ensures { result ≡ was_bad (option_map linked_of before.now) }
{
    match before {
        Some(before) => before.link.is_bad(),
        None => false,
    }
}

/// Whether an answer came over the line, or the encoder was joined.
fn is_heard(value: &Value) -> bool
    ensures { result ≡ is_heard (view value.now) }
{
    is_sent(value) || is_kind(value, "joined")
}

/// What is known of the connection behind an object.
pub(crate) fn linked_after(
    alloc: Global,
    value: &Value,
    before: Option<Linked>,
) -> Result<Option<Linked>, AllocError>
    ensures { IfOk result (λ behind. option_map linked_of behind
        ≡ linked_after (view value.now) (option_map linked_of before)) }
{
    match Link::told_by(value, was_bad(&before)) {
        Some(link) => {
            let since = since_when(alloc, link, value, before)?;
            let status = number_at(value, "status");
            Ok(Some(Linked {
                link,
                since,
                status,
            }))
        }
        None => Ok(before),
    }
}

/// Since when it is so: where it was bad and still is, since it began to be bad; else since this object.
fn since_when(
    alloc: Global,
    link: Link,
    value: &Value,
    before: Option<Linked>,
) -> Result<Option<String>, AllocError>
    ensures { IfOk result (λ since. option_map string_bytes since
        ≡ since_when link (view value.now) (option_map linked_of before)) }
{
    match before {
        Some(before) => {
            if link.is_bad() && before.link.is_bad() {
                Ok(before.since)
            } else {
                text_at(alloc, value, "time")
            }
        }
        None => text_at(alloc, value, "time"),
    }
}

/// Whether an end tells what became of a message that it had not told of before.
fn is_verdict(value: &Value) -> bool
    ensures { result ≡ is_verdict (view value.now) }
{
    is_sent(value) || is_new_answer(value)
}

/// The last message that was told of, where it was refused.
pub(crate) fn refused_after(
    alloc: Global,
    value: &Value,
    before: Option<Refusal>,
) -> Result<Option<Refusal>, AllocError>
    ensures { IfOk result (λ behind. option_map refusal_of behind
        ≡ refused_after (view value.now) (option_map refusal_of before)) }
{
    if !is_verdict(value) {
        return Ok(before);
    }
    if !has_bad_code(value) {
        return Ok(None);
    }
    let meaning = text_at(alloc, value, "meaning")?;
    let time = text_at(alloc, value, "time")?;
    Ok(Some(Refusal { meaning, time }))
}

/// The last line that was refused, until a message was answered behind it.
///
/// Errors: where memory is refused.
pub(crate) fn refused_line_after(
    alloc: Global,
    value: &Value,
    before: Option<RefusedLine>,
) -> Result<Option<RefusedLine>, AllocError>
    ensures { IfOk result (λ behind. option_map refused_line_of behind
        ≡ refused_line_after (view value.now) (option_map refused_line_of before)) }
{
    if is_refused_line(value) {
        let meaning = text_at(alloc, value, "meaning")?;
        let text = text_at(alloc, value, "text")?;
        let time = text_at(alloc, value, "time")?;
        return Ok(Some(RefusedLine {
            number: number_at(value, "number"),
            column: number_at(value, "column"),
            meaning,
            text,
            time,
        }));
    }
    if is_sent(value) { Ok(None) } else { Ok(before) }
}

/// Whether the encoder could not save its state, and was not connected again and told no store since.
pub(crate) fn failed_after(value: &Value, before: bool) -> bool
    ensures { result ≡ failed_after (view value.now) before }
{
    if is_kind(value, "connection_end") && says(value, "end", "state_failed") {
        true
    } else if is_kind(value, "connection") || is_kind(value, "store") {
        false
    } else {
        before
    }
}

/// The time that was told last behind an object.
///
/// Errors: where memory is refused.
pub(crate) fn heard_after(
    alloc: Global,
    value: &Value,
    before: Option<String>,
) -> Result<Option<String>, AllocError>
    ensures { IfOk result (λ heard. option_map string_bytes heard
        ≡ heard_after (view value.now) (option_map string_bytes before)) }
{
    match text_at(alloc, value, "time")? {
        Some(time) => Ok(Some(time)),
        None => Ok(before),
    }
}
