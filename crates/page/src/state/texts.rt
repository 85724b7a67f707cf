//! The state as JSON (profile).
ghost use Rattle.std.specs.Prelude.{◌≡◌, IfOk, OnOk, Some, option_map, map, string_bytes};
ghost use Rattle.serde_json.specs.View.{view, members_view};
ghost use Rattle.serde_json.specs.Written.{compact_text};
ghost use Rattle.page.specs.Texts.{text_data, flag_data, number_data, service_data, counts_data};
ghost use Rattle.page.specs.Texts.{services_data, link_data, since_data, refused_data, line_data, lines_data};
ghost use Rattle.page.specs.Texts.{state_data, end_of, line_head, refused_line_data, numbers_data, status_data};
ghost use Rattle.page.specs.Texts.{announced_data};
ghost use Rattle.page.specs.Minutes.{last_hour};
ghost use Rattle.serde_json.specs.Data.{array, object, string, no_members};
ghost use Rattle.page.specs.StateView.{service_of, counts_of, linked_of, refusal_of, refused_line_of, line_of};
ghost use Rattle.page.specs.StateView.{state_of, minutes_of};

use crate::state::announced::{Announcement, seconds_since, since_of};
use crate::state::counts::Counts;
use crate::state::line::Line;
use crate::state::link::{Linked, Refusal, RefusedLine};
use crate::state::minutes::{MINUTES, Minutes, minute_of};
use crate::state::page::Page;
use crate::state::row::Row;
use crate::state::silence::{Moment, silent};
use serde_json::{Map, Value, json, put};
use std::alloc::{AllocError, Global};

/// A text, or null.
pub(crate) fn text_value(alloc: Global, text: &Option<String>) -> Result<Value, AllocError>
    ensures { IfOk result (λ value. view value ≡ text_data (option_map string_bytes text.now)) }
{
    match text {
        Some(text) => Value::try_from_str(alloc, text.as_str()),
        None => Ok(Value::Null),
    }
}

/// A truth value, or null.
pub(crate) fn flag_value(flag: Option<bool>) -> Value
    ensures { view result ≡ flag_data flag }
{
    match flag {
        Some(flag) => Value::Bool(flag),
        None => Value::Null,
    }
}

/// A number, or null.
fn number_value(number: Option<u64>) -> Value
    ensures { view result ≡ number_data number }
{
    match number {
        Some(number) => Value::from(number),
        None => Value::Null,
    }
}

/// For how many whole seconds an announcement of a service is on, or null.
fn announced_value(now: u64, announced: &[Announcement], row: &Row) -> Value
    ensures { view result ≡ announced_data now announced.now (service_of row.now) }
{
    match since_of(announced, row.set, row.service) {
        Some(since) => Value::from(seconds_since(now, since)),
        None => Value::Null,
    }
}

/// A service as an object; of these announcements those that are its own are on.
fn service_value(
    alloc: Global,
    now: u64,
    announced: &[Announcement],
    row: &Row,
) -> Result<Value, AllocError>
    ensures { IfOk result (λ value. view value ≡ service_data now announced.now (service_of row.now)) }
{
    let mut members = Map::new(alloc);
    put_service(alloc, now, announced, row, &mut members)?;
    Ok(Value::Object(members))
}

/// Puts the members of a service into an object that has none.
fn put_service(
    alloc: Global,
    now: u64,
    announced: &[Announcement],
    row: &Row,
    members: &mut Map<String, Value>,
) -> Result<(), AllocError>
    requires empty { members_view members.old.entries ≡ no_members }
    ensures { OnOk result (object (members_view members.new.entries)
        ≡ service_data now announced.now (service_of row.now)) }
{
    let seconds = announced_value(now, announced, row);
    put(members, alloc, "announced", seconds)?;
    put(members, alloc, "main", Value::Bool(row.is_main))?;
    put(members, alloc, "name", text_value(alloc, &row.name)?)?;
    put(members, alloc, "pi", text_value(alloc, &row.pi)?)?;
    put(members, alloc, "pty", number_value(row.pty))?;
    put(members, alloc, "rt", text_value(alloc, &row.rt)?)?;
    put(members, alloc, "service", Value::from(row.service))?;
    put(members, alloc, "set", Value::from(row.set))?;
    put(members, alloc, "ta", flag_value(row.ta))?;
    put(members, alloc, "tp", flag_value(row.tp))?;
    Ok(())
}

/// Counts as an object.
fn counts_value(alloc: Global, counts: &Counts) -> Result<Value, AllocError>
    ensures { IfOk result (λ value. view value ≡ counts_data (counts_of counts.now)) }
{
    let mut members = Map::new(alloc);
    put_counts(alloc, counts, &mut members)?;
    Ok(Value::Object(members))
}

/// Puts the members of counts into an object that has none.
fn put_counts(
    alloc: Global,
    counts: &Counts,
    members: &mut Map<String, Value>,
) -> Result<(), AllocError>
    requires empty { members_view members.old.entries ≡ no_members }
    ensures { OnOk result (object (members_view members.new.entries) ≡ counts_data (counts_of counts.now)) }
{
    put(
        members,
        alloc,
        "connections",
        Value::from(counts.connections),
    )?;
    put(members, alloc, "dropped", Value::from(counts.dropped))?;
    put(members, alloc, "empty", Value::from(counts.empty))?;
    put(members, alloc, "lines", Value::from(counts.lines))?;
    put(members, alloc, "messages", Value::from(counts.messages))?;
    put(members, alloc, "not_told", Value::from(counts.not_told))?;
    put(members, alloc, "refusals", Value::from(counts.refusals))?;
    put(
        members,
        alloc,
        "refused_lines",
        Value::from(counts.refused_lines),
    )?;
    put(members, alloc, "repeats", Value::from(counts.repeats))?;
    put(members, alloc, "sent", Value::from(counts.sent))?;
    put(
        members,
        alloc,
        "sent_refusals",
        Value::from(counts.sent_refusals),
    )?;
    Ok(())
}

/// Services as an array; of these announcements those that are their own are on.
fn services_value(
    alloc: Global,
    now: u64,
    announced: &[Announcement],
    rows: &[Row],
) -> Result<Value, AllocError>
    ensures { IfOk result (λ value. view value
        ≡ array (services_data now announced.now (map service_of rows.now))) }
{
    let mut list = Vec::new(alloc);
    for row in rows {
        list.push(service_value(alloc, now, announced, row)?)?;
    }
    Ok(Value::Array(list))
}

/// What was told of the connection: the kind of the objects that tell it, or null.
fn link_value(alloc: Global, linked: &Option<Linked>) -> Result<Value, AllocError>
    ensures { IfOk result (λ value. view value ≡ link_data (option_map linked_of linked.now)) }
{
    match linked {
        Some(linked) => Value::try_from_str(alloc, linked.link.kind()),
        None => Ok(Value::Null),
    }
}

/// Since when that is so, or null.
fn since_value(alloc: Global, linked: &Option<Linked>) -> Result<Value, AllocError>
    ensures { IfOk result (λ value. view value ≡ since_data (option_map linked_of linked.now)) }
{
    match linked {
        Some(linked) => text_value(alloc, &linked.since),
        None => Ok(Value::Null),
    }
}

/// The status that was told with it, or null.
fn status_value(linked: &Option<Linked>) -> Value
    ensures { view result ≡ status_data (option_map linked_of linked.now) }
{
    match linked {
        Some(linked) => number_value(linked.status),
        None => Value::Null,
    }
}

/// The last message, where it was refused, or null.
fn refused_value(alloc: Global, refused: &Option<Refusal>) -> Result<Value, AllocError>
    ensures { IfOk result (λ value. view value ≡ refused_data (option_map refusal_of refused.now)) }
{
    match refused {
        Some(refusal) => refusal_value(alloc, refusal),
        None => Ok(Value::Null),
    }
}

/// A message that was refused as an object.
fn refusal_value(alloc: Global, refusal: &Refusal) -> Result<Value, AllocError>
    ensures { IfOk result (λ value. view value ≡ refused_data (Some (refusal_of refusal.now))) }
{
    let mut members = Map::new(alloc);
    let list = &mut members;
    put(list, alloc, "meaning", text_value(alloc, &refusal.meaning)?)?;
    put(list, alloc, "time", text_value(alloc, &refusal.time)?)?;
    Ok(Value::Object(members))
}

/// The last line, where it was refused, or null.
fn refused_line_value(alloc: Global, refused: &Option<RefusedLine>) -> Result<Value, AllocError>
    ensures { IfOk result (λ value. view value ≡ refused_line_data (option_map refused_line_of refused.now)) }
{
    match refused {
        Some(line) => line_refused_value(alloc, line),
        None => Ok(Value::Null),
    }
}

/// A line that was refused as an object.
fn line_refused_value(alloc: Global, line: &RefusedLine) -> Result<Value, AllocError>
    ensures { IfOk result (λ value. view value ≡ refused_line_data (Some (refused_line_of line.now))) }
{
    let mut members = Map::new(alloc);
    let list = &mut members;
    put(list, alloc, "column", number_value(line.column))?;
    put(list, alloc, "meaning", text_value(alloc, &line.meaning)?)?;
    put(list, alloc, "number", number_value(line.number))?;
    put(list, alloc, "text", text_value(alloc, &line.text)?)?;
    put(list, alloc, "time", text_value(alloc, &line.time)?)?;
    Ok(Value::Object(members))
}

/// By which end it is known what is on the air.
fn end_value(alloc: Global, has_encoder: bool) -> Result<Value, AllocError>
    ensures { IfOk result (λ value. view value ≡ string (end_of has_encoder)) }
{
    Value::try_from_str(alloc, if has_encoder { "encoder" } else { "studio" })
}

/// A control line as an object.
fn line_value(alloc: Global, now: u64, line: &Line) -> Result<Value, AllocError>
    ensures { IfOk result (λ value. view value ≡ line_data now (line_of line.now)) }
{
    let mut members = Map::new(alloc);
    put_line(alloc, now, line, &mut members)?;
    Ok(Value::Object(members))
}

/// Puts the members of a control line into an object that has none.
fn put_line(
    alloc: Global,
    now: u64,
    line: &Line,
    members: &mut Map<String, Value>,
) -> Result<(), AllocError>
    requires empty { members_view members.old.entries ≡ no_members }
    ensures { OnOk result (object (members_view members.new.entries) ≡ line_data now (line_of line.now)) }
{
    put_head(alloc, line, members)?;
    put_rest(alloc, now, line, members)
}

/// Puts those members of a control line that come first into an object that has none.
fn put_head(alloc: Global, line: &Line, members: &mut Map<String, Value>) -> Result<(), AllocError>
    requires empty { members_view members.old.entries ≡ no_members }
    ensures { OnOk result (members_view members.new.entries ≡ line_head (line_of line.now)) }
{
    put(members, alloc, "counts", counts_value(alloc, &line.counts)?)?;
    put(members, alloc, "current", Value::from(line.air().current()))?;
    put(members, alloc, "end", end_value(alloc, line.has_encoder)?)?;
    put(members, alloc, "failed", Value::Bool(line.failed))?;
    put(members, alloc, "heard", text_value(alloc, &line.heard)?)?;
    put(
        members,
        alloc,
        "line",
        Value::try_from_str(alloc, line.name.as_str())?,
    )?;
    put(members, alloc, "link", link_value(alloc, &line.linked)?)?;
    Ok(())
}

/// Puts the others behind these.
fn put_rest(
    alloc: Global,
    now: u64,
    line: &Line,
    members: &mut Map<String, Value>,
) -> Result<(), AllocError>
    requires head { members_view members.old.entries ≡ line_head (line_of line.now) }
    ensures { OnOk result (object (members_view members.new.entries) ≡ line_data now (line_of line.now)) }
{
    let announced = line.announced.as_slice();
    let services = services_value(alloc, now, announced, line.air().rows())?;
    put(
        members,
        alloc,
        "minutes",
        minutes_value(alloc, minute_of(now), &line.minutes)?,
    )?;
    put(
        members,
        alloc,
        "refused",
        refused_value(alloc, &line.refused)?,
    )?;
    put(
        members,
        alloc,
        "refused_line",
        refused_line_value(alloc, &line.refused_line)?,
    )?;
    put(members, alloc, "services", services)?;
    put(members, alloc, "silent", Value::from(silent(now, line)))?;
    put(members, alloc, "since", since_value(alloc, &line.linked)?)?;
    put(members, alloc, "status", status_value(&line.linked))?;
    Ok(())
}

/// How many messages came in each of the minutes up to this one, the oldest first.
fn minutes_value(alloc: Global, newest: u64, minutes: &Minutes) -> Result<Value, AllocError>
    ensures { IfOk result (λ value. view value
        ≡ array (numbers_data (last_hour newest (minutes_of minutes.now)))) }
{
    let mut list = Vec::new(alloc);
    for place in 0..MINUTES as u64 {
        list.push(Value::from(minutes.before(newest, 59 - place)))?;
    }
    Ok(Value::Array(list))
}

/// Control lines as an array.
fn lines_value(alloc: Global, now: u64, lines: &[Line]) -> Result<Value, AllocError>
    ensures { IfOk result (λ value. view value ≡ array (lines_data now (map line_of lines.now))) }
{
    let mut list = Vec::new(alloc);
    for line in lines {
        list.push(line_value(alloc, now, line)?)?;
    }
    Ok(Value::Array(list))
}

/// For how many seconds nothing was told of a control line that is stale, or null.
fn limit_value(stale: Option<u32>) -> Value
    ensures { view result ≡ number_data stale }
{
    match stale {
        Some(limit) => Value::from(limit),
        None => Value::Null,
    }
}

/// The state as an object of the kind `state`.
fn state_value(alloc: Global, page: &Page, moment: Moment) -> Result<Value, AllocError>
    ensures { IfOk result (λ value. view value ≡ state_data moment (state_of page.now)) }
{
    let mut members = Map::new(alloc);
    put_state(alloc, page, moment, &mut members)?;
    Ok(Value::Object(members))
}

/// Puts the members of the state into an object that has none.
fn put_state(
    alloc: Global,
    page: &Page,
    moment: Moment,
    members: &mut Map<String, Value>,
) -> Result<(), AllocError>
    requires empty { members_view members.old.entries ≡ no_members }
    ensures { OnOk result (object (members_view members.new.entries) ≡ state_data moment (state_of page.now)) }
{
    put(members, alloc, "format", Value::from(1u8))?;
    put(members, alloc, "further", Value::from(page.further()))?;
    put(members, alloc, "kind", Value::try_from_str(alloc, "state")?)?;
    put(
        members,
        alloc,
        "lines",
        lines_value(alloc, moment.now, page.lines())?,
    )?;
    put(members, alloc, "others", Value::from(page.others()))?;
    put(members, alloc, "stale", limit_value(moment.stale))?;
    Ok(())
}

/// The state at this moment as an object of the kind `state`, as text with no space and no line feed.
pub fn state_text(alloc: Global, page: &Page, moment: Moment) -> Result<String, AllocError>
    ensures { IfOk result (λ text. string_bytes text ≡ compact_text (state_data moment (state_of page.now))) }
{
    let value = state_value(alloc, page, moment)?;
    value.to_string(alloc)
}
