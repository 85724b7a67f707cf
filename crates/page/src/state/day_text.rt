//! The history as JSON (profile).
ghost use Rattle.std.specs.Prelude.{◌≡◌, ◌++◌, IfOk, OnOk, map, string_bytes};
ghost use Rattle.serde_json.specs.View.{view, members_view};
ghost use Rattle.serde_json.specs.Written.{compact_text};
ghost use Rattle.serde_json.specs.Data.{array, object, no_members};
ghost use Rattle.page.specs.Changes.{is_recent};
ghost use Rattle.page.specs.HistoryTexts.{row_data, told_row, rows_data, line_history, line_histories, history_data};
ghost use Rattle.page.specs.StateView.{change_of, history_of, line_of, state_of};

use crate::state::announced::seconds_since;
use crate::state::line::Line;
use crate::state::page::Page;
use crate::state::rows::{Change, Changes};
use crate::state::texts::{flag_value, text_value};
use serde_json::{Map, Value, put};
use std::alloc::{AllocError, Global};

/// A day, in milliseconds: what came less than a day ago is told.
const DAY: u64 = 86_400_000;

/// Whether a row is told, where the page's clock says now.
fn is_recent(now: u64, change: &Change) -> bool
    ensures { result ≡ is_recent now (change_of change.now) }
{
    now.saturating_sub(change.came) < DAY
}

/// A row as an object.
fn row_value(alloc: Global, now: u64, change: &Change) -> Result<Value, AllocError>
    ensures { IfOk result (λ value. view value ≡ row_data now (change_of change.now)) }
{
    let mut members = Map::new(alloc);
    put_row(alloc, now, change, &mut members)?;
    Ok(Value::Object(members))
}

/// Puts the members of a row into an object that has none.
fn put_row(
    alloc: Global,
    now: u64,
    change: &Change,
    members: &mut Map<String, Value>,
) -> Result<(), AllocError>
    requires empty { members_view members.old.entries ≡ no_members }
    ensures { OnOk result (object (members_view members.new.entries) ≡ row_data now (change_of change.now)) }
{
    let seen = &change.seen;
    let ago = Value::from(seconds_since(now, change.came));
    put(members, alloc, "ago", ago)?;
    put(members, alloc, "rt", text_value(alloc, &seen.rt)?)?;
    put(members, alloc, "service", Value::from(seen.service))?;
    put(members, alloc, "set", Value::from(seen.set))?;
    put(members, alloc, "ta", flag_value(seen.ta))?;
    put(members, alloc, "tp", flag_value(seen.tp))?;
    Ok(())
}

/// Adds a row to a list, where it is told.
fn put_told(
    alloc: Global,
    now: u64,
    change: &Change,
    list: &mut Vec<Value>,
) -> Result<(), AllocError>
    ensures { OnOk result (map view list.new.items ≡ map view list.old.items ++ told_row now (change_of change.now)) }
{
    if is_recent(now, change) {
        list.push(row_value(alloc, now, change)?)?;
    }
    Ok(())
}

/// The rows of a control line, the oldest first.
fn rows_value(alloc: Global, now: u64, changes: &Changes) -> Result<Value, AllocError>
    ensures { IfOk result (λ value. view value ≡ array (rows_data now (history_of changes.now))) }
{
    let mut list = Vec::new(alloc);
    for place in 0..changes.rows.len() {
        put_told(alloc, now, &changes.rows[place], &mut list)?;
    }
    Ok(Value::Array(list))
}

/// The history of a control line as an object.
fn line_value(alloc: Global, now: u64, line: &Line) -> Result<Value, AllocError>
    ensures { IfOk result (λ value. view value ≡ line_history now (line_of line.now)) }
{
    let mut members = Map::new(alloc);
    let list = &mut members;
    let name = Value::try_from_str(alloc, line.name.as_str())?;
    put(list, alloc, "line", name)?;
    put(list, alloc, "rows", rows_value(alloc, now, &line.changes)?)?;
    Ok(Value::Object(members))
}

/// Those of control lines as an array.
fn lines_value(alloc: Global, now: u64, lines: &[Line]) -> Result<Value, AllocError>
    ensures { IfOk result (λ value. view value ≡ array (line_histories now (map line_of lines.now))) }
{
    let mut list = Vec::new(alloc);
    for line in lines {
        list.push(line_value(alloc, now, line)?)?;
    }
    Ok(Value::Array(list))
}

/// All of them as an object of the kind `history`.
fn history_value(alloc: Global, page: &Page, now: u64) -> Result<Value, AllocError>
    ensures { IfOk result (λ value. view value ≡ history_data now (state_of page.now)) }
{
    let mut members = Map::new(alloc);
    let list = &mut members;
    put(list, alloc, "format", Value::from(1u8))?;
    put(list, alloc, "kind", Value::try_from_str(alloc, "history")?)?;
    put(list, alloc, "lines", lines_value(alloc, now, page.lines())?)?;
    Ok(Value::Object(members))
}

/// The histories of all control lines, where the page's clock says now, as an object of the kind `history`: text with
/// no space and no line feed.
pub fn history_text(alloc: Global, page: &Page, now: u64) -> Result<String, AllocError>
    ensures { IfOk result (λ text. string_bytes text ≡ compact_text (history_data now (state_of page.now))) }
{
    let value = history_value(alloc, page, now)?;
    value.to_string(alloc)
}
