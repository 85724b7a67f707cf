//! What is told of services (profile).
ghost use Rattle.std.specs.Prelude.{◌≡◌, ◌≤◌, ◌⊎◌, OnOk, length, map};
ghost use Rattle.serde_json.specs.View.{view};
ghost use Rattle.std.specs.List.{list_any};
ghost use Rattle.page.specs.Shown.{tells, is_in, is_main, is_meant, told_if, with_new, told_services};
ghost use Rattle.page.specs.StateView.{service_of};

use crate::state::page::SERVICES_MAX;
use crate::state::row::{Row, is_element, is_shown, is_stored};
use serde_json::Value;
use std::alloc::{AllocError, Global};

/// Whether an object tells something of a service.
pub(crate) fn tells(value: &Value) -> bool
    ensures { result ≡ tells (view value.now) }
{
    is_element(value, "pi")
        || is_element(value, "ps")
        || is_element(value, "traffic")
        || is_element(value, "pty")
        || is_element(value, "rt")
        || is_shown(value)
        || is_stored(value)
}

/// Whether one of these is of this data set.
fn has_set(rows: &[Row], set: u64) -> bool
    ensures { result ≡ list_any (λ row. is_in set (service_of row)) rows.now }
{
    rows.iter().any(|row| row.is_in(set))
}

/// Whether a service of which nothing was told before is the main one of its set: of a message the one that is meant by
/// 0, of a store the one that is listed first.
fn is_main(set: u64, service: u64, value: &Value, rows: &[Row]) -> bool
    ensures { result ≡ is_main set service (view value.now) (map service_of rows.now) }
{
    service == 0 || (is_stored(value) && !has_set(rows, set))
}

/// This is told of the services that are meant; where none is, a new one comes last, where there is room.
///
/// Errors: where memory is refused it may have been told in part.
pub(crate) fn tell_of(
    alloc: Global,
    current: u64,
    set: u64,
    service: u64,
    value: &Value,
    rows: &mut Vec<Row>,
) -> Result<(), AllocError>
    ensures { OnOk result (map service_of rows.new.items
        ≡ told_services current set service (view value.now) (map service_of rows.old.items)) }
{
    if has_meant(current, set, service, rows.as_slice()) {
        tell_each(alloc, current, set, service, value, rows)
    } else {
        tell_new(alloc, set, service, value, rows)
    }
}

/// Whether one of these is meant.
fn has_meant(current: u64, set: u64, service: u64, rows: &[Row]) -> bool
    ensures { result ≡ list_any (λ row. is_meant current set service (service_of row)) rows.now }
{
    rows.iter().any(|row| row.is_meant(current, set, service))
}

/// This is told of each that is meant.
///
/// Errors: where memory is refused it may have been told in part.
fn tell_each(
    alloc: Global,
    current: u64,
    set: u64,
    service: u64,
    value: &Value,
    rows: &mut Vec<Row>,
) -> Result<(), AllocError>
    ensures { OnOk result (map service_of rows.new.items
        ≡ map (told_if current set service (view value.now)) (map service_of rows.old.items)) }
{
    for place in 0..rows.len() {
        rows[place].tell_if(alloc, current, set, service, value)?;
    }
    Ok(())
}

/// This is told of a new one, which comes last, where there is room.
///
/// Errors: where memory is refused; nothing is told then.
fn tell_new(
    alloc: Global,
    set: u64,
    service: u64,
    value: &Value,
    rows: &mut Vec<Row>,
) -> Result<(), AllocError>
    ensures { OnOk result (map service_of rows.new.items
        ≡ with_new set service (view value.now) (map service_of rows.old.items)) }
{
    if rows.len() < SERVICES_MAX {
        let is_main = is_main(set, service, value, rows.as_slice());
        let mut row = Row::new(set, service, is_main);
        row.tell(alloc, value)?;
        rows.push(row)?;
    }
    Ok(())
}
