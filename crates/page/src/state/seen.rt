//! What the history of a control line tells of its services (profile).
ghost use Rattle.std.specs.Prelude.{◌≡◌, IfOk, map, option_map, string_bytes};
ghost use Rattle.std.specs.List.{list_any};
ghost use Rattle.page.specs.Seen.{seen, unseen, is_of, is_same, is_nothing, same_text, same_flag, kept_text};
ghost use Rattle.page.specs.Changes.{has_it, was_so};
ghost use Rattle.page.specs.StateView.{service_of, seen_of};

use crate::state::row::Row;
use std::alloc::{AllocError, Global};

/// How many bytes a RadioText has at most: 64 characters. A longer text the history does not tell.
const TEXT_MAX: usize = 256;

/// Of a service of a data set what the history tells, as it is shown; None of what is not.
#[derive(Drop)]
pub(crate) struct Seen {
    /// The data set's number.
    pub(crate) set: u64,
    /// The programme service's number.
    pub(crate) service: u64,
    /// What the RadioText says.
    pub(crate) rt: Option<String>,
    /// Whether it has traffic announcements.
    pub(crate) tp: Option<bool>,
    /// Whether one is on the air.
    pub(crate) ta: Option<bool>,
}

impl Seen {
    /// What is told of a service that is shown so.
    fn of(alloc: Global, row: &Row) -> Result<Seen, AllocError>
        ensures { IfOk result (λ one. seen_of one ≡ seen (service_of row.now)) }
    {
        Ok(Seen {
            set: row.set,
            service: row.service,
            rt: kept_text(alloc, &row.rt)?,
            tp: row.tp,
            ta: row.ta,
        })
    }

    /// Nothing is shown of it.
    pub(crate) fn none(set: u64, service: u64) -> Seen
        ensures { seen_of result ≡ unseen set service }
    {
        Seen {
            set,
            service,
            rt: None,
            tp: None,
            ta: None,
        }
    }

    /// The same once more.
    pub(crate) fn copy(&self, alloc: Global) -> Result<Seen, AllocError>
        ensures { IfOk result (λ one. seen_of one ≡ seen_of self.now) }
    {
        Ok(Seen {
            set: self.set,
            service: self.service,
            rt: copy_of(alloc, &self.rt)?,
            tp: self.tp,
            ta: self.ta,
        })
    }

    /// Whether it is of this service of this data set.
    pub(crate) fn is_of(&self, set: u64, service: u64) -> bool
        ensures { result ≡ is_of set service (seen_of self.now) }
    {
        self.set == set && self.service == service
    }

    /// Whether the same is shown of the same service.
    pub(crate) fn is_same(&self, other: &Seen) -> bool
        ensures { result ≡ is_same (seen_of self.now) (seen_of other.now) }
    {
        other.is_of(self.set, self.service)
            && is_same_text(&self.rt, &other.rt)
            && is_same_flag(self.tp, other.tp)
            && is_same_flag(self.ta, other.ta)
    }

    /// Whether nothing is shown of it.
    pub(crate) fn is_nothing(&self) -> bool
        ensures { result ≡ is_nothing (seen_of self.now) }
    {
        Seen::none(self.set, self.service).is_same(self)
    }
}

/// A text that a RadioText may be.
fn kept_text(alloc: Global, text: &Option<String>) -> Result<Option<String>, AllocError>
    ensures { IfOk result (λ kept. option_map string_bytes kept ≡ kept_text (option_map string_bytes text.now)) }
{
    match text {
        Some(text) => fitting(alloc, text.as_str()),
        None => Ok(None),
    }
}

/// A copy of a text, where a RadioText may be as long.
fn fitting(alloc: Global, text: &str) -> Result<Option<String>, AllocError>
    ensures { IfOk result (λ kept. option_map string_bytes kept ≡ kept_text (Some text.now)) }
{
    if text.len() <= TEXT_MAX {
        Ok(Some(String::from_str(alloc, text)?))
    } else {
        Ok(None)
    }
}

/// A copy of a text that is kept.
fn copy_of(alloc: Global, text: &Option<String>) -> Result<Option<String>, AllocError>
    ensures { IfOk result (λ copy. option_map string_bytes copy ≡ option_map string_bytes text.now) }
{
    match text {
        Some(text) => Ok(Some(String::from_str(alloc, text.as_str())?)),
        None => Ok(None),
    }
}

/// Whether two texts are the same, or none.
fn is_same_text(one: &Option<String>, other: &Option<String>) -> bool
    ensures { result ≡ same_text (option_map string_bytes one.now) (option_map string_bytes other.now) }
{
    match (one, other) {
        (Some(one), Some(other)) => one.as_str() == other.as_str(),
        (None, None) => true,
        _ => false,
    }
}

/// Whether two truth values are the same, or none.
fn is_same_flag(one: Option<bool>, other: Option<bool>) -> bool
    ensures { result ≡ same_flag one other }
{
    match (one, other) {
        (Some(one), Some(other)) => one == other,
        (None, None) => true,
        _ => false,
    }
}

/// What is told of each service that is shown so.
pub(crate) fn each_seen(alloc: Global, rows: &[Row]) -> Result<Vec<Seen>, AllocError>
    ensures { IfOk result (λ list. map seen_of list.items ≡ map seen (map service_of rows.now)) }
{
    let mut list = Vec::new(alloc);
    for row in rows {
        list.push(Seen::of(alloc, row)?)?;
    }
    Ok(list)
}

/// Whether one of these is of this service.
pub(crate) fn has_it(list: &[Seen], set: u64, service: u64) -> bool
    ensures { result ≡ has_it set service (map seen_of list.now) }
{
    any_of(list, set, service)
}

/// The same, by each as it is kept.
fn any_of(list: &[Seen], set: u64, service: u64) -> bool
    ensures { result ≡ list_any (λ one. is_of set service (seen_of one)) list.now }
{
    list.iter().any(|one| one.is_of(set, service))
}

/// Whether the same is shown among these of the same service.
fn has_same(list: &[Seen], seen: &Seen) -> bool
    ensures { result ≡ list_any (is_same (seen_of seen.now)) (map seen_of list.now) }
{
    any_same(list, seen)
}

/// The same, by each as it is kept.
fn any_same(list: &[Seen], seen: &Seen) -> bool
    ensures { result ≡ list_any (λ one. is_same (seen_of seen.now) (seen_of one)) list.now }
{
    list.iter().any(|one| seen.is_same(one))
}

/// Whether the same was shown of it before: so it stands among these, or it is none of them, and nothing is shown.
pub(crate) fn was_so(before: &[Seen], seen: &Seen) -> bool
    ensures { result ≡ was_so (map seen_of before.now) (seen_of seen.now) }
{
    has_same(before, seen) || (seen.is_nothing() && !has_it(before, seen.set, seen.service))
}
