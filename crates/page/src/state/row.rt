//! What was told last of a service of a data set (profile).
ghost use Rattle.std.specs.Prelude.{◌≡◌, OnOk, IfOk, option_map, option_and_then, string_bytes, codes};
ghost use Rattle.serde_json.specs.View.{view, items_view};
ghost use Rattle.page.specs.Members.{text_at};
ghost use Rattle.page.specs.Shown.{new_service, is_element, names_set, is_meant, is_in, is_shown, is_stored, told};
ghost use Rattle.page.specs.Shown.{all_told};
ghost use Rattle.page.specs.Shown.{told_if, element_text, shown_text, stored_text, last_item};
ghost use Rattle.page.specs.StateView.{service_of};

use crate::state::members::{flag_at, number_at, says, text_at};
use serde_json::Value;
use std::alloc::{AllocError, Global};

/// The number that means all data sets (SPB 490, DSN).
const ALL_SETS: u64 = 255;

/// The number that means all but the current one.
const OTHER_SETS: u64 = 254;

/// What was told last of a service of a data set. None of what was not told, or is shown no more.
#[derive(Drop)]
pub(crate) struct Row {
    /// The data set's number.
    pub(crate) set: u64,
    /// The programme service's number; 0 of a main one whose number was not told.
    pub(crate) service: u64,
    /// Whether it is the main one of the set.
    pub(crate) is_main: bool,
    /// The PI, four hexadecimal digits.
    pub(crate) pi: Option<String>,
    /// What the name says.
    pub(crate) name: Option<String>,
    /// What the RadioText says.
    pub(crate) rt: Option<String>,
    /// Whether it has traffic announcements.
    pub(crate) tp: Option<bool>,
    /// Whether one is on the air.
    pub(crate) ta: Option<bool>,
    /// The programme type.
    pub(crate) pty: Option<u64>,
}

impl Row {
    /// Nothing was told of it yet.
    pub(crate) fn new(set: u64, service: u64, is_main: bool) -> Row
        ensures { service_of result ≡ new_service set service is_main }
    {
        Row {
            set,
            service,
            is_main,
            pi: None,
            name: None,
            rt: None,
            tp: None,
            ta: None,
            pty: None,
        }
    }

    /// Whether it is of this data set.
    pub(crate) fn is_in(&self, set: u64) -> bool
        ensures { result ≡ is_in set (service_of self.now) }
    {
        self.set == set
    }

    /// Whether it is meant: in a data set that is, by its number, or the main one by 0.
    pub(crate) fn is_meant(&self, current: u64, set: u64, service: u64) -> bool
        ensures { result ≡ is_meant current set service (service_of self.now) }
    {
        names_set(current, set, self.set)
            && (self.service == service || (service == 0 && self.is_main))
    }

    /// This is told of it, if it is meant.
    ///
    /// Errors: where memory is refused it may have been told in part.
    pub(crate) fn tell_if(
        &mut self,
        alloc: Global,
        current: u64,
        set: u64,
        service: u64,
        value: &Value,
    ) -> Result<(), AllocError>
        ensures { OnOk result (service_of self.new
            ≡ told_if current set service (view value.now) (service_of self.old)) }
    {
        if self.is_meant(current, set, service) {
            return self.tell(alloc, value);
        }
        Ok(())
    }

    /// This is told of it.
    ///
    /// Errors: where memory is refused it may have been told in part.
    pub(crate) fn tell(&mut self, alloc: Global, value: &Value) -> Result<(), AllocError>
        ensures { OnOk result (service_of self.new ≡ told (view value.now) (service_of self.old)) }
    {
        if is_element(value, "pi") {
            self.pi = text_at(alloc, value, "pi")?;
        } else if is_element(value, "ps") {
            self.name = text_at(alloc, value, "text")?;
        } else if is_element(value, "traffic") {
            self.tp = flag_at(value, "tp");
            self.ta = flag_at(value, "ta");
        } else if is_element(value, "pty") {
            self.pty = number_at(value, "type");
        } else if is_element(value, "rt") {
            self.rt = element_text(alloc, value)?;
        } else if is_shown(value) {
            let rt = shown_text(alloc, value)?;
            self.show(alloc, rt, value)?;
        } else if is_stored(value) {
            let rt = stored_text(alloc, value)?;
            self.show(alloc, rt, value)?;
        }
        Ok(())
    }

    /// All is told of it, with this RadioText.
    ///
    /// Errors: where memory is refused it may have been told in part.
    fn show(&mut self, alloc: Global, rt: Option<String>, value: &Value) -> Result<(), AllocError>
        ensures { OnOk result (service_of self.new
            ≡ all_told (option_map string_bytes rt) (view value.now) (service_of self.old)) }
    {
        self.pi = text_at(alloc, value, "pi")?;
        self.name = text_at(alloc, value, "text")?;
        self.rt = rt;
        self.tp = flag_at(value, "tp");
        self.ta = flag_at(value, "ta");
        self.pty = number_at(value, "type");
        Ok(())
    }
}

/// Whether a data set is meant by this number: 255 means all, and 254 all but the current one.
fn names_set(current: u64, set: u64, one: u64) -> bool
    ensures { result ≡ names_set current set one }
{
    set == one || (set == ALL_SETS || (set == OTHER_SETS && !(one == current)))
}

/// Whether an object tells what a receiver shows.
pub(crate) fn is_shown(value: &Value) -> bool
    ensures { result ≡ is_shown (view value.now) }
{
    says(value, "kind", "shown")
}

/// Whether an object tells what a store has of a service.
pub(crate) fn is_stored(value: &Value) -> bool
    ensures { result ≡ is_stored (view value.now) }
{
    says(value, "kind", "service")
}

/// The RadioText that a receiver shows.
fn shown_text(alloc: Global, value: &Value) -> Result<Option<String>, AllocError>
    ensures { IfOk result (λ text. option_map string_bytes text ≡ shown_text (view value.now)) }
{
    match value.get("rt") {
        Some(rt) => text_at(alloc, rt, "text"),
        None => Ok(None),
    }
}

/// The RadioText that a store has: the last of its texts.
fn stored_text(alloc: Global, value: &Value) -> Result<Option<String>, AllocError>
    ensures { IfOk result (λ text. option_map string_bytes text ≡ stored_text (view value.now)) }
{
    match value.get("texts").and_then(Value::as_array) {
        Some(texts) => last_text(alloc, texts.as_slice()),
        None => Ok(None),
    }
}

/// What the last of these says.
fn last_text(alloc: Global, texts: &[Value]) -> Result<Option<String>, AllocError>
    ensures { IfOk result (λ text. option_map string_bytes text
        ≡ option_and_then (text_at (codes "text")) (last_item (items_view texts.now))) }
{
    match texts.last() {
        Some(text) => text_at(alloc, text, "text"),
        None => Ok(None),
    }
}

/// Whether an object is this element of a message.
pub(crate) fn is_element(value: &Value, name: &str) -> bool
    ensures { result ≡ is_element name.now (view value.now) }
{
    says(value, "element", name)
}

/// What an element says of RadioText: an empty one where it is cleared, else its text.
fn element_text(alloc: Global, value: &Value) -> Result<Option<String>, AllocError>
    ensures { IfOk result (λ text. option_map string_bytes text ≡ element_text (view value.now)) }
{
    if flag_at(value, "clear") == Some(true) {
        return Ok(Some(String::new(alloc)));
    }
    text_at(alloc, value, "text")
}
