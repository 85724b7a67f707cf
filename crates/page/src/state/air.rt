//! What is on the air of a control line, by what its ends tell (profile).
ghost use Rattle.std.specs.Prelude.{◌≡◌, OnOk, None, [], map};
ghost use Rattle.serde_json.specs.View.{view};
ghost use Rattle.page.specs.StateView.{air_of, service_of};
ghost use Rattle.page.specs.Air.{no_air, air_after, after_answer, after_message, after_telling};
ghost use Rattle.page.specs.Answered.{is_acknowledged, is_in_doubt, answered_after};

use crate::state::counts::{is_kind, is_sent};
use crate::state::members::{number_at, number_or_0, says};
use crate::state::row::{Row, is_element, is_shown, is_stored};
use crate::state::services::{tell_of, tells};
use serde_json::Value;
use std::alloc::{AllocError, Global};

/// What is on the air of a control line.
#[derive(Drop)]
pub(crate) struct Air {
    current: u64,
    rows: Vec<Row>,
    answers: bool,
    frame: Option<Value>,
}

impl Air {
    /// Nothing was told yet.
    pub(crate) fn new(alloc: Global) -> Air
        ensures { air_of result ≡ no_air }
    {
        Air {
            current: 0,
            rows: Vec::new(alloc),
            answers: false,
            frame: None,
        }
    }

    /// Takes an object of the line.
    ///
    /// Errors: where memory is refused it may have been taken in part.
    pub(crate) fn take(&mut self, alloc: Global, value: Value) -> Result<(), AllocError>
        ensures { OnOk result (air_of self.new ≡ air_after (view value) (air_of self.old)) }
    {
        if is_kind(&value, "frame") {
            if self.answers {
                self.frame = Some(value);
                return Ok(());
            }
            return self.apply(alloc, &value);
        }
        if is_kind(&value, "answered") {
            return self.answer(alloc, &value);
        }
        if is_kind(&value, "connection") {
            self.answers = true;
            self.frame = None;
            return Ok(());
        }
        if is_kind(&value, "store") {
            self.clear(number_or_0(&value, "current"));
            return Ok(());
        }
        if is_shown(&value) || is_stored(&value) {
            return self.tell(alloc, &value);
        }
        Ok(())
    }

    /// A store is told: what was told before is gone, and its services follow.
    fn clear(&mut self, current: u64)
        ensures { air_of self.new ≡ record (air_of self.old) { current = current; services = []; frame = None } }
    {
        self.current = current;
        self.rows.clear();
        self.frame = None;
    }

    /// The frame that waits was answered: it is shown where it was applied, and waits no more.
    fn answer(&mut self, alloc: Global, value: &Value) -> Result<(), AllocError>
        ensures { OnOk result (air_of self.new ≡ after_answer (view value.now) (air_of self.old)) }
    {
        let frame = self.frame.take();
        if !says(value, "answer", "new") || !says(value, "code", "00") {
            return Ok(());
        }
        match frame {
            Some(frame) => self.apply(alloc, &frame),
            None => Ok(()),
        }
    }

    /// Shows what the elements of a message tell, in order.
    fn apply(&mut self, alloc: Global, value: &Value) -> Result<(), AllocError>
        ensures { OnOk result (air_of self.new ≡ after_message (view value.now) (air_of self.old)) }
    {
        let Some(elements) = value.get("elements").and_then(Value::as_array) else {
            return Ok(());
        };
        for element in elements {
            self.tell(alloc, element)?;
        }
        Ok(())
    }

    /// Shows what an element tells, or a receiver.
    fn tell(&mut self, alloc: Global, value: &Value) -> Result<(), AllocError>
        ensures { OnOk result (air_of self.new ≡ after_telling (view value.now) (air_of self.old)) }
    {
        if is_element(value, "select") {
            self.current = number_at(value, "set").unwrap_or(self.current);
            return Ok(());
        }
        if !tells(value) {
            return Ok(());
        }
        let named = number_or_0(value, "set");
        let set = if named == 0 { self.current } else { named };
        tell_of(
            alloc,
            self.current,
            set,
            number_or_0(value, "service"),
            value,
            &mut self.rows,
        )
    }

    /// Takes an object of the line as its studio was answered.
    ///
    /// Errors: where memory is refused it may have been taken in part.
    pub(crate) fn take_answer(&mut self, alloc: Global, value: &Value) -> Result<(), AllocError>
        ensures { OnOk result (air_of self.new ≡ answered_after (view value.now) (air_of self.old)) }
    {
        if is_in_doubt(value) {
            self.forget();
            return Ok(());
        }
        if is_acknowledged(value) {
            return self.apply(alloc, value);
        }
        Ok(())
    }

    /// Nothing is known any more.
    fn forget(&mut self)
        ensures { air_of self.new ≡ no_air }
    {
        self.answers = false;
        self.clear(0);
    }

    /// What each service has, in the order in which they came.
    pub(crate) fn rows(&self) -> &[Row]
        ensures { map service_of result.now ≡ (air_of self.now).services }
    {
        self.rows.as_slice()
    }

    /// The data set that was selected, 0 before.
    pub(crate) fn current(&self) -> u64
        ensures { result ≡ (air_of self.now).current }
    {
        self.current
    }
}

/// Whether the encoder answered a message of the studio's with 00.
fn is_acknowledged(value: &Value) -> bool
    ensures { result ≡ is_acknowledged (view value.now) }
{
    is_sent(value) && says(value, "code", "00")
}

/// Whether it is not known any more what the encoder has.
fn is_in_doubt(value: &Value) -> bool
    ensures { result ≡ is_in_doubt (view value.now) }
{
    is_kind(value, "joined") || is_kind(value, "unknown") || is_kind(value, "given_up")
}
