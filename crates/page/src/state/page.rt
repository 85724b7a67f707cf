//! What is shown: a card for each control line, a fold of the objects that come (profile).
ghost use Rattle.std.specs.Prelude.{◌≡◌, ◌++◌, ◌∷◌, [], IfOk, OnOk, map};
ghost use Rattle.serde_json.specs.View.{view};
ghost use Rattle.page.specs.StateView.{state_of, line_of};
ghost use Rattle.page.specs.Members.{name_of};
ghost use Rattle.page.specs.ControlLine.{new_line, line_after};
ghost use Rattle.page.specs.State.{at_first, after, after_other, told_in};
ghost use Rattle.page.specs.Taking.{Takes};

use crate::state::counts::{add, is_told};
use crate::state::line::Line;
use crate::state::members::{is_ours, name_of};
use serde_json::Value;
use std::alloc::{AllocError, Global};

/// How many services are kept of a control line: 8 of each of 8 data sets, and as many more under the numbers that
/// stand for several.
pub const SERVICES_MAX: usize = 128;

/// How many control lines are kept.
pub const LINES_MAX: usize = 128;

/// What a line was.
#[derive(Debug, Drop)]
pub enum Took {
    /// An object of ours; this is its text, written anew.
    Ours(String),
    /// Another line.
    Other,
}

/// What is shown, and what was counted. Contracts see it as [`state_of`](../specs/StateView.antt) has it.
#[derive(Drop)]
pub struct Page {
    lines: Vec<Line>,
    others: u64,
    further: u64,
    messages: u64,
}

impl Page {
    /// Nothing came yet.
    pub fn new(alloc: Global) -> Page
        ensures { state_of result ≡ at_first }
    {
        Page {
            lines: Vec::new(alloc),
            others: 0,
            further: 0,
            messages: 0,
        }
    }

    /// Takes a line, with or without its line feed, that came then, by the page's clock, in milliseconds. A line that
    /// is an object of JSON with our `format` and a `kind` is taken as that; another is counted, and changes nothing
    /// else.
    ///
    /// Errors: where memory is refused the line may have been taken in part.
    pub fn take(&mut self, alloc: Global, line: &[u8], came: u64) -> Result<Took, AllocError>
        ensures { IfOk result (Takes line.now came (state_of self.old) (state_of self.new)) }
    {
        let value = match Value::from_slice(alloc, line) {
            Ok(value) => value,
            Err(error) if error.is_memory() => return Err(AllocError),
            Err(_) => {
                self.pass_over();
                return Ok(Took::Other);
            }
        };
        if !is_ours(&value) {
            self.pass_over();
            return Ok(Took::Other);
        }
        let text = value.to_string(alloc)?;
        self.take_object(alloc, value, came)?;
        Ok(Took::Ours(text))
    }

    /// Counts a line that is no object of ours.
    fn pass_over(&mut self)
        ensures { state_of self.new ≡ after_other (state_of self.old) }
    {
        add(true, &mut self.others);
    }

    /// Takes an object of ours that came then: by the control line that it names. A new one comes last, where there is
    /// room; else the object is counted, and changes nothing else.
    ///
    /// Errors: where memory is refused it may have been taken in part.
    pub fn take_object(&mut self, alloc: Global, value: Value, came: u64) -> Result<(), AllocError>
        ensures { OnOk result (state_of self.new ≡ after (record {
          object = view value;
          came = came;
        }) (state_of self.old)) }
    {
        add(is_told(&value), &mut self.messages);
        self.tell(alloc, value, came)
    }

    /// An object is told of the control line that it names; or it is of a further one.
    ///
    /// Errors: where memory is refused it may have been told in part.
    fn tell(&mut self, alloc: Global, value: Value, came: u64) -> Result<(), AllocError>
        ensures { OnOk result (state_of self.new ≡ told_in (record {
          object = view value;
          came = came;
        }) (state_of self.old)) }
    {
        for place in 0..self.lines.len() {
            if self.lines[place].is_named(name_of(&value)) {
                return self.lines[place].take(alloc, value, came);
            }
        }
        if self.lines.len() < LINES_MAX {
            return self.begin(alloc, value, came);
        }
        add(true, &mut self.further);
        Ok(())
    }

    /// Takes an object of a control line that is new.
    ///
    /// Errors: where memory is refused it may have been taken in part.
    fn begin(&mut self, alloc: Global, value: Value, came: u64) -> Result<(), AllocError>
        ensures { OnOk result (state_of self.new ≡ record (state_of self.old) {
          lines = (state_of self.old).lines
              ++ line_after (record { object = view value; came = came }) (new_line (name_of (view value))) ∷ [];
        }) }
    {
        let name = String::from_str(alloc, name_of(&value))?;
        let mut line = Line::new(alloc, name);
        line.take(alloc, value, came)?;
        self.lines.push(line)?;
        Ok(())
    }

    /// The control lines, in the order in which something was first told of them.
    pub(crate) fn lines(&self) -> &[Line]
        ensures { map line_of result.now ≡ (state_of self.now).lines }
    {
        self.lines.as_slice()
    }

    /// How many messages were told, of whatever control line, and by whichever end.
    pub fn messages(&self) -> u64
        ensures { result ≡ (state_of self.now).messages }
    {
        self.messages
    }

    /// How many lines of input were no object of ours.
    pub(crate) fn others(&self) -> u64
        ensures { result ≡ (state_of self.now).others }
    {
        self.others
    }

    /// How many objects were of a further control line, which are shown nowhere.
    pub(crate) fn further(&self) -> u64
        ensures { result ≡ (state_of self.now).further }
    {
        self.further
    }
}
