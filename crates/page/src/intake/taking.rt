//! The taking of lines (profile).
ghost use Rattle.std.specs.Prelude.{◌≡◌, ℕ, true, false, List, [], string_bytes, IfOk, OnErr, Ok, IsTrue, ◌↔◌};
ghost use Rattle.std.specs.Io.KnownBytes.{Consumes, Keeps, IsAtEnd};
ghost use Rattle.page.specs.StateView.{state_of};
ghost use Rattle.page.specs.Counts.{one_more};
ghost use Rattle.page.specs.ClientView.{source_of};
ghost use Rattle.page.specs.Lines.{nothing_read};
ghost use Rattle.page.specs.Intake.{board_of, Adds, TakesIn};
ghost use Rattle.page.specs.Input.{at_start, cutting_of, IntakeOf, Brings, TakesNext, TakesLast, GoesOn, Ends};

use crate::clients::Site;
use crate::events::{AddFault, History};
use crate::intake::lines::Lines;
use crate::intake::open_line::Cut;
use crate::state::{Moment, Page, Took};
use std::alloc::{AllocError, Global};
use std::io;
use std::io::Read;

/// What a line came to.
#[derive(Clone, Copy, Debug, PartialEq, Eq)]
pub enum Taken {
    /// An object of ours, which is the last event now.
    Event,
    /// An object of ours that is no event, as its text is not one line, or no number below 2^64 is left.
    Unsent,
    /// No object of ours; the number of the line, the first is 1.
    Other(u64),
}

/// What was read of an input, and what came of its lines: what is shown, the last events, how many lines came, and
/// whether one was no object of ours. Contracts see what came of the lines as [`board_of`](../specs/Intake.antt) has
/// it, and what is not yet taken as [`cutting_of`](../specs/Input.antt).
#[derive(Drop)]
pub struct Intake {
    page: Page,
    history: History,
    count: u64,
    refused: bool,
    lines: Lines,
}

impl Intake {
    /// Nothing was read yet; the first event gets this number.
    pub fn new(alloc: Global, first: u64) -> Result<Intake, AllocError>
        ensures board { IfOk result (λ intake. board_of intake ≡ at_start first) }
        ensures lines { IfOk result (λ intake. cutting_of intake ≡ nothing_read) }
        ensures begins { IfOk result (IntakeOf first []) }
    {
        Ok(Intake {
            page: Page::new(alloc),
            history: History::new(alloc, first),
            count: 0,
            refused: false,
            lines: Lines::new(alloc)?,
        })
    }

    /// Whether no more is to be taken of what was read before more is.
    pub fn is_cut(&self) -> bool
        ensures { IsTrue result ↔ ((cutting_of self.now).ahead ≡ []) }
    {
        self.lines.is_cut()
    }

    /// Makes one read, where all that was read is cut. Whether the reader is not at its end. Where a read would wait or
    /// was interrupted nothing came, and it is not at its end.
    ///
    /// Errors: those of the reader; nothing changes then.
    pub fn read<R: Read>(&mut self, reader: &mut R) -> io::Result<bool>
        requires { (cutting_of self.old).ahead ≡ [] }
        ensures read { IfOk result (λ _. (bytes : List ℕ)
            × Consumes (R.remaining reader.old) (R.remaining reader.new) bytes × Brings bytes self.old self.new
            × GoesOn bytes self.old self.new) }
        ensures ended { result ≡ Ok false → (self.new ≡ self.old) × IsAtEnd (R.remaining reader.new) }
        ensures err { OnErr result ((self.new ≡ self.old) × Keeps (R.remaining reader.old) (R.remaining reader.new)) }
    {
        self.lines.read(reader)
    }

    /// Takes the next line of what was read, once, as one that came then, by the page's clock, in milliseconds, and
    /// answers what it was; None where no line has ended. Nothing is left of a line that is too long, which is no
    /// object of ours.
    ///
    /// Errors: where memory is refused what is shown may have the line in part, and no event came of it.
    pub fn take_next(&mut self, alloc: Global, came: u64) -> Result<Option<Taken>, AllocError>
        ensures takes { IfOk result (TakesNext came self.old self.new) }
        ensures goes_on { IfOk result (λ _. GoesOn [] self.old self.new) }
        ensures err { OnErr result (((board_of self.new).past ≡ (board_of self.old).past)
            × ((board_of self.new).refused ≡ (board_of self.old).refused)) }
    {
        match self.lines.cut()? {
            Cut::Nothing => Ok(None),
            Cut::Line | Cut::TooLong => Ok(Some(self.take(alloc, came)?)),
        }
    }

    /// At the end of the input: takes the line that no line feed ends, once, as one that came then, and answers what it
    /// was; None where there is none.
    ///
    /// Errors: as those of `take_next`.
    pub fn take_last(&mut self, alloc: Global, came: u64) -> Result<Option<Taken>, AllocError>
        requires { (cutting_of self.old).ahead ≡ [] }
        ensures takes { IfOk result (TakesLast came self.old self.new) }
        ensures ends { IfOk result (λ _. Ends [] self.old self.new) }
        ensures err { OnErr result (((board_of self.new).past ≡ (board_of self.old).past)
            × ((board_of self.new).refused ≡ (board_of self.old).refused)) }
    {
        match self.lines.last() {
            Cut::Nothing => Ok(None),
            Cut::Line | Cut::TooLong => Ok(Some(self.take(alloc, came)?)),
        }
    }

    /// Takes the line that was handed out last, once, as one that came then.
    ///
    /// Errors: where memory is refused what is shown may have the line in part; it is counted, and no event came of it.
    fn take(&mut self, alloc: Global, came: u64) -> Result<Taken, AllocError>
        ensures takes { IfOk result (TakesIn (cutting_of self.old).held.line came (board_of self.old)
            (board_of self.new)) }
        ensures lines { cutting_of self.new ≡ cutting_of self.old }
        ensures count { (board_of self.new).count ≡ one_more true (board_of self.old).count }
        ensures err { OnErr result (((board_of self.new).past ≡ (board_of self.old).past)
            × ((board_of self.new).refused ≡ (board_of self.old).refused)) }
    {
        self.count = self.count.saturating_add(1);
        let line = self.lines.line();
        match self.page.take(alloc, line, came)? {
            Took::Ours(text) => add(text, &mut self.history),
            Took::Other => {
                self.refused = true;
                Ok(Taken::Other(self.count))
            }
        }
    }

    /// What is shown.
    pub fn page(&self) -> &Page
        ensures { state_of result.now ≡ (board_of self.now).shown }
    {
        &self.page
    }

    /// The last events.
    pub fn history(&self) -> &History
        ensures { result.now ≡ (board_of self.now).past }
    {
        &self.history
    }

    /// Whether a line was no object of ours.
    pub fn refused(&self) -> bool
        ensures { result ≡ (board_of self.now).refused }
    {
        self.refused
    }

    /// What a connection is answered from.
    pub fn site(&self, moment: Moment, own_only: bool, is_full: bool) -> Site<'_>
        ensures source { source_of result ≡ record {
          shown = (board_of self.now).shown;
          past = (board_of self.now).past;
          moment = moment;
          is_full = is_full;
        } }
        ensures own_only { result.own_only ≡ own_only }
    {
        Site {
            page: &self.page,
            history: &self.history,
            moment,
            own_only,
            is_full,
        }
    }
}

/// The text of an object of ours is the last event, where it may be one.
///
/// Errors: where memory is refused; nothing changes then.
fn add(text: String, history: &mut History) -> Result<Taken, AllocError>
    ensures adds { IfOk result (Adds (string_bytes text) history.old history.new) }
    ensures err { OnErr result (history.new ≡ history.old) }
{
    match history.add(text.into_bytes()) {
        Ok(()) => Ok(Taken::Event),
        Err(AddFault::NotOneLine | AddFault::NoNumber) => Ok(Taken::Unsent),
        Err(AddFault::OutOfMemory) => Err(AllocError),
    }
}
