//! Lines as they come, and what was taken of them. Source: profile.
ghost use Rattle.std.specs.Prelude.{◌≡◌, ◌≤◌, [], false, length};
ghost use Rattle.sending.specs.Hands.{Taking};
ghost use Rattle.sending.specs.Sources.{FromFeed};
ghost use Rattle.sending.specs.Run.{EndsAs, tally_status};

use crate::source::Source;
use kept_jobs::{KeptStop, fail_run};
use line_batches::{After, Input, Reading, Tally, take_batch};
use line_feed::Feed;
use notices::NoticesTo;
use std::alloc::Global;
use std::io::Write;
use std::marker::Model;
use titles::Titles;
use uecp_frame::Message;

/// Lines as they come, what was taken of them so far, and where it is told of those that are refused. Contracts see it
/// as one value, `Taking`.
#[derive(Drop)]
pub(crate) struct Intake<'a, F: Feed, E: Write> {
    alloc: Global,
    input: Input<'a>,
    strict: bool,
    feed: &'a mut F,
    errors: &'a mut NoticesTo<E>,
    tally: Tally,
    line: Vec<u8>,
    batch: Vec<Message>,
}

impl<'a, F: Feed, E: Write> Model for Intake<'a, F, E> {
    ghost use Rattle.sending.specs.Hands.{Taking};

    ghost Value = { Taking F };

    ghost view = { λ i. record {
      input = i.input;
      strict = i.strict;
      at = record {
        feed = i.feed.now;
        lines = i.tally.lines;
        refused = i.tally.refused;
        said = i.errors.now;
      };
      batch = i.batch.items;
      feed = i.feed.ghost_name;
      errors = i.errors.ghost_name;
    } };
}

impl<'a, F: Feed, E: Write> Intake<'a, F, E> {
    /// The lines of this feed, of which none was taken, counted behind so many.
    pub(crate) fn new(
        alloc: Global,
        reading: &'a Reading<'_>,
        lines_before: usize,
        feed: &'a mut F,
        errors: &'a mut NoticesTo<E>,
    ) -> Intake<'a, F, E>
        ensures { result ≡ record {
          input = reading.now.input;
          strict = reading.now.strict;
          at = record {
            feed = feed.old;
            lines = lines_before;
            refused = false;
            said = errors.old;
          };
          batch = [];
          feed = feed.entry.ghost_name;
          errors = errors.entry.ghost_name;
        } }
    {
        Intake {
            alloc,
            input: lent_input(&reading.input),
            strict: reading.strict,
            feed,
            errors,
            tally: Tally {
                lines: lines_before,
                refused: false,
            },
            line: Vec::new(alloc),
            batch: Vec::new(alloc),
        }
    }

    /// Answers the exit status of a run that went so, of whose messages all that were told were applied or not: 0 they
    /// were, 1 a line was refused, 4 they were not; or 3 or 2 where it stopped, and why is told.
    pub(crate) fn end(&mut self, ran: Result<(), KeptStop>, applied: bool) -> u8
        ensures ends { EndsAs ran applied self.old.at.refused self.old.at.said self.new.at.said result }
        ensures stands { self.new.at.feed ≡ self.old.at.feed }
        ensures feed { self.new.feed ≡ self.old.feed }
        ensures errors { self.new.errors ≡ self.old.errors }
    {
        match ran {
            Ok(()) => status_of(self.tally.refused, applied),
            Err(stop) => fail_run(&stop, self.errors),
        }
    }

    /// What was lent, apart: the feed, and where refused lines are told.
    pub(crate) fn finish(self) -> (LentFeed<'a, F>, LentErrors<'a, E>)
        ensures feed { result.0 ≡ record { feed = self.entry.at.feed; loan = self.entry.feed } }
        ensures errors { result.1 ≡ record { said = self.entry.at.said; loan = self.entry.errors } }
    {
        let Intake {
            alloc: _,
            input: _,
            strict: _,
            feed,
            errors,
            tally: _,
            line: _,
            batch: _,
        } = self;
        (LentFeed { feed }, LentErrors { errors })
    }
}

impl<'a, F: Feed, E: Write> Source for Intake<'a, F, E> {
    ghost use Rattle.line_batches.specs.declared.intake.Input.{Input as AnyInput};
    ghost use Rattle.line_batches.specs.Intake.{FeedIntake};
    ghost use Rattle.sending.specs.Sources.{FromFeed};
    ghost use Rattle.std.specs.Prelude.{Bool, [], ◌∷◌};

    ghost At = { FeedIntake F };

    ghost at = { λ i. i.at };

    ghost How = { AnyInput × Bool };

    ghost how = { λ i. (i.input, i.strict) };

    ghost takes = { λ how. FromFeed F.remaining F.takes F.says F.passes how.0 how.1 };

    ghost taken = { λ i. i.batch };

    ghost lent = { λ i. i.feed ∷ i.errors ∷ [] };

    /// It waits for the first line, and then takes those that are there.
    fn take(&mut self, size: usize) -> After {
        let reading = Reading {
            input: self.input,
            size,
            strict: self.strict,
        };
        self.batch = Vec::new(self.alloc);
        take_batch(
            self.alloc,
            &reading,
            self.feed,
            &mut self.line,
            self.errors,
            &mut self.tally,
            &mut self.batch,
        )
    }

    fn batch(&self) -> &[Message] {
        self.batch.as_slice()
    }
}

/// The same input, as long as it is lent.
fn lent_input<'a>(input: &'a Input<'_>) -> Input<'a>
    ensures { result ≡ input.now }
{
    match input {
        Input::Phrases(region) => Input::Phrases(*region),
        Input::Fitted(region) => Input::Fitted(*region),
        Input::Titles(titles) => Input::Titles(Titles {
            prefix: titles.prefix,
            service: titles.service,
            fit: titles.fit,
        }),
    }
}

/// A feed that was lent. Contracts see it as one value, `Fed`.
#[derive(Drop)]
pub(crate) struct LentFeed<'a, F: Feed> {
    feed: &'a mut F,
}

impl<'a, F: Feed> Model for LentFeed<'a, F> {
    ghost use Rattle.sending.specs.Hands.{Fed};

    ghost Value = { Fed F };

    ghost view = { λ f. record { feed = f.feed.now; loan = f.feed.ghost_name } };
}

impl<'a, F: Feed> LentFeed<'a, F> {
    /// It itself.
    pub(crate) fn finish(self) -> &'a mut F
        ensures same { result.ghost_name ≡ self.entry.loan }
        ensures stands { result.now ≡ self.entry.feed }
    {
        let LentFeed { feed } = self;
        feed
    }
}

/// A writer of errors that was lent. Contracts see it as one value, `Said`.
#[derive(Drop)]
pub(crate) struct LentErrors<'a, E: Write> {
    errors: &'a mut NoticesTo<E>,
}

impl<'a, E: Write> Model for LentErrors<'a, E> {
    ghost use Rattle.sending.specs.Hands.{Said};

    ghost Value = { Said };

    ghost view = { λ e. record { said = e.errors.now; loan = e.errors.ghost_name } };
}

impl<'a, E: Write> LentErrors<'a, E> {
    /// It itself.
    pub(crate) fn finish(self) -> &'a mut NoticesTo<E>
        ensures same { result.ghost_name ≡ self.entry.loan }
        ensures said { result.now ≡ self.entry.said }
    {
        let LentErrors { errors } = self;
        errors
    }
}

/// The exit status of a run that came to the end of its input.
fn status_of(refused: bool, applied: bool) -> u8
    ensures { result ≡ tally_status refused applied }
{
    if refused {
        1
    } else if applied {
        0
    } else {
        4
    }
}
