//! Who is told what comes of messages. Source: profile.
ghost use Rattle.std.specs.Prelude.{◌≡◌, ◌<◌, ◌+◌, ◌-◌, ◌^◌, [], length, List, ℕ, IsTrue, Ok, Err, codes};
ghost use Rattle.uecp_jobs.specs.Batches.{fault_of};
ghost use Rattle.kept_jobs.specs.declared.stop.KeptStop.TheVariants.{Run};
ghost use Rattle.kept_jobs.specs.Stops.{TellsKept};
ghost use Rattle.sending.specs.Accounts.{AreHeld, OutstandingTold};
ghost use Rattle.sending.specs.Forms.{taken_in, given_up_in, not_joined_in, unknown_in};
ghost use Rattle.sending.specs.Hands.{Telling};
ghost use Rattle.sending.specs.Run.{AnswersTold, RepliesOf};
ghost use Rattle.sending.specs.Station.{JoinedTold};

use crate::account::Account;
use crate::batches::{put_held_by, put_replies_by};
use crate::forms::{put_given_up_in, put_not_joined_in, put_taken_in, put_unknown_in};
use crate::sent::Sent;
use crate::timing::now;
use kept_jobs::{KeptStop, stop_for, write_told};
use output_forms::Form;
use std::alloc::Global;
use std::io::Write;
use std::marker::Model;
use std::time::Clock;
use uecp_jobs::fault_of;
use uecp_link::ServerCounts;
use uecp_net::{KeptOutstanding, Outstanding, Settled};
use uecp_text::Output;

/// Who is told what comes of messages: where that is written, and the clock of its times. Contracts see it as one
/// value, `Telling`.
#[derive(Drop)]
pub struct Teller<'a, W: Write, T: Clock> {
    alloc: Global,
    clock: &'a T,
    writer: &'a mut W,
}

impl<'a, W: Write, T: Clock> Model for Teller<'a, W, T> {
    ghost use Rattle.sending.specs.Hands.{Telling};

    ghost Value = { Telling };

    ghost view = { λ t. record {
      held = W.contents t.writer.now;
      writer = t.writer.ghost_name;
    } };
}

impl<'a, W: Write, T: Clock> Teller<'a, W, T> {
    /// What is told goes to this writer, with times of this clock.
    pub fn new(alloc: Global, clock: &'a T, writer: &'a mut W) -> Teller<'a, W, T>
        ensures { result ≡ record { held = W.contents writer.old; writer = writer.entry.ghost_name } }
    {
        Teller {
            alloc,
            clock,
            writer,
        }
    }

    /// The writer back.
    pub fn finish(self) -> &'a mut W
        ensures same { result.ghost_name ≡ self.entry.writer }
        ensures held { W.contents result.now ≡ self.entry.held }
    {
        let Teller {
            alloc: _,
            clock: _,
            writer,
        } = self;
        writer
    }

    /// Where memory comes from.
    pub fn alloc(&self) -> Global {
        self.alloc
    }

    /// The milliseconds of its clock; 0 where that tells no time.
    pub(crate) fn now(&self) -> u64 {
        now(self.clock)
    }

    /// Tells how many messages were taken since the state was made, and how many of them wait.
    pub(crate) fn tell_taken(
        &mut self,
        form: Form,
        taken: u64,
        outstanding: usize,
    ) -> Result<(), KeptStop>
        ensures tells { TellsKept (taken_in form taken outstanding) (Ok tt) self.old.held self.new.held result }
        ensures writer { self.new.writer ≡ self.old.writer }
    {
        let mut output = Output::new(self.alloc);
        put_taken_in(form, taken, outstanding, &mut output);
        write_told(&mut output, self.writer)
    }

    /// Tells how many messages are given up, where there are some.
    pub(crate) fn tell_given_up(&mut self, form: Form, outstanding: usize) -> Result<(), KeptStop>
        ensures tells { TellsKept (given_up_in form outstanding) (Ok tt) self.old.held self.new.held result }
        ensures writer { self.new.writer ≡ self.old.writer }
    {
        let mut output = Output::new(self.alloc);
        put_given_up_in(form, outstanding, &mut output);
        write_told(&mut output, self.writer)
    }

    /// Tells that so many messages are unknown, the last of which has this number.
    pub(crate) fn tell_unknown(
        &mut self,
        form: Form,
        last: u64,
        count: usize,
    ) -> Result<(), KeptStop>
        requires countable { last < 2 ^ 64 - 1 }
        ensures tells { TellsKept (unknown_in form (last + 1 - count) count) (Ok tt) self.old.held self.new.held
            result }
        ensures writer { self.new.writer ≡ self.old.writer }
    {
        let mut output = Output::new(self.alloc);
        put_unknown_in(form, first_of(last, count), count, &mut output);
        write_told(&mut output, self.writer)
    }

    /// Tells these lines of an encoder that was joined so, or that it could not be, and says how the run goes on.
    /// Nothing is told where the save failed.
    pub(crate) fn tell_joined(
        &mut self,
        form: Form,
        joined: Result<(), KeptOutstanding>,
        output: &mut Output,
    ) -> Result<(), KeptStop>
        ensures tells { (lines : List ℕ) → (IsTrue output.old.is_whole → output.old.bytes ≡ lines)
            → JoinedTold form lines joined self.old.held self.new.held result }
        ensures writer { self.new.writer ≡ self.old.writer }
    {
        match joined {
            Ok(()) => write_told(output, self.writer),
            Err(KeptOutstanding::Outstanding(reason)) => self.tell_not_joined(form, reason),
            Err(KeptOutstanding::StateFailed) => Err(KeptStop::StateFailed),
        }
    }

    /// Tells that the encoder is not joined, and says that the run stops for this reason.
    fn tell_not_joined(&mut self, form: Form, reason: Outstanding) -> Result<(), KeptStop>
        ensures tells { TellsKept (not_joined_in form) (Err (Run (fault_of reason))) self.old.held self.new.held
            result }
        ensures writer { self.new.writer ≡ self.old.writer }
    {
        let mut output = Output::new(self.alloc);
        put_not_joined_in(form, &mut output);
        match write_told(&mut output, self.writer) {
            Err(stop) => Err(stop),
            Ok(()) => Err(KeptStop::Run(fault_of(reason))),
        }
    }

    /// Tells what the encoder answered to messages that were held, of which the first has this number: those that are
    /// not marked are these, which waited each under its counter, were sent since then and settled so. Says how the run
    /// goes on.
    pub(crate) fn tell_held(
        &mut self,
        account: Account,
        since: u64,
        first: u64,
        marks: &[bool],
        sent: &[Sent],
        ended: &Result<Settled, KeptOutstanding>,
        counts: ServerCounts,
    ) -> Result<(), KeptStop>
        requires countable { first + length marks.now < 2 ^ 64 }
        ensures tells { AnswersTold account (AreHeld account first marks.now sent.now) counts ended.now self.old.held
            self.new.held result }
        ensures writer { self.new.writer ≡ self.old.writer }
    {
        match ended {
            Ok(settled) => {
                let mut output = Output::new(self.alloc);
                put_held_by(
                    account,
                    self.clock,
                    since,
                    first,
                    marks,
                    sent,
                    settled,
                    &mut output,
                );
                write_told(&mut output, self.writer)
            }
            Err(KeptOutstanding::Outstanding(why)) => {
                self.tell_outstanding(account, stop_for(*why, counts))
            }
            Err(KeptOutstanding::StateFailed) => Err(KeptStop::StateFailed),
        }
    }

    /// Tells what the encoder answered to these messages, each sent under its counter since then, that were settled so,
    /// the last of which has this number, or that they are outstanding, and says how the run goes on. Nothing is told
    /// where a save failed.
    pub(crate) fn tell_replies(
        &mut self,
        account: Account,
        since: u64,
        last: u64,
        sent: &[Sent],
        ended: &Result<Settled, KeptOutstanding>,
        counts: ServerCounts,
    ) -> Result<(), KeptStop>
        requires countable { last < 2 ^ 64 - 1 }
        ensures tells { AnswersTold account (RepliesOf account last sent.now) counts ended.now self.old.held
            self.new.held
            result }
        ensures writer { self.new.writer ≡ self.old.writer }
    {
        match ended {
            Ok(settled) => {
                let first = first_of(last, settled.codes.len());
                let mut output = Output::new(self.alloc);
                put_replies_by(
                    account,
                    self.clock,
                    since,
                    first,
                    sent,
                    settled,
                    &mut output,
                );
                write_told(&mut output, self.writer)
            }
            Err(KeptOutstanding::Outstanding(reason)) => {
                self.tell_outstanding(account, stop_for(*reason, counts))
            }
            Err(KeptOutstanding::StateFailed) => Err(KeptStop::StateFailed),
        }
    }

    /// Tells that messages are outstanding, where that is told, and says that the run stops for this.
    fn tell_outstanding(&mut self, account: Account, stop: KeptStop) -> Result<(), KeptStop>
        ensures tells { OutstandingTold account (Err stop) self.old.held self.new.held result }
        ensures writer { self.new.writer ≡ self.old.writer }
    {
        match account {
            Account::Numbered(_) => Err(stop),
            Account::Batches => self.tell_batch_outstanding(stop),
        }
    }

    /// Tells that a batch is outstanding, and says that the run stops for this.
    fn tell_batch_outstanding(&mut self, stop: KeptStop) -> Result<(), KeptStop>
        ensures tells { TellsKept (codes "outstanding\n") (Err stop) self.old.held self.new.held result }
        ensures writer { self.new.writer ≡ self.old.writer }
    {
        let mut output = Output::new(self.alloc);
        output.text("outstanding\n");
        match write_told(&mut output, self.writer) {
            Err(other) => Err(other),
            Ok(()) => Err(stop),
        }
    }
}

/// The number of the first of so many messages, the last of which has this number.
pub(crate) fn first_of(last: u64, count: usize) -> u64
    requires { last < 2 ^ 64 - 1 }
    ensures { result ≡ last + 1 - count }
{
    (last + 1).saturating_sub(count as u64)
}
