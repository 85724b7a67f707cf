//! The command `line` (profile).
ghost use Rattle.std.specs.Prelude.{◌≡◌, ◌⊎◌, ℕ, List, IfOk, IfErr};
ghost use Rattle.uecp_link.specs.Once.{FrameComes, ReplyComes};
ghost use Rattle.rds_store.specs.Step.{step};
ghost use Rattle.uecp_link.specs.Events.{event_of};
ghost use Rattle.uecp_link.specs.Replacing.{Replaces};
ghost use Rattle.output_forms.specs.Forms.{given_up_lines};
ghost use Rattle.uecp_text.specs.Written.{Adds};
ghost use Rattle.uecp_text.specs.declared.run_fault.RunFault.TheVariants.{OutOfMemory};
ghost use Rattle.uecp_words.specs.EventWords.{event_seen, named_message};
ghost use Rattle.uecp_jobs.specs.Playing.{PlaysEvent, PlaysIn, closing_lines};
ghost use Rattle.uecp_jobs.specs.Setups.{options_of, IsSetup, RefusesSetup, line_at_first};

use crate::asked::Asked;
use crate::setup::{Setup, new_line};
use output_forms::{Form, put_given_up, put_step, put_store, put_totals};
use rds_store::RdsStore;
use rds_store::laws::empty_message_changes_nothing;
use std::alloc::Global;
use uecp_link::{Line, LineEvent, Side};
use uecp_text::{Interpreter, Output, RunFault, Taken, TextFault, words_of};
use uecp_words::{EventLine, event_of, is_replacement};

/// Plays events on a line and says what came of each; then the totals and, where that is asked for, the store.
#[derive(Drop)]
pub struct Playing {
    line: Line<RdsStore>,
    asked: Asked,
}

impl Playing {
    /// A new line to the encoder that the options describe, with an opening store. The services are judged before the
    /// address; `OutOfMemory` where there is no memory.
    pub fn new(alloc: Global, setup: &Setup<'_>, asked: Asked) -> Result<Playing, RunFault>
        ensures described { IfOk result (λ p. IsSetup (options_of setup.now)) }
        ensures made { IfOk result (λ p. (p.line ≡ line_at_first (options_of setup.now)) × (p.asked ≡ asked)) }
        ensures refused { IfErr result (λ fault. (fault ≡ OutOfMemory) ⊎ RefusesSetup (options_of setup.now) fault) }
    {
        let line = new_line(alloc, setup)?;
        Ok(Playing { line, asked })
    }
}

impl Interpreter for Playing {
    ghost meaning = { λ p text outcome p'. PlaysIn p.asked.form p.line text outcome p'.line
        × (p'.asked ≡ p.asked) };

    ghost closing = { λ p. closing_lines p.asked.form p.asked.store p.line };

    fn take(
        &mut self,
        alloc: Global,
        text: &[u8],
        output: &mut Output,
    ) -> Result<Taken, TextFault> {
        let words = words_of(alloc, text)?;
        if is_replacement(words.as_slice()) {
            replace(self.asked.form, &mut self.line, output);
        } else {
            let event = event_of(alloc, words.as_slice())?;
            play_event(self.asked.form, &mut self.line, &event, output);
        }
        output.check()?;
        Ok(Taken::GoesOn)
    }

    fn close(&self, output: &mut Output) {
        put_closing(self.asked, &self.line, output);
    }
}

/// The totals of a line, and its store where that is asked for.
fn put_closing(asked: Asked, line: &Line<RdsStore>, output: &mut Output)
    ensures { Adds output.old output.new (closing_lines asked.form asked.store line.now) }
{
    put_totals(asked.form, line, output);
    put_store(asked.form, line.encoder().target(), asked.store, output);
}

/// Plays one event, and says what came of it.
fn play_event(form: Form, line: &mut Line<RdsStore>, event: &EventLine, output: &mut Output)
    ensures { (lines : List ℕ) × PlaysEvent form line.old (event_seen event.now) lines line.new
        × Adds output.old output.new lines }
{
    let event = line_event(event);
    let number = named_message(&event);
    put_step(form, line.step(&event), number, output);
}

/// Replaces the server by a new one, which joins, and says how many messages were given up.
fn replace(form: Form, line: &mut Line<RdsStore>, output: &mut Output)
    ensures { (given_up : ℕ) × Replaces step line.old given_up line.new
        × Adds output.old output.new (given_up_lines form given_up) }
{
    empty_message_changes_nothing();
    put_given_up(form, line.replace_server(), output);
}

/// The event of a line of a script as it happens on the line.
pub fn line_event(event: &EventLine) -> LineEvent<'_>
    ensures { event_of result ≡ event_seen event.now }
{
    match event {
        EventLine::Submit(message) => LineEvent::Submit(message),
        EventLine::Frame(number, cut) => frame_event(*number, cut.as_slice()),
        EventLine::Reply(number, cut) => reply_event(*number, cut.as_slice()),
        EventLine::Noise(Side::Encoder, bytes) => LineEvent::NoiseToEncoder(bytes.as_slice()),
        EventLine::Noise(Side::Server, bytes) => LineEvent::NoiseToServer(bytes.as_slice()),
        EventLine::LineLost(side) => LineEvent::LineLost(*side),
        EventLine::Restart(Side::Encoder) => LineEvent::EncoderRestart,
        EventLine::Restart(Side::Server) => LineEvent::ServerRestart,
        EventLine::Take => LineEvent::Take,
    }
}

fn frame_event(number: usize, cut: &[u16]) -> LineEvent<'_>
    ensures { event_of result ≡ FrameComes number }
{
    LineEvent::Frame { number, cut }
}

fn reply_event(number: usize, cut: &[u16]) -> LineEvent<'_>
    ensures { event_of result ≡ ReplyComes number }
{
    LineEvent::Reply { number, cut }
}

/// The number of the message that the event names, counted from 0, or 0 where it names none.
pub fn named_message(event: &LineEvent<'_>) -> usize
    ensures { result ≡ named_message (event_of event.now) }
{
    match *event {
        LineEvent::Frame { number, .. } | LineEvent::Reply { number, .. } => number,
        _ => 0,
    }
}
