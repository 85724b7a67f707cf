//! A line: its two ends, and what was sent between them. Source: profile.
ghost use Rattle.std.specs.Prelude.{◌≡◌, ◌≤◌, ◌<◌, ◌+◌, ℕ, IsTrue, IfOk, IfErr, length, map};
ghost use Rattle.std.specs.List.{AllByRecursion};
ghost use Rattle.uecp_frame.specs.Address.{is_exact};
ghost use Rattle.uecp_frame.specs.Findings.{Closed};
ghost use Rattle.uecp_link.specs.Kept.{IsReady};
ghost use Rattle.uecp_link.specs.Once.{Once, at_first, least_missing};
ghost use Rattle.uecp_link.specs.Law.{Law, Numbers, Fits};
ghost use Rattle.uecp_link.specs.Events.{event_of, Refuses};
ghost use Rattle.uecp_link.specs.Holds.{new_line, line_from, is_acknowledged, Holds, StepsAs, RunsAs, history_by};
ghost use Rattle.uecp_link.specs.Holds.{world_of};
ghost use Rattle.uecp_link.specs.Headline.{IsHeadline};

use crate::event::LineEvent;
use crate::refusal::LineRefusal;
use crate::server::Server;
use crate::stepped::Stepped;
use std::alloc::Global;
use std::marker::Model;
use uecp_elements::Code;
use uecp_encoder::{Encoder, EncoderFault, Target};
use uecp_frame::{Address, Message};

/// A server and an encoder, both new at first, and a line between them that may lose, repeat, damage and reorder what
/// is sent. It holds the two real ends and feeds them bytes; of the noise it keeps what is open in them, and nothing
/// else. Contracts see it as one value, `LineState`.
#[derive(Drop)]
pub struct Line<T: Target> {
    /// The encoder's address.
    pub(crate) address: Address,
    /// The studio's end.
    pub(crate) server: Server,
    /// The transmitter's end.
    pub(crate) encoder: Encoder<T>,
    /// The messages by number, from 0.
    pub(crate) sent: Vec<Message>,
    /// The codes of the applied numbers, from 0, in as much room as the messages have.
    pub(crate) codes: Vec<Code>,
}

impl<T: Target> Model for Line<T> {
    ghost use Rattle.std.specs.Prelude.{vec_capacity};
    ghost use Rattle.uecp_link.specs.Holds.{LineState};
    ghost use Rattle.uecp_link.specs.Whole.{IsWhole};

    ghost Value = { LineState T };

    ghost view = { λ l. record { encoder = l.encoder; server = l.server; sent = l.sent.items; codes = l.codes.items } };

    ghost invariant = { λ l. IsWhole l.address (record {
      encoder = l.encoder;
      server = l.server;
      sent = l.sent.items;
      codes = l.codes.items;
    }) (vec_capacity l.sent) (vec_capacity l.codes) };
}

impl<T: Target> Line<T> {
    /// A line with a new server and a new encoder at this address, which is the encoder's own: neither part is 0.
    /// Nothing is sent. Where there is no memory for the encoder's kept replies, the fault hands the target back as it
    /// was given.
    pub fn new(alloc: Global, address: Address, target: T) -> Result<Line<T>, EncoderFault<T>>
        requires { IsTrue (is_exact address) }
        ensures made { IfOk result (λ line. line ≡ new_line address target) }
        ensures holds { IfOk result (λ line. Holds line (at_first target)) }
        ensures handed_back { IfErr result (λ fault. fault.target ≡ target) }
    {
        let encoder = Encoder::new(alloc, address, target)?;
        Ok(Line::of_encoder(alloc, address, encoder))
    }

    /// A line with a new server and an encoder that is there, at this address, which is the encoder's own: neither part
    /// is 0. It has nothing open, and keeps nothing, or the replies to FF .. 81 alone, as one that has joined does; see
    /// [`join`](crate::join). Nothing is sent, and the messages that came before have no numbers. What holds of every
    /// new line holds of it, with the value that the encoder has now as the opening one: see
    /// [`steps_keep_the_headline_from`](crate::laws::steps_keep_the_headline_from).
    pub fn of_encoder(alloc: Global, address: Address, encoder: Encoder<T>) -> Line<T>
        requires exact { IsTrue (is_exact address) }
        requires own { encoder.address ≡ address }
        requires ready { IsReady encoder.ring }
        requires closed { encoder.part ≡ Closed }
        ensures made { result ≡ line_from encoder }
        ensures holds { Holds result (at_first encoder.value) }
    {
        Line {
            address,
            server: Server::new(address),
            encoder,
            sent: Vec::new(alloc),
            codes: Vec::new(alloc),
        }
    }

    /// A new line on which these events come in turn, and how many of them were refused. Want of memory for a message
    /// refuses that event; for the line itself it hands the target back.
    pub fn play(
        alloc: Global,
        address: Address,
        target: T,
        events: &[LineEvent<'_>],
    ) -> Result<(Line<T>, usize), EncoderFault<T>>
        requires { IsTrue (is_exact address) }
        // From a new line each event in turn is a step, as `step` promises it for one, and the number counts those that
        // were refused.
        ensures plays { IfOk result (λ played. RunsAs T.step T.taken (new_line address target) (at_first target)
            (map event_of events.now) played.1 played.0) }
        // The encoder's store is what a prefix of the sent messages with the takes between makes, each applied once and
        // in order; every message that is acknowledged is in it with its one reply, and every message that is missing
        // is still outstanding. The history is that of these events.
        ensures headline { IfOk result
            (λ played. (runs : RunsAs T.step T.taken (new_line address target) (at_first target)
            (map event_of events.now) played.1 played.0)
            × IsHeadline T.step T.taken address target (history_by (map event_of events.now) runs.outcomes) played.0) }
        // Between the two ends that are left counters and kept replies never confuse two messages.
        ensures numbers { IfOk result (λ played. (o : Once T) → Holds played.0 o
            → Numbers T.step address (world_of played.0 o) (length played.0.codes)) }
        // Of the definitions alone, and not of the line that is answered: two ends that are fed the bytes of these
        // events do what the once-machine does, in numbers and in values.
        ensures law { IfOk result (λ played. Law T.step T.taken address target (map event_of events.now)) }
        ensures handed_back { IfErr result (λ fault. fault.target ≡ target) }
    {
        let mut line = Line::new(alloc, address, target)?;
        let refused = line.run(events);
        Ok((line, refused))
    }

    /// The events in turn, passing over those that are refused. It answers how many there were of these; a submission
    /// for which there was no memory is one of them.
    pub fn run(&mut self, events: &[LineEvent<'_>]) -> usize
        // Each event in turn is a step, as `step` promises it for one, and the answer counts those that were refused.
        ensures plays { (o : Once T) → Holds self.old o → RunsAs T.step T.taken self.old o (map event_of events.now)
            result self.new }
        // Every message of an event fits a frame.
        ensures fits { AllByRecursion Fits (map event_of events.now) }
        ensures address { self.new.encoder.address ≡ self.old.encoder.address }
    {
        let mut refused = 0;
        for event in events {
            match self.step(event) {
                Ok(_) => {}
                Err(_) => refused += 1,
            }
        }
        refused
    }

    /// One event: the end that it comes to is fed what it brings, cut as it says. Where it is refused nothing has
    /// changed. Only a submission takes memory: room for the message and for its code, both before anything changes.
    pub fn step(&mut self, event: &LineEvent<'_>) -> Result<Stepped, LineRefusal>
        // The line goes on as the once-machine does.
        ensures steps { IfOk result (λ stepped. (o : Once T) → Holds self.old o
            → StepsAs T.step T.taken self.old o (event_of event.now) stepped self.new) }
        // It refuses where the once-machine does, for its reason, or a submission for want of memory.
        ensures refused { IfErr result (λ refusal. (o : Once T) → Holds self.old o
            → Refuses o (event_of event.now) refusal) }
        ensures unchanged { IfErr result (λ refusal. self.new ≡ self.old) }
        // A message fits a frame.
        ensures fits { Fits (event_of event.now) }
        ensures address { self.new.encoder.address ≡ self.old.encoder.address }
    {
        match *event {
            LineEvent::Submit(message) => self.submit(message),
            LineEvent::Frame { number, cut } => self.deliver(number, cut),
            LineEvent::Reply { number, cut } => self.acknowledge(number, cut),
            LineEvent::NoiseToEncoder(noise) => self.disturb_encoder(noise),
            LineEvent::NoiseToServer(noise) => self.disturb_server(noise),
            LineEvent::LineLost(side) => Ok(self.lose(side)),
            LineEvent::EncoderRestart => Ok(self.resume_encoder()),
            LineEvent::ServerRestart => Ok(self.resume_server()),
            LineEvent::Take => Ok(self.take_group()),
        }
    }

    /// The studio's end, as the events have made it.
    pub fn server(&self) -> &Server
        ensures { result.now ≡ self.now.server }
    {
        &self.server
    }

    /// The transmitter's end, as the events have made it.
    pub fn encoder(&self) -> &Encoder<T>
        ensures { result.now ≡ self.now.encoder }
    {
        &self.encoder
    }

    /// The messages that were submitted, by number from 0.
    pub fn sent(&self) -> &[Message]
        ensures { result.now ≡ self.now.sent }
    {
        self.sent.as_slice()
    }

    /// The codes with which messages were applied, by number from 0; as many as were applied.
    pub fn codes(&self) -> &[Code]
        ensures { result.now ≡ self.now.codes }
    {
        self.codes.as_slice()
    }

    /// How many messages were applied: the numbers below this, which are all that were sent but the last eight at most.
    pub fn applied(&self) -> usize
        ensures value { result ≡ length self.now.codes }
        ensures within { result ≤ length self.now.sent }
        ensures all_but_eight { length self.now.sent ≤ result + 8 }
    {
        self.codes.len()
    }

    /// The least number that is not acknowledged: all below it are, and so are applied.
    pub fn acknowledged(&self) -> usize
        ensures value { result ≡ least_missing (is_acknowledged self.now) (length self.now.sent) }
        ensures within { result ≤ length self.now.codes }
    {
        self.sent.len() - self.server.held_count()
    }

    /// Whether the message of a number is acknowledged: the server knows that it was applied.
    pub fn is_acknowledged(&self, number: usize) -> bool
        ensures value { result ≡ is_acknowledged self.now number }
        ensures applied { IsTrue result → number < length self.now.codes }
    {
        let least = self.acknowledged();
        number < least || self.server.is_marked(number - least)
    }
}
