//! The encoder's end of the line. Source: RDS Forum SPB 490, two-way mode; profile for the kept replies.
ghost use Rattle.std.specs.Prelude.{◌≡◌, ◌<◌, ◌≤◌, ℕ, [], IsTrue, IfOk, IfErr, length, take, option_to_list};
ghost use Rattle.std.specs.Borrow.{sem};
ghost use Rattle.std.specs.Io.BufRead.{Rests};
ghost use Rattle.uecp_frame.specs.Address.{is_exact};
ghost use Rattle.uecp_frame.specs.Findings.{Closed};
ghost use Rattle.uecp_frame.specs.Beyond.{found_beyond};
ghost use Rattle.uecp_encoder.specs.State.{opening, restarted, fed};
ghost use Rattle.uecp_encoder.specs.Answering.{AnswersPiece, responses_to};
ghost use Rattle.uecp_encoder.specs.ReplyCodes.{replies};
ghost use Rattle.uecp_encoder.specs.declared.outcome.Outcome.TheVariants.{Nothing};
ghost use Rattle.uecp_encoder.specs.Outcomes.{said_of, coded_of};
ghost use Rattle.uecp_encoder.specs.Batches.{TellsOf};
ghost use Rattle.uecp_encoder.specs.contracts.encoder.Encoder.{the_row};

use crate::answer::{Answer, ReplyBytes, What};
use crate::batch::{HeardEvent, event_of};
use crate::counts::Counts;
use crate::holdings::Holdings;
use crate::outcome::{Heard, Outcome};
use crate::reply_frame::spell_reply;
use crate::target::Target;
use rds_store::Group;
use reply_ring::ReplyRing;
use std::alloc::Global;
use std::marker::Model;
use thiserror::Error;
use uecp_frame::{Address, Deframer};

/// There was no memory for an encoder. It hands back the target as it was given.
#[derive(Debug, Drop, Error)]
#[error("there was no memory for an encoder")]
pub struct EncoderFault<T> {
    /// The target that was given.
    pub target: T,
}

/// An encoder at its address: it applies each numbered message once and in its turn, keeps the replies to the last 127,
/// and answers a repeat with the kept one. Contracts see it as one value, `EncoderState`.
#[derive(Drop)]
pub struct Encoder<T: Target> {
    /// Finds the frames in what is fed.
    deframer: Deframer,
    /// Address, target, kept replies and counts.
    holdings: Holdings<T>,
    /// The reply that was answered last, for lending it.
    reply: ReplyBytes,
}

impl<T: Target> Model for Encoder<T> {
    ghost use Rattle.uecp_encoder.specs.State.{EncoderState};
    ghost use Rattle.uecp_encoder.specs.Holdings.{with_part};

    ghost Value = { EncoderState T };

    ghost view = { λ e. with_part e.holdings e.deframer };
}

impl<T: Target> Encoder<T> {
    /// A new encoder, with nothing kept, counted or open. All its memory is taken here; where there is none, the fault
    /// hands the target back.
    ///
    /// The caller knows that the address is one encoder's own: neither part is 0 ([`Address::is_exact`]).
    ///
    /// ```
    /// let store = RdsStore::new(alloc, 1, &[0x01])?;
    /// let mut encoder = Encoder::new(alloc, address, store)?;
    /// ```
    pub fn new(alloc: Global, address: Address, target: T) -> Result<Encoder<T>, EncoderFault<T>>
        requires { IsTrue (is_exact address) }
        ensures made { IfOk result (λ e. e ≡ opening address target) }
        ensures handed_back { IfErr result (λ fault. fault.target ≡ target) }
    {
        match ReplyRing::new(alloc) {
            Ok(ring) => Ok(Encoder::resumed(address, target, ring)),
            Err(_) => Err(EncoderFault { target }),
        }
    }

    /// An encoder that goes on with kept replies: its next message is the one after the newest of them, and a message
    /// whose reply is kept is a repeat. Nothing is counted or open. It takes no memory.
    ///
    /// The caller knows that the address is one encoder's own, as for [`new`](Encoder::new).
    ///
    /// ```
    /// let mut encoder = Encoder::resumed(address, store, ring);
    /// ```
    pub fn resumed(address: Address, target: T, ring: ReplyRing) -> Encoder<T>
        requires { IsTrue (is_exact address) }
        ensures { result ≡ record (opening address target) { ring = ring } }
    {
        Encoder {
            deframer: Deframer::new(),
            holdings: Holdings {
                address,
                target,
                ring,
                counts: Counts::default(),
            },
            reply: ReplyBytes::new(),
        }
    }

    /// Takes a piece of what comes over the line: uses its bytes up to and with the one that ends a segment, or all,
    /// and answers what that brought. Send the reply if there is one, then feed the rest of the piece, until all is
    /// used.
    ///
    /// ```
    /// let answer = encoder.feed(&[0xfe, 0xff, 0x00]); // used 2, What::Dropped(FrameFault::TooShort)
    /// ```
    #[inline(always)]
    pub fn feed(&mut self, piece: &[u8]) -> Answer<'_>
        ensures fits { result.used ≤ length piece.now }
        ensures moves { 0 < length piece.now → 0 < result.used }
        ensures answers { AnswersPiece T.step self.old piece.now result }
        ensures* after { sem 𝓛 (Rests (the_row T.row T.Target) self.entry
            (λ v. v ≡ fed T.step self.old (take result.used piece.now))) }
    {
        let heard = self.hear(piece);
        let used = heard.used;
        let what = match heard.outcome {
            Outcome::Nothing => What::Nothing,
            Outcome::Dropped(fault) => What::Dropped(fault),
            Outcome::NotForMe => What::NotForMe,
            Outcome::Unnumbered => What::Unnumbered,
            Outcome::NotNext => What::NotNext,
            Outcome::Reply {
                code,
                counter,
                fresh,
            } => {
                spell_reply(self.holdings.address, code, counter, &mut self.reply);
                What::Reply(&self.reply, fresh)
            }
        };
        Answer { used, what }
    }

    /// As `feed`, for a caller that spells replies itself, or sends none: tells what the used bytes came to.
    ///
    /// ```
    /// let heard = encoder.hear(&[0xfe, 0xff, 0x00]); // used 2, Outcome::Dropped(FrameFault::TooShort)
    /// ```
    #[inline(always)]
    pub fn hear(&mut self, piece: &[u8]) -> Heard
        ensures fits { result.used ≤ length piece.now }
        ensures moves { 0 < length piece.now → 0 < result.used }
        ensures state { self.new ≡ fed T.step self.old (take result.used piece.now) }
        ensures says { responses_to T.step self.old (take result.used piece.now)
            ≡ said_of self.old.address result.outcome }
        ensures codes { replies T.step self.old (take result.used piece.now)
            ≡ option_to_list (coded_of result.outcome) }
        // It is the first thing that the piece brings; where it brings nothing the whole piece was used.
        ensures first { (k : ℕ) → k < result.used → found_beyond self.old.part (take k piece.now) ≡ [] }
        ensures all { result.outcome ≡ Nothing → result.used ≡ length piece.now }
        // A reply goes out from the address that the encoder still has.
        ensures address { self.new.address ≡ self.old.address }
    {
        let fed = self.deframer.feed_ref(piece);
        Heard {
            used: fed.used,
            outcome: self.holdings.take(&fed.found),
        }
    }

    /// As `hear`, for a caller that tells of it: what was found, in hands of its own, with what is answered.
    pub(crate) fn hear_event(&mut self, piece: &[u8]) -> HeardEvent
        ensures fits { result.used ≤ length piece.now }
        ensures moves { 0 < length piece.now → 0 < result.used }
        ensures state { self.new ≡ fed T.step self.old (take result.used piece.now) }
        ensures first { (k : ℕ) → k < result.used → found_beyond self.old.part (take k piece.now) ≡ [] }
        ensures tells { TellsOf T.step self.old (found_beyond self.old.part (take result.used piece.now)) result.event }
    {
        let fed = self.deframer.feed_ref(piece);
        let outcome = self.holdings.take(&fed.found);
        HeardEvent {
            used: fed.used,
            event: event_of(self.holdings.address, &fed.found, outcome),
        }
    }

    /// Forgets a segment that has not ended, as where the line was lost. Nothing else changes: the kept replies stay,
    /// so that a message which was applied before is still known on the next connection.
    ///
    /// ```
    /// encoder.feed(&[0xfe, 0x00]);
    /// encoder.line_lost();
    /// let answer = encoder.feed(&[0xff]); // What::Nothing
    /// ```
    pub fn line_lost(&mut self)
        ensures { self.new ≡ record self.old { part = Closed } }
    {
        self.deframer.line_lost();
    }

    /// Starts again, and goes on from what it kept, as after a crash: a segment that has not ended is forgotten and
    /// nothing is counted. Nothing else changes: the address, the target and the kept replies stay, so that a message
    /// which was applied before is still known. How they are kept is not the encoder's matter.
    ///
    /// ```
    /// encoder.feed(&frame); // What::Reply(bytes, true)
    /// encoder.restart();
    /// let answer = encoder.feed(&frame); // What::Reply(bytes, false): the same bytes
    /// ```
    pub fn restart(&mut self)
        ensures { self.new ≡ restarted self.old }
    {
        self.line_lost();
        let counts = &mut self.holdings.counts;
        *counts = Counts::default();
    }

    /// Takes from the target the group that is to go out next, or None where it has none. Nothing but the target
    /// changes: the kept replies, the counts and what is open stay, so that a message which was applied before is still
    /// known.
    ///
    /// ```
    /// let group = encoder.take_group(); // of a store: the first group that waits
    /// ```
    pub fn take_group(&mut self) -> Option<Group>
        ensures state { self.new ≡ record self.old { value = (T.taken self.old.value).0 } }
        ensures group { result ≡ (T.taken self.old.value).1 }
    {
        self.holdings.target.take()
    }

    /// The deframer, whose open part is the encoder's.
    ///
    /// ```
    /// let mut ahead = encoder.deframer().copy(); // finds what the encoder will find
    /// ```
    pub fn deframer(&self) -> &Deframer
        ensures { result.now ≡ self.now.part }
    {
        &self.deframer
    }

    /// The target, as the applied messages have made it.
    ///
    /// ```
    /// let main = encoder.target().service(1, 0x01); // of a store: set 1, service 01
    /// ```
    pub fn target(&self) -> &T
        ensures { result.now ≡ self.now.value }
    {
        &self.holdings.target
    }

    /// The encoder's own address.
    ///
    /// ```
    /// let site = encoder.address().site(); // 1 to 1023
    /// ```
    pub fn address(&self) -> Address
        ensures { result ≡ self.now.address }
    {
        self.holdings.address
    }

    /// The kept replies: the codes of the last 127 applied messages.
    ///
    /// ```
    /// let last = encoder.kept().newest(); // the counter of the last message, or None before the first
    /// ```
    pub fn kept(&self) -> &ReplyRing
        ensures { result.now ≡ self.now.ring }
    {
        &self.holdings.ring
    }

    /// What was counted since the encoder was made.
    ///
    /// ```
    /// encoder.feed(&[0xfe, 0xff]);
    /// let dropped = encoder.counts().dropped; // one more than before
    /// ```
    pub fn counts(&self) -> Counts
        ensures { result ≡ self.now.counts }
    {
        self.holdings.counts
    }
}
