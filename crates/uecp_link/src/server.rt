//! The server's end of the line. Source: RDS Forum SPB 490, two-way mode; profile for the order of counters and for
//! what acknowledges.
ghost use Rattle.std.specs.Prelude.{◌≡◌, ◌+◌, ◌<◌, ◌≤◌, ◌==◌, ◌↔◌, [], IsNone, IfSome, IsTrue, length, take, slice_get};
ghost use Rattle.std.specs.Prelude.{nat_lt, option_to_list};
ghost use Rattle.std.specs.List.{IsDistinct};
ghost use Rattle.std.specs.Option.{option_copied};
ghost use Rattle.uecp_frame.specs.Address.{is_exact};
ghost use Rattle.uecp_frame.specs.Findings.{Closed};
ghost use Rattle.uecp_link.specs.Server.{idle_at, restarted_server, submitted, waiting, is_marked, heard, HearsPiece};
ghost use Rattle.uecp_link.specs.Server.{frames_waiting, counters_waiting, outgoing_bytes};
ghost use Rattle.uecp_link.specs.Window.{mark_in};

mod passing;
mod replies;
mod resuming;

use crate::counters::counter_of;
use crate::counts::ServerCounts;
use crate::heard::{Heard, HeardWhat};
use crate::held_message::{
    HeldMessage, WINDOW_MAX, count_waiting, counter_at, frame_at, let_go, mark,
};
use crate::server::replies::acknowledging;
use arrayvec::ArrayVec;
use std::marker::Model;
use uecp_frame::{Address, Deframer, FoundRef, Frame, FrameBytes, Message, encode};

/// The first byte of a reply's message: the element message acknowledgement.
pub(crate) const REPLY: u8 = 0x18;

/// A server that sends messages to one encoder, up to eight outstanding at a time: it numbers a message, lends its
/// frame as often as the caller sends it, and knows the encoder's reply to it from all else. Contracts see it as one
/// value, `ServerState`.
#[derive(Drop)]
pub struct Server {
    /// The encoder's address.
    address: Address,
    /// The counter of the last message, 0 before the first.
    last: u8,
    /// The messages that are held, the oldest first: those that no reply has come to, and those marked ones that are
    /// newer.
    held: ArrayVec<HeldMessage, WINDOW_MAX>,
    /// What was heard, by kind.
    counts: ServerCounts,
    /// Finds the frames in what is heard.
    deframer: Deframer,
}

impl Model for Server {
    ghost use Rattle.uecp_link.specs.Server.{ServerState};
    ghost use Rattle.uecp_link.specs.HeldMessages.{held_in, IsHolding};

    ghost Value = { ServerState };

    ghost view = { λ s. record {
      address = s.address;
      last = s.last;
      held = held_in s.held.items;
      counts = s.counts;
      part = s.deframer;
    } };

    ghost invariant = { λ s. IsHolding s.address s.last s.held.items };
}

impl Server {
    /// A server for the encoder at this address, which is that encoder's own: neither part is 0. It has sent nothing,
    /// its first message will have counter 01, it holds nothing and nothing is counted.
    pub fn new(address: Address) -> Server
        requires { IsTrue (is_exact address) }
        ensures { result ≡ idle_at address }
    {
        Server {
            address,
            last: 0,
            held: ArrayVec::new(),
            counts: ServerCounts::default(),
            deframer: Deframer::new(),
        }
    }

    /// Whether no message waits for its reply. An idle server holds none.
    pub fn is_idle(&self) -> bool
        ensures waits_for_none { IsTrue result ↔ (waiting self.now ≡ []) }
        ensures holds_none { IsTrue result ↔ (self.now.held ≡ []) }
    {
        self.held.is_empty()
    }

    /// Whether fewer than eight messages are held, and so the next one may be submitted.
    pub fn has_room(&self) -> bool
        ensures { IsTrue result ↔ (length self.now.held < 8) }
    {
        !self.held.is_full()
    }

    /// Takes a message to be sent, under the next counter: 01 to FF in turn, and 01 again. The server has room; see
    /// [`has_room`](Server::has_room). Send what [`frame`](Server::frame) lends, again whenever no reply has come in
    /// time, until [`hear`](Server::hear) answers `Acknowledged` with its counter. The counts stay.
    pub fn submit(&mut self, message: &Message)
        requires { length self.old.held < 8 }
        ensures { self.new ≡ submitted self.old message.now }
    {
        let frame = Frame {
            address: self.address,
            counter: counter_of(usize::from(self.last)),
            message: message.copy(),
        };
        let mut spelled = FrameBytes::new();
        encode(&frame, &mut spelled);
        let Frame {
            address: _,
            counter,
            message,
        } = frame;
        self.last = counter;
        self.held.push(HeldMessage {
            counter,
            message,
            marked: false,
            frame: spelled,
        });
    }

    /// How many messages wait for their reply, at most eight, no two under the same counter. Of those that are held
    /// they are the ones that are not marked.
    pub fn waiting(&self) -> usize
        ensures value { result ≡ length (waiting self.now) }
        ensures few { result ≤ 8 }
        ensures distinct { IsDistinct ◌==◌ (counters_waiting self.now) }
    {
        count_waiting(self.held.as_slice())
    }

    /// The frame of one of the messages that wait, the oldest first, from 0: the same 8 to 524 bytes each time. None
    /// from [`waiting`](Server::waiting) on.
    ///
    /// ```
    /// for place in 0..server.waiting() {
    ///     let frame = server.frame(place); // Some bytes
    /// }
    /// ```
    pub fn frame(&self, place: usize) -> Option<&[u8]>
        ensures value { option_copied result ≡ slice_get (frames_waiting self.now) place }
        ensures none { IsNone result ↔ (length (waiting self.now) ≤ place) }
        ensures few { IfSome result (λ frame. length frame.now ≤ 524) }
    {
        frame_at(self.held.as_slice(), place)
    }

    /// The counter of one of the messages that wait, the oldest first, from 0: that of the frame which
    /// [`frame`](Server::frame) lends at this place. None from [`waiting`](Server::waiting) on.
    ///
    /// ```
    /// server.submit(&message);
    /// let counter = server.counter(server.waiting() - 1); // the new message's
    /// ```
    pub fn counter(&self, place: usize) -> Option<u8>
        ensures value { result ≡ slice_get (counters_waiting self.now) place }
        ensures none { IsNone result ↔ (length (waiting self.now) ≤ place) }
    {
        counter_at(self.held.as_slice(), place)
    }

    /// The frame of the oldest message that waits, the same 8 to 524 bytes each time. None where the server is idle.
    pub fn outgoing(&self) -> Option<&[u8]>
        ensures idle { IsNone result ↔ (waiting self.now ≡ []) }
        ensures frame { option_copied result ≡ outgoing_bytes self.now }
        ensures few { IfSome result (λ frame. length frame.now ≤ 524) }
    {
        self.frame(0)
    }

    /// Takes a piece of what comes over the line: uses its bytes up to and with the one that ends a segment, or all,
    /// and answers what that brought. Hear the rest of the piece next, until all is used. A reply marks its message;
    /// the marked ones are let go from the oldest on, up to the first that waits. Where a fault was dropped, the
    /// messages and their frames are as before. What the answer says is counted.
    pub fn hear(&mut self, piece: &[u8]) -> Heard
        ensures fits { result.used ≤ length piece.now }
        ensures moves { 0 < length piece.now → 0 < result.used }
        ensures hears { HearsPiece self.old piece.now result }
        ensures state { self.new ≡ heard self.old (take result.used piece.now) }
        ensures one_fewer { length (option_to_list (mark_in result.what)) + length (waiting self.new)
            ≡ length (waiting self.old) }
    {
        let fed = self.deframer.feed_ref(piece);
        let used = fed.used;
        let what = match &fed.found {
            FoundRef::Nothing => HeardWhat::Nothing,
            FoundRef::Refused(fault) => {
                self.counts.dropped = self.counts.dropped.saturating_add(1);
                HeardWhat::Dropped(*fault)
            }
            FoundRef::Frame(frame) => match acknowledging(
                self.address,
                self.held.as_slice(),
                frame,
            ) {
                None => {
                    self.counts.stray = self.counts.stray.saturating_add(1);
                    HeardWhat::Stray
                }
                Some((counter, code)) => {
                    mark(self.held.as_mut_slice(), counter);
                    let_go(&mut self.held);
                    self.counts.acknowledged = self.counts.acknowledged.saturating_add(1);
                    HeardWhat::Acknowledged { counter, code }
                }
            },
        };
        Heard { used, what }
    }

    /// What was counted since the server was made.
    ///
    /// ```
    /// server.hear(&[0xfe, 0xff]);
    /// let dropped = server.counts().dropped; // one more than before
    /// ```
    pub fn counts(&self) -> ServerCounts
        ensures value { result ≡ self.now.counts }
    {
        self.counts
    }

    /// How many messages are held, marked ones too: at most eight.
    pub fn held_count(&self) -> usize
        ensures value { result ≡ length self.now.held }
        ensures few { result ≤ 8 }
    {
        self.held.len()
    }

    /// Whether the message at a place among those that are held, the oldest first, is marked.
    #[tactic(auto, using(crate::proofs::HeldFields::mark_at))]
    pub(crate) fn is_marked(&self, place: usize) -> bool
        ensures { result ≡ is_marked self.now.held place }
    {
        match self.held.as_slice().get(place) {
            None => false,
            Some(held) => held.marked,
        }
    }

    /// The deframer, whose open part is the server's.
    pub(crate) fn deframer(&self) -> &Deframer
        ensures { result.now ≡ self.now.part }
    {
        &self.deframer
    }

    /// Forgets a segment that has not ended, as where the line was lost. What is held stays so, and so do the counts.
    pub fn line_lost(&mut self)
        ensures { self.new ≡ record self.old { part = Closed } }
    {
        self.deframer.line_lost();
    }

    /// Starts again, and goes on from what it kept, as after a crash: a segment that has not ended is forgotten and
    /// nothing is counted. Nothing else changes: the last counter and what is held stay, marks too, so that each
    /// message which waited still waits under its counter. How they are kept is not the server's matter. A server that
    /// kept nothing is a new one, and joins first: see [`join`](crate::join).
    ///
    /// ```
    /// server.submit(&message);
    /// server.restart();
    /// let frame = server.outgoing(); // as before
    /// ```
    pub fn restart(&mut self)
        ensures { self.new ≡ restarted_server self.old }
    {
        self.line_lost();
        self.counts = ServerCounts::default();
    }
}
