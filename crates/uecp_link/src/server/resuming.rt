//! A server that goes on from what was kept of it, and what of it is to be kept. Source: profile.
ghost use Rattle.std.specs.Prelude.{◌≡◌, ◌<◌, ◌≤◌, ◌↔◌, IsNone, IfSome, IsTrue, length, slice_get};
ghost use Rattle.std.specs.Option.{option_map};
ghost use Rattle.uecp_frame.specs.Address.{is_exact};
ghost use Rattle.uecp_frame.specs.Frame.{spelling};
ghost use Rattle.uecp_link.specs.Frames.{frame_under};
ghost use Rattle.uecp_link.specs.HeldMessages.{held_as, held_in, AreSpelled};
ghost use Rattle.uecp_link.specs.Resuming.{numbered_from, held_of, is_oldest_kept_marked, can_hold, resumed_at};
ghost use Rattle.uecp_link.specs.Resuming.{IsServer};

use crate::counters::{COUNTER_MAX, counter_of};
use crate::counts::ServerCounts;
use crate::held_message::{HeldMessage, WINDOW_MAX};
use crate::kept_message::{KeptMessage, LentMessage};
use crate::server::Server;
use arrayvec::ArrayVec;
use uecp_frame::{Address, Deframer, Frame, FrameBytes, encode};

impl Server {
    /// A server that goes on: with the counter of the last message that was submitted, 0 before the first, and the
    /// messages that were held, the oldest first, each with its mark. The newest of them has the last counter. Nothing
    /// is counted or open.
    ///
    /// None where no server holds these: more than eight, the oldest marked, or any before the first message. The
    /// caller knows that the address is one encoder's own, as for [`new`](Server::new).
    pub fn resumed(address: Address, last: u8, kept: &[KeptMessage]) -> Option<Server>
        requires { IsTrue (is_exact address) }
        ensures { result ≡ resumed_at address last kept.now }
    {
        if !can_hold(last, kept) {
            return None;
        }
        let first = usize::from(last) + usize::from(COUNTER_MAX) - kept.len();
        Some(Server {
            address,
            last,
            held: held_from(address, first, kept),
            counts: ServerCounts::default(),
            deframer: Deframer::new(),
        })
    }

    /// The counter of the last message that was submitted, 0 before the first.
    pub fn last(&self) -> u8
        ensures value { result ≡ self.now.last }
        ensures server { IsServer self.now }
    {
        self.last
    }

    /// The message at a place among those that are held, marked ones too, the oldest first, from 0. None where there is
    /// none.
    ///
    /// ```
    /// let oldest = server.held(0); // waits, if there is one
    /// ```
    pub fn held(&self, place: usize) -> Option<LentMessage<'_>>
        ensures value { option_map held_of result ≡ slice_get self.now.held place }
        ensures none { IsNone result ↔ (length self.now.held ≤ place) }
        ensures few { IfSome result (λ held. place < 8) }
    {
        match self.held.as_slice().get(place) {
            None => None,
            Some(held) => Some(LentMessage {
                counter: held.counter,
                message: &held.message,
                marked: held.marked,
            }),
        }
    }
}

/// Whether a server with this last counter can hold these messages.
fn can_hold(last: u8, kept: &[KeptMessage]) -> bool
    ensures { result ≡ can_hold last kept.now }
{
    kept.len() <= WINDOW_MAX && !is_oldest_marked(kept) && (last != 0 || kept.is_empty())
}

/// Whether the oldest of these is marked.
fn is_oldest_marked(kept: &[KeptMessage]) -> bool
    ensures { result ≡ is_oldest_kept_marked kept.now }
{
    match kept {
        [] => false,
        [oldest, ..] => oldest.marked,
    }
}

/// Messages under the counters of numbers in turn, the first of which has this number.
fn held_from(
    address: Address,
    first: usize,
    kept: &[KeptMessage],
) -> ArrayVec<HeldMessage, WINDOW_MAX>
    requires few { length kept.now ≤ 8 }
    requires fits { first ≤ 510 }
    ensures held { held_in result.items ≡ numbered_from first kept.now }
    ensures spelled { AreSpelled address result.items }
{
    let mut held = ArrayVec::new();
    let mut number = first;
    for message in kept {
        held.push(held_under(address, counter_of(number), message));
        number += 1;
    }
    held
}

/// A message with its frame under a counter.
fn held_under(address: Address, counter: u8, kept: &KeptMessage) -> HeldMessage
    ensures held { held_as result ≡ record {
      counter = counter;
      message = kept.now.message;
      marked = kept.now.marked;
    } }
    ensures spelled { result.frame.items ≡ spelling (frame_under address (counter, kept.now.message)) }
{
    let frame = Frame {
        address,
        counter,
        message: kept.message.copy(),
    };
    let mut spelled = FrameBytes::new();
    encode(&frame, &mut spelled);
    let Frame {
        address: _,
        counter: _,
        message,
    } = frame;
    HeldMessage {
        counter,
        message,
        marked: kept.marked,
        frame: spelled,
    }
}
