//! Messages with the sequence counters that they are sent under. Source: RDS Forum SPB 490, sequence counter.
ghost use Rattle.std.specs.Prelude.{◌≡◌, ◌≤◌, ◌+◌, ◌++◌, length};
ghost use Rattle.uecp_link.specs.Counters.{next_counter};
ghost use Rattle.uecp_link.specs.Server.{waiting};
ghost use Rattle.sending.specs.Sent.{sent_after};

use arrayvec::ArrayVec;
use std::marker::Model;
use uecp_frame::Message;
use uecp_link::{Server, WINDOW_MAX};

/// A message with the counter that it is sent under. Contracts see the pair of both.
#[derive(Drop)]
pub(crate) struct Sent {
    counter: u8,
    message: Message,
}

impl Model for Sent {
    ghost use Rattle.std.specs.Prelude.{ℕ, List};

    ghost Value = { ℕ × List ℕ };

    ghost view = { λ s. (s.counter, s.message) };
}

impl Default for Sent {
    /// What stands in a place where none is.
    fn default() -> Sent {
        Sent {
            counter: 0,
            message: Message::new(),
        }
    }
}

impl Sent {
    /// This message under this counter.
    fn new(counter: u8, message: &Message) -> Sent
        ensures { result ≡ (counter, message.now) }
    {
        Sent {
            counter,
            message: message.copy(),
        }
    }

    /// The counter.
    pub(crate) fn counter(&self) -> u8
        ensures { result ≡ self.now.0 }
    {
        self.counter
    }

    /// The bytes of the message.
    pub(crate) fn bytes(&self) -> &[u8]
        ensures { result.now ≡ self.now.1 }
    {
        self.message.bytes()
    }
}

/// The messages that wait at a server, each with its counter, the oldest first.
pub(crate) fn waiting_of(server: &Server) -> ArrayVec<Sent, WINDOW_MAX>
    ensures { result.items ≡ waiting server.now }
{
    let mut sent = ArrayVec::new();
    for place in 0..server.held_count() {
        let Some(held) = server.held(place) else {
            unreachable!();
        };
        if !held.marked {
            sent.push(Sent::new(held.counter, held.message));
        }
    }
    sent
}

/// These messages, each with its counter, where the last one before had this counter, or none had one (0).
pub(crate) fn sent_after(last: u8, messages: &[Message]) -> ArrayVec<Sent, WINDOW_MAX>
    requires { length messages.now ≤ 8 }
    ensures { result.items ≡ sent_after last messages.now }
{
    let mut sent = ArrayVec::new();
    add_sent(last, messages, &mut sent);
    sent
}

/// Adds them.
fn add_sent(last: u8, messages: &[Message], sent: &mut ArrayVec<Sent, WINDOW_MAX>)
    requires { length sent.old.items + length messages.now ≤ 8 }
    ensures { sent.new.items ≡ sent.old.items ++ sent_after last messages.now }
{
    if let Some((message, rest)) = messages.split_first() {
        let counter = counter_after(last);
        sent.push(Sent::new(counter, message));
        add_sent(counter, rest, sent);
    }
}

/// The counter after this one: 01 to FF in turn, and 01 again.
fn counter_after(counter: u8) -> u8
    ensures { result ≡ next_counter counter }
{
    1 + counter % 0xFF
}
