//! The messages that a server holds, with their spelled frames, the oldest first. Source: profile.
ghost use Rattle.std.specs.Prelude.{◌≡◌, ◌≤◌, IfSome, length, map, slice_get};
ghost use Rattle.std.specs.Option.{option_copied};
ghost use Rattle.uecp_link.specs.Server.{waiting_among, waits_for};
ghost use Rattle.uecp_link.specs.HeldMessages.{held_in, frames_among, with_mark, oldest_marked, left_of};

use arrayvec::ArrayVec;
use uecp_frame::{FrameBytes, Message};

/// How many messages a server holds at most: so many may be on their way at a time.
pub const WINDOW_MAX: usize = 8;

/// A message that was submitted. It is held until its reply has come, and those of all older ones.
#[derive(Drop)]
pub(crate) struct HeldMessage {
    /// Its counter.
    pub(crate) counter: u8,
    /// What it says.
    pub(crate) message: Message,
    /// Whether its reply has come.
    pub(crate) marked: bool,
    /// The spelling of its frame.
    pub(crate) frame: FrameBytes,
}

impl Default for HeldMessage {
    /// What stands in a place where none is held.
    fn default() -> HeldMessage {
        HeldMessage {
            counter: 0,
            message: Message::new(),
            marked: false,
            frame: FrameBytes::new(),
        }
    }
}

/// How many of these messages wait for their reply.
pub(crate) fn count_waiting(held: &[HeldMessage]) -> usize
    ensures value { result ≡ length (waiting_among (held_in held.now)) }
    ensures within { result ≤ length held.now }
{
    let mut count = 0;
    for message in held {
        if !message.marked {
            count += 1;
        }
    }
    count
}

/// The frame of one of these messages that wait, by its place among them, from 0.
pub(crate) fn frame_at(held: &[HeldMessage], place: usize) -> Option<&[u8]>
    ensures value { option_copied result ≡ slice_get (frames_among held.now) place }
    ensures few { IfSome result (λ frame. length frame.now ≤ 524) }
{
    let mut before = place;
    for message in held {
        if message.marked {
            continue;
        }
        if before == 0 {
            return Some(message.frame.as_slice());
        }
        before -= 1;
    }
    None
}

/// The counter of one of these messages that wait, by its place among them, from 0.
pub(crate) fn counter_at(held: &[HeldMessage], place: usize) -> Option<u8>
    ensures { result ≡ slice_get (map (λ w. w.0) (waiting_among (held_in held.now))) place }
{
    let mut older = place;
    for message in held {
        let waits = !message.marked;
        if waits && older == 0 {
            return Some(message.counter);
        }
        if waits {
            older -= 1;
        }
    }
    None
}

/// Whether one of these messages waits under this counter.
pub(crate) fn is_waiting(held: &[HeldMessage], counter: u8) -> bool
    ensures { result ≡ waits_for (waiting_among (held_in held.now)) counter }
{
    for message in held {
        if !message.marked && message.counter == counter {
            return true;
        }
    }
    false
}

/// Marks the message under this counter.
pub(crate) fn mark(held: &mut [HeldMessage], counter: u8)
    ensures { held.new ≡ map (with_mark counter) held.old }
{
    for message in held.iter_mut() {
        if message.counter == counter {
            message.marked = true;
        }
    }
}

/// Whether the oldest of these messages is marked.
fn is_oldest_marked(held: &[HeldMessage]) -> bool
    ensures { result ≡ oldest_marked held.now }
{
    match held {
        [] => false,
        [oldest, ..] => oldest.marked,
    }
}

/// Lets the marked messages go, from the oldest up to the first that waits.
pub(crate) fn let_go(held: &mut ArrayVec<HeldMessage, WINDOW_MAX>)
    ensures { held.new.items ≡ left_of held.old.items }
{
    while is_oldest_marked(held.as_slice()) {
        held.remove(0);
    }
}
