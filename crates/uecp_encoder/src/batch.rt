//! What is answered together. Source: profile.
ghost use Rattle.std.specs.Prelude.{◌≡◌, ◌<◌, ◌≤◌, ◌+◌, ◌*◌, ◌==◌, ◌||◌, not, ℕ, List, [], ◌∷◌, ◌++◌, false, length};
ghost use Rattle.std.specs.Prelude.{take};
ghost use Rattle.std.specs.Prelude.{Some, IfNone, IfSome, flat_map, if◌then◌else◌};
ghost use Rattle.uecp_frame.specs.Frame.{spelling};
ghost use Rattle.uecp_frame.specs.Feeding.{findings_of};
ghost use Rattle.uecp_frame.specs.Lent.{found_lent, LendsAtMost};
ghost use Rattle.uecp_frame.specs.Beyond.{found_beyond};
ghost use Rattle.uecp_encoder.specs.declared.listener.Answered.TheVariants.{New, Repeat};
ghost use Rattle.uecp_encoder.specs.State.{EncoderState, fed};
ghost use Rattle.uecp_encoder.specs.Answering.{bytes_sent, reply_of};
ghost use Rattle.uecp_encoder.specs.Outcomes.{ComesTo, said_of};
ghost use Rattle.uecp_encoder.specs.Laws.{fresh_in};
ghost use Rattle.uecp_encoder.specs.Serving.{replies_in, replies_among};
ghost use Rattle.uecp_encoder.specs.ServingWith.{fresh_among};
ghost use Rattle.uecp_encoder.specs.Telling.{response_of};
ghost use Rattle.uecp_encoder.specs.Batches.{IsBatch, IsEventOf};

use crate::answer::ReplyBytes;
use crate::encoder::Encoder;
use crate::listener::{Answered, Event};
use crate::outcome::Outcome;
use crate::reply_frame::spell_reply;
use crate::target::Target;
use arrayvec::ArrayVec;
use uecp_elements::Code;
use uecp_frame::{Address, Found, FoundRef, Frame, Message};

/// How many things found are answered together at most.
pub(crate) const TOGETHER_MAX: usize = 126;

/// How many bytes the replies to them have at most.
pub(crate) const REPLIES_MAX: usize = 16 * TOGETHER_MAX;

/// How far a piece was used, and what that found, if it found something.
#[derive(Drop)]
pub(crate) struct HeardEvent {
    pub(crate) used: usize,
    pub(crate) event: Option<Event>,
}

/// What an encoder says to what was found, in hands of its own, so that the encoder can be saved before it is written.
#[derive(Drop)]
pub(crate) struct Batch {
    /// The replies, joined.
    pub(crate) replies: ArrayVec<u8, REPLIES_MAX>,
    /// How many they are.
    pub(crate) count: u64,
    /// Whether one of them is fresh.
    pub(crate) fresh: bool,
    /// How many things were found.
    pub(crate) found: usize,
    /// What was found, each with its answer, where somebody listens; room that is free has none.
    pub(crate) events: ArrayVec<Option<Event>, TOGETHER_MAX>,
}

impl Batch {
    /// Nothing was found.
    pub(crate) fn new() -> Batch {
        Batch {
            replies: ArrayVec::new(),
            count: 0,
            fresh: false,
            found: 0,
            events: ArrayVec::new(),
        }
    }

    /// Nothing was found any more.
    fn clear(&mut self)
        ensures replies { self.new.replies.items ≡ [] }
        ensures count { self.new.count ≡ 0 }
        ensures fresh { self.new.fresh ≡ false }
        ensures found { self.new.found ≡ 0 }
        ensures events { self.new.events.items ≡ [] }
    {
        self.replies.clear();
        self.count = 0;
        self.fresh = false;
        self.found = 0;
        self.events.clear();
    }

    /// One thing more was found, and this is the answer to it.
    fn add(&mut self, event: Event)
        requires replies { length self.old.replies.items + 16 ≤ 2016 }
        requires count { self.old.count < 126 }
        requires found { self.old.found < 126 }
        requires events { length self.old.events.items < 126 }
        ensures replies { self.new.replies.items
            ≡ self.old.replies.items ++ bytes_sent (response_of event.answer) }
        ensures count { self.new.count ≡ self.old.count + replies_in (response_of event.answer) }
        ensures fresh { self.new.fresh ≡ (self.old.fresh || not (fresh_in (response_of event.answer) == 0)) }
        ensures events { self.new.events.items ≡ self.old.events.items ++ Some event ∷ [] }
        ensures short { length self.new.replies.items ≤ length self.old.replies.items + 16 }
        ensures few { self.new.count ≤ self.old.count + 1 }
        ensures found { self.new.found ≡ self.old.found + 1 }
    {
        self.found += 1;
        match &event.answer {
            Answered::New { code: _, reply } => {
                self.fresh = true;
                self.add_reply(reply);
            }
            Answered::Repeat { code: _, reply } => self.add_reply(reply),
            Answered::NotNext | Answered::Unnumbered | Answered::NotForMe | Answered::Dropped(_) =>
                {}
        }
        match self.events.try_push(Some(event)) {
            Ok(()) => {}
            Err(_) => unreachable!(),
        }
    }

    /// What a piece came to was this, and nobody is told of it.
    fn add_untold(&mut self, address: Address, outcome: Outcome)
        requires replies { length self.old.replies.items + 16 ≤ 2016 }
        requires count { self.old.count < 126 }
        requires found { self.old.found < 126 }
        ensures replies { self.new.replies.items ≡ self.old.replies.items ++ flat_map bytes_sent (said_of address
            outcome) }
        ensures count { self.new.count ≡ self.old.count + replies_among (said_of address outcome) }
        ensures fresh { self.new.fresh ≡ (self.old.fresh || not (fresh_among (said_of address outcome) == 0)) }
        ensures found { self.new.found ≡ self.old.found + length (said_of address outcome) }
        ensures events { self.new.events ≡ self.old.events }
        ensures short { length self.new.replies.items
            ≤ length self.old.replies.items + 16 * length (said_of address outcome) }
        ensures few { self.new.count ≤ self.old.count + length (said_of address outcome) }
    {
        match outcome {
            Outcome::Nothing => {}
            Outcome::Reply {
                code,
                counter,
                fresh,
            } => {
                self.found += 1;
                self.fresh = self.fresh || fresh;
                self.add_reply(&spelled(address, code, counter));
            }
            Outcome::Dropped(_) | Outcome::NotForMe | Outcome::Unnumbered | Outcome::NotNext => {
                self.found += 1;
            }
        }
    }

    /// One reply more is due.
    fn add_reply(&mut self, reply: &ReplyBytes)
        requires replies { length self.old.replies.items + 16 ≤ 2016 }
        requires count { self.old.count < 126 }
        ensures replies { self.new.replies.items ≡ self.old.replies.items ++ reply.now.items }
        ensures short { length self.new.replies.items ≤ length self.old.replies.items + 16 }
        ensures count { self.new.count ≡ self.old.count + 1 }
        ensures fresh { self.new.fresh ≡ self.old.fresh }
        ensures found { self.new.found ≡ self.old.found }
        ensures events { self.new.events ≡ self.old.events }
    {
        self.count += 1;
        match self.replies.try_extend_from_slice(reply.as_slice()) {
            Ok(()) => {}
            Err(_) => unreachable!(),
        }
    }
}

/// Replaces what is in the batch: feeds the piece to its end, or until so many things were found, and answers how many
/// bytes that took.
pub(crate) fn take_batch<T: Target>(
    encoder: &mut Encoder<T>,
    piece: &[u8],
    most: usize,
    listens: bool,
    batch: &mut Batch,
) -> usize
    requires some { 0 < length piece.now }
    requires one { 0 < most }
    requires room { most ≤ 126 }
    ensures used { (0 < result) × (result ≤ length piece.now) }
    ensures state { encoder.new ≡ fed T.step encoder.old (take result piece.now) }
    ensures batch { IsBatch listens T.step encoder.old (take result piece.now) batch.new }
    // It is full, or the piece was used up; and it was not full before its last byte.
    ensures full { result < length piece.now → most ≤ length (found_beyond encoder.old.part (take result piece.now)) }
    ensures fewer { (k : ℕ) → k < result → length (found_beyond encoder.old.part (take k piece.now)) < most }
{
    batch.clear();
    let mut at = 0;
    while at < piece.len() && batch.found < most {
        at += take_next(encoder, &piece[at..], listens, batch);
    }
    at
}

/// Feeds the piece up to the end of its first segment, puts what that found in the batch, and answers how many bytes
/// that took.
fn take_next<T: Target>(
    encoder: &mut Encoder<T>,
    piece: &[u8],
    listens: bool,
    batch: &mut Batch,
) -> usize
    requires some { 0 < length piece.now }
    requires found { batch.old.found < 126 }
    requires room { length batch.old.events.items ≤ batch.old.found }
    requires short { length batch.old.replies.items ≤ 16 * batch.old.found }
    requires few { batch.old.count ≤ batch.old.found }
    ensures used { (0 < result) × (result ≤ length piece.now) }
    ensures state { encoder.new ≡ fed T.step encoder.old (take result piece.now) }
    ensures batch { (start : EncoderState T) (bytes : List ℕ) → encoder.old ≡ fed T.step start bytes
        → IsBatch listens T.step start bytes batch.old
        → IsBatch listens T.step start (bytes ++ take result piece.now) batch.new }
    ensures more { batch.new.found ≤ batch.old.found + 1 }
    ensures first { (k : ℕ) → k < result → found_beyond encoder.old.part (take k piece.now) ≡ [] }
{
    if listens {
        let HeardEvent { used, event } = encoder.hear_event(piece);
        if let Some(event) = event {
            batch.add(event);
        }
        used
    } else {
        let address = encoder.address();
        let heard = encoder.hear(piece);
        batch.add_untold(address, heard.outcome);
        heard.used
    }
}

/// What is told of what was found, and of what it came to at the encoder of this address.
pub(crate) fn event_of(address: Address, found: &FoundRef<'_>, outcome: Outcome) -> Option<Event>
    requires comes { ComesTo (found_lent found.now) outcome }
    requires small { LendsAtMost 255 found.now }
    ensures none { IfNone result (findings_of (found_lent found.now) ≡ []) }
    ensures some { IfSome result (λ event. IsEventOf address (found_lent found.now) outcome event) }
{
    let answer = match outcome {
        Outcome::Nothing => return None,
        Outcome::Dropped(fault) => Answered::Dropped(fault),
        Outcome::NotForMe => Answered::NotForMe,
        Outcome::Unnumbered => Answered::Unnumbered,
        Outcome::NotNext => Answered::NotNext,
        Outcome::Reply {
            code,
            counter,
            fresh,
        } => replied(spelled(address, code, counter), code, fresh),
    };
    Some(Event {
        found: owned(found),
        answer,
    })
}

/// The answer that is this reply.
fn replied(reply: ReplyBytes, code: Code, fresh: bool) -> Answered
    ensures { result ≡ (if fresh then New code reply else Repeat code reply) }
{
    if fresh {
        Answered::New { code, reply }
    } else {
        Answered::Repeat { code, reply }
    }
}

/// The reply of the encoder at this address to a counter.
fn spelled(address: Address, code: Code, counter: u8) -> ReplyBytes
    ensures { result.items ≡ spelling (reply_of address counter code) }
{
    let mut reply = ReplyBytes::new();
    spell_reply(address, code, counter, &mut reply);
    reply
}

/// What was found, in hands of its own.
fn owned(found: &FoundRef<'_>) -> Found
    requires small { LendsAtMost 255 found.now }
    ensures { result ≡ found_lent found.now }
{
    match found {
        FoundRef::Nothing => Found::Nothing,
        FoundRef::Refused(fault) => Found::Refused(*fault),
        FoundRef::Frame(frame) => match Message::from_bytes(frame.message) {
            Some(message) => Found::Frame(Frame {
                address: *frame.address,
                counter: frame.counter,
                message,
            }),
            None => unreachable!(),
        },
    }
}
