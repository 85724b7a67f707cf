//! What a line does at each kind of event. Source: profile.
ghost use Rattle.std.specs.Prelude.{◌≡◌, ◌+◌, ◌%◌, ◌≤◌, ◌<◌, ◌++◌, ◌∷◌, [], ℕ, Bool, true, Some, None, if◌then◌else◌};
ghost use Rattle.std.specs.Prelude.{slice_get, IfOk, IfErr, OnOk, OnErr, length, vec_len, vec_capacity};
ghost use Rattle.std.specs.List.{last_or};
ghost use Rattle.uecp_elements.specs.declared.code.Code.{Code as CodeValue};
ghost use Rattle.uecp_encoder.specs.State.{fed};
ghost use Rattle.uecp_encoder.specs.ReplyCodes.{replies};
ghost use Rattle.uecp_link.specs.Replying.{acknowledgements};
ghost use Rattle.uecp_link.specs.Server.{heard};
ghost use Rattle.uecp_frame.specs.Frame.{spelling};
ghost use Rattle.uecp_link.specs.Once.{Submit, FrameComes, ReplyComes, NoiseToEncoder, NoiseToServer, EncoderRestart};
ghost use Rattle.uecp_link.specs.Once.{ServerRestart, Take};
ghost use Rattle.uecp_link.specs.Events.{lost_of};
ghost use Rattle.uecp_link.specs.Law.{Fits, frame_of, reply_bytes};
ghost use Rattle.uecp_link.specs.Holds.{once_of};
ghost use Rattle.uecp_link.specs.Whole.{room_for};
ghost use Rattle.uecp_link.specs.Next.{Goes, Stops, codes_by, delivered_by, stepped_by};

use crate::counters::{counter_of, is_recent};
use crate::event::Side;
use crate::line::Line;
use crate::pieces::{dropped_by, give_cut};
use crate::refusal::LineRefusal;
use crate::server::{REPLY, Server};
use crate::stepped::Stepped;
use std::alloc::{AllocError, Global};
use uecp_elements::Code;
use uecp_encoder::{Encoder, Target};
use uecp_frame::{Address, Frame, FrameBytes, Message, encode};

/// The frame of a message, as it is sent.
fn spelled(address: Address, counter: u8, message: Message) -> FrameBytes
    ensures { result.items ≡ spelling (record { address = address; counter = counter; message = message }) }
{
    let frame = Frame {
        address,
        counter,
        message,
    };
    let mut bytes = FrameBytes::new();
    encode(&frame, &mut bytes);
    bytes
}

/// The same codes in this much room.
fn copy_of(alloc: Global, codes: &[Code], room: usize) -> Result<Vec<Code>, AllocError>
    requires { length codes.now ≤ room }
    ensures items { IfOk result (λ copy. copy.items ≡ codes.now) }
    ensures room { IfOk result (λ copy. vec_capacity copy ≡ room) }
{
    let mut copy = Vec::with_capacity(alloc, room)?;
    for code in codes {
        copy.push_reserved(*code);
    }
    Ok(copy)
}

/// Makes room for one message more, and for as many codes: where the room is full it is then twice as large and eight
/// more. Where there is no memory for that, both lists are as before, and so is their room.
#[tactic(auto, using(crate::proofs::RoomFor::room_when_full, crate::proofs::RoomFor::room_when_left))]
fn make_room(sent: &mut Vec<Message>, codes: &mut Vec<Code>) -> Result<(), AllocError>
    requires applied { vec_len codes.old ≤ vec_len sent.old }
    requires sent_room { vec_capacity sent.old ≡ room_for (vec_len sent.old) }
    requires code_room { vec_capacity codes.old ≡ room_for (vec_len sent.old) }
    ensures sent { sent.new.items ≡ sent.old.items }
    ensures sent_len { vec_len sent.new ≡ vec_len sent.old }
    ensures codes { codes.new.items ≡ codes.old.items }
    ensures left { OnOk result (vec_len sent.old < vec_capacity sent.new) }
    ensures made { OnOk result ((vec_capacity sent.new ≡ room_for (vec_len sent.old + 1))
        × (vec_capacity codes.new ≡ room_for (vec_len sent.old + 1))) }
    ensures kept { OnErr result ((vec_capacity sent.new ≡ vec_capacity sent.old)
        × (vec_capacity codes.new ≡ vec_capacity codes.old)) }
{
    let number = sent.len();
    if number < sent.capacity() {
        return Ok(());
    }
    let Some(room) = number.checked_add(number + 8) else {
        return Err(AllocError);
    };
    let more = copy_of(*codes.allocator(), codes.as_slice(), room)?;
    sent.reserve_exact(number + 8)?;
    *codes = more;
    Ok(())
}

/// Feeds the encoder a frame, and keeps the code of a fresh reply; None where there is no reply.
fn take_in<T: Target>(
    encoder: &mut Encoder<T>,
    codes: &mut Vec<Code>,
    bytes: &[u8],
    cut: &[u16],
) -> Option<(bool, Code)>
    requires { (code : CodeValue) → last_or None (replies T.step encoder.old bytes.now) ≡ Some (true, code)
        → vec_len codes.old < vec_capacity codes.old }
    ensures state { encoder.new ≡ fed T.step encoder.old bytes.now }
    ensures reply { result ≡ last_or None (replies T.step encoder.old bytes.now) }
    ensures codes { codes.new.items ≡ codes_by codes.old.items result }
    ensures room { vec_capacity codes.new ≡ vec_capacity codes.old }
{
    let reply = give_cut(encoder, bytes, cut);
    if let Some((true, code)) = reply {
        codes.push_reserved(code);
    }
    reply
}

/// The answer to a frame, by the reply to it.
fn delivered(reply: Option<(bool, Code)>) -> Stepped
    ensures { result ≡ delivered_by reply }
{
    match reply {
        None => Stepped::NotNext,
        Some((fresh, code)) => Stepped::Delivered { fresh, code },
    }
}

/// Feeds the server a reply, and says whether it acknowledges.
fn hear_reply(server: &mut Server, bytes: &[u8], cut: &[u16]) -> Stepped
    ensures state { server.new ≡ heard server.old bytes.now }
    ensures answer { result ≡ stepped_by (last_or None (acknowledgements server.old bytes.now)) }
{
    match give_cut(server, bytes, cut) {
        None => Stepped::Stray,
        Some(code) => Stepped::Acknowledged(code),
    }
}

impl<T: Target> Line<T> {
    /// The next message is given to the server.
    pub(crate) fn submit(&mut self, message: &Message) -> Result<Stepped, LineRefusal>
        ensures goes { IfOk result (λ stepped. Goes T.step T.taken self.old (Submit message.now) stepped self.new) }
        ensures stops { IfErr result (λ refusal. Stops self.old (Submit message.now) refusal self.new) }
        ensures fits { Fits (Submit message.now) }
    {
        let copy = message.copy();
        if !self.server.has_room() {
            return Err(LineRefusal::Busy);
        }
        let number = self.sent.len();
        let Ok(()) = make_room(&mut self.sent, &mut self.codes) else {
            return Err(LineRefusal::OutOfMemory);
        };
        self.sent.push_reserved(copy);
        self.server.submit(message);
        Ok(Stepped::Numbered(number))
    }

    /// The frame of a message, which was sent.
    fn spelled_frame(&self, number: usize) -> FrameBytes
        requires { number < length self.now.sent }
        ensures { result.items ≡ spelling (frame_of self.now.encoder.address (once_of self.now) number) }
    {
        spelled(self.address, counter_of(number), self.sent[number].copy())
    }

    /// The frame of a message comes to the encoder.
    pub(crate) fn deliver(&mut self, number: usize, cut: &[u16]) -> Result<Stepped, LineRefusal>
        ensures goes { IfOk result (λ stepped. Goes T.step T.taken self.old (FrameComes number) stepped self.new) }
        ensures stops { IfErr result (λ refusal. Stops self.old (FrameComes number) refusal self.new) }
    {
        if number >= self.sent.len() {
            return Err(LineRefusal::NotSent);
        }
        if !is_recent(self.sent.len(), number) {
            return Err(LineRefusal::TooLate);
        }
        let bytes = self.spelled_frame(number);
        let reply = take_in(&mut self.encoder, &mut self.codes, bytes.as_slice(), cut);
        Ok(delivered(reply))
    }

    /// The encoder's reply to a message, which was applied.
    fn spelled_reply(&self, number: usize) -> FrameBytes
        requires { number < length self.now.codes }
        ensures { result.items ≡ reply_bytes self.now.encoder.address number (slice_get self.now.codes number) }
    {
        let acknowledgement = [REPLY, self.codes[number].byte(), counter_of(number)];
        let Some(message) = Message::from_bytes(&acknowledgement) else {
            unreachable!();
        };
        spelled(self.address, 0, message)
    }

    /// The encoder's reply to a message comes to the server.
    pub(crate) fn acknowledge(&mut self, number: usize, cut: &[u16]) -> Result<Stepped, LineRefusal>
        ensures goes { IfOk result (λ stepped. Goes T.step T.taken self.old (ReplyComes number) stepped self.new) }
        ensures stops { IfErr result (λ refusal. Stops self.old (ReplyComes number) refusal self.new) }
    {
        if number >= self.codes.len() {
            return Err(LineRefusal::NotSent);
        }
        if !is_recent(self.sent.len(), number) {
            return Err(LineRefusal::TooLate);
        }
        let bytes = self.spelled_reply(number);
        Ok(hear_reply(&mut self.server, bytes.as_slice(), cut))
    }

    /// Noise comes to the encoder.
    pub(crate) fn disturb_encoder(&mut self, noise: &[u8]) -> Result<Stepped, LineRefusal>
        ensures goes { IfOk result (λ stepped. Goes T.step T.taken self.old (NoiseToEncoder noise.now) stepped
            self.new) }
        ensures stops { IfErr result (λ refusal. Stops self.old (NoiseToEncoder noise.now) refusal self.new) }
    {
        let Some(dropped) = dropped_by(self.encoder.deframer(), noise) else {
            return Err(LineRefusal::HoldsAFrame);
        };
        let _ = give_cut(&mut self.encoder, noise, &[]);
        Ok(Stepped::Noise { dropped })
    }

    /// Noise comes to the server.
    pub(crate) fn disturb_server(&mut self, noise: &[u8]) -> Result<Stepped, LineRefusal>
        ensures goes { IfOk result (λ stepped. Goes T.step T.taken self.old (NoiseToServer noise.now) stepped
            self.new) }
        ensures stops { IfErr result (λ refusal. Stops self.old (NoiseToServer noise.now) refusal self.new) }
    {
        let Some(dropped) = dropped_by(self.server.deframer(), noise) else {
            return Err(LineRefusal::HoldsAFrame);
        };
        let _ = give_cut(&mut self.server, noise, &[]);
        Ok(Stepped::Noise { dropped })
    }

    /// One end forgets a segment that has not ended.
    pub(crate) fn lose(&mut self, side: Side) -> Stepped
        ensures { Goes T.step T.taken self.old (lost_of side) result self.new }
    {
        match side {
            Side::Encoder => self.encoder.line_lost(),
            Side::Server => self.server.line_lost(),
        }
        Stepped::Lost
    }

    /// The encoder starts again, and goes on from what it kept.
    pub(crate) fn resume_encoder(&mut self) -> Stepped
        ensures { Goes T.step T.taken self.old EncoderRestart result self.new }
    {
        self.encoder.restart();
        Stepped::Restarted
    }

    /// The server starts again, and goes on from what it kept.
    pub(crate) fn resume_server(&mut self) -> Stepped
        ensures { Goes T.step T.taken self.old ServerRestart result self.new }
    {
        self.server.restart();
        Stepped::Restarted
    }

    /// The modulator takes a group from the encoder.
    pub(crate) fn take_group(&mut self) -> Stepped
        ensures { Goes T.step T.taken self.old Take result self.new }
    {
        Stepped::Taken(self.encoder.take_group())
    }
}
