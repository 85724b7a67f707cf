//! What is sent for a case, and what must come (profile).
ghost use Rattle.std.specs.Prelude.{◌≡◌, ◌<◌, ◌≤◌, ◌+◌, ◌++◌, ◌∷◌, [], length, take, drop, bit_xor, flat_map, map};
ghost use Rattle.std.specs.Prelude.{IfOk, if◌then◌else◌};
ghost use Rattle.uecp_frame.specs.Stuffing.{code, stuffed};
ghost use Rattle.uecp_frame.specs.Check.{check};
ghost use Rattle.uecp_frame.specs.Frame.{high_first};
ghost use Rattle.uecp_link.specs.Driving.{copies};
ghost use Rattle.conformance.specs.declared.verdict.Expected.TheVariants.{This, Refusal};
ghost use Rattle.conformance.specs.Sending.{another, address_to, body_saying, frame_to, frame_sent, step_sent};
ghost use Rattle.conformance.specs.Sending.{case_sent, step_wants, case_wants, counters_in, enclosed, replaced, begun};

use crate::case::{Counters, Edit, Step, To};
use crate::verdict::{Expected, Reply};
use arrayvec::ArrayVec;
use std::alloc::{AllocError, Global};
use uecp_frame::{Address, Message, check_of};

/// Begins a segment.
const START: u8 = 0xFE;

/// Ends a segment.
const END: u8 = 0xFF;

/// Stands before 00, 01 or 02 for a plain FD, FE or FF.
const ESCAPE: u8 = 0xFD;

/// The bytes that are sent for these steps to the encoder at this address, in order.
pub fn sent(alloc: Global, own: Address, steps: &[Step]) -> Result<Vec<u8>, AllocError>
    ensures { IfOk result (λ bytes. bytes.items ≡ case_sent own steps.now) }
{
    let mut bytes = Vec::new(alloc);
    for step in steps {
        put_step(own, step, &mut bytes)?;
    }
    Ok(bytes)
}

/// The replies that these steps want, in order.
pub fn wanted(alloc: Global, steps: &[Step]) -> Result<Vec<Expected>, AllocError>
    ensures { IfOk result (λ replies. replies.items ≡ case_wants steps.now) }
{
    let mut replies = Vec::new(alloc);
    for step in steps {
        put_wanted(step, &mut replies)?;
    }
    Ok(replies)
}

/// Adds the bytes that a step sends.
fn put_step(own: Address, step: &Step, bytes: &mut Vec<u8>) -> Result<(), AllocError>
    ensures { IfOk result (λ _. bytes.new.items ≡ bytes.old.items ++ step_sent own step.now) }
{
    match step {
        Step::Send(row, message, edit) => put_frames(own, *row, message, edit, bytes),
        Step::Bytes(copy, count) => put_copies(copy.bytes(), *count, bytes),
        Step::Reply(_, _) => Ok(()),
        Step::Refusal(_) => Ok(()),
        Step::Nothing => Ok(()),
    }
}

/// Adds the replies that a step wants.
fn put_wanted(step: &Step, replies: &mut Vec<Expected>) -> Result<(), AllocError>
    ensures { IfOk result (λ _. replies.new.items ≡ replies.old.items ++ step_wants step.now) }
{
    match step {
        Step::Reply(row, code) => put_replies(*row, *code, replies),
        Step::Refusal(row) => put_refusals(*row, replies),
        Step::Send(_, _, _) => Ok(()),
        Step::Bytes(_, _) => Ok(()),
        Step::Nothing => Ok(()),
    }
}

/// Adds a reply with this code to each of these counters.
fn put_replies(row: Counters, code: u8, replies: &mut Vec<Expected>) -> Result<(), AllocError>
    ensures { IfOk result (λ _. replies.new.items ≡ replies.old.items
        ++ map (λ counter. This (record { counter = counter; code = code })) (counters_in row)) }
{
    for counter in u16::from(row.first)..u16::from(row.last) + 1 {
        replies.push(Expected::This(Reply {
            counter: counter as u8,
            code,
        }))?;
    }
    Ok(())
}

/// Adds a reply with any code but 00 to each of these counters.
fn put_refusals(row: Counters, replies: &mut Vec<Expected>) -> Result<(), AllocError>
    ensures { IfOk result (λ _. replies.new.items ≡ replies.old.items
        ++ map (λ counter. Refusal counter) (counters_in row)) }
{
    for counter in u16::from(row.first)..u16::from(row.last) + 1 {
        replies.push(Expected::Refusal(counter as u8))?;
    }
    Ok(())
}

/// Adds these bytes so many times.
fn put_copies(copy: &[u8], count: u32, bytes: &mut Vec<u8>) -> Result<(), AllocError>
    ensures { IfOk result (λ _. bytes.new.items ≡ bytes.old.items ++ copies copy.now count) }
{
    for _copy in 0..count {
        bytes.extend_from_slice(copy)?;
    }
    Ok(())
}

/// Adds a frame under each of these counters.
fn put_frames(
    own: Address,
    row: Counters,
    message: &Message,
    edit: &Edit,
    bytes: &mut Vec<u8>,
) -> Result<(), AllocError>
    ensures { IfOk result (λ _. bytes.new.items ≡ bytes.old.items
        ++ flat_map (λ counter. frame_sent own counter message.now edit.now) (counters_in row)) }
{
    for counter in u16::from(row.first)..u16::from(row.last) + 1 {
        put_frame(own, counter as u8, message, edit, bytes)?;
    }
    Ok(())
}

/// Adds a frame as it is sent with this edit.
#[tactic(auto, using(crate::proofs::Frames::whole_sent, crate::proofs::Frames::length_sent, crate::proofs::Frames::check_sent, crate::proofs::Frames::byte_sent, crate::proofs::Frames::cut_sent))]
fn put_frame(
    own: Address,
    counter: u8,
    message: &Message,
    edit: &Edit,
    bytes: &mut Vec<u8>,
) -> Result<(), AllocError>
    ensures { IfOk result (λ _. bytes.new.items ≡ bytes.old.items ++ frame_sent own counter message.now edit.now) }
{
    let length = message.bytes().len() as u8;
    match edit {
        Edit::Whole(to) => {
            let plain = plain_of(address_of(own, *to), counter, length, message, false);
            put_enclosed(plain.as_slice(), bytes)
        }
        Edit::Length(said) => {
            let plain = plain_of(own.value(), counter, *said, message, false);
            put_enclosed(plain.as_slice(), bytes)
        }
        Edit::Check => {
            let plain = plain_of(own.value(), counter, length, message, true);
            put_enclosed(plain.as_slice(), bytes)
        }
        Edit::Byte(place, other) => {
            let plain = plain_of(own.value(), counter, length, message, false);
            put_replaced(plain.as_slice(), *place, other.bytes(), bytes)
        }
        Edit::Cut(count) => {
            let plain = plain_of(own.value(), counter, length, message, false);
            put_cut(plain.as_slice(), *count, bytes)
        }
    }
}

/// The plain bytes of a frame that says this length, some bits of its check turned over.
fn plain_of(
    address: u16,
    counter: u8,
    said: u8,
    message: &Message,
    turned: bool,
) -> ArrayVec<u8, 261>
    ensures { let b = body_saying (frame_to address counter message.now) said in
        result.items ≡ b ++ high_first (if turned then bit_xor (check b) 1 else check b) }
{
    let [high, low] = address.to_be_bytes();
    let mut plain = ArrayVec::new();
    plain.push(high);
    plain.push(low);
    plain.push(counter);
    plain.push(said);
    for byte in message.bytes() {
        plain.push(*byte);
    }
    let check = check_of(plain.as_slice());
    let [high, low] = (if turned { check ^ 1 } else { check }).to_be_bytes();
    plain.push(high);
    plain.push(low);
    plain
}

/// Adds plain bytes between FE and FF.
fn put_enclosed(plain: &[u8], bytes: &mut Vec<u8>) -> Result<(), AllocError>
    ensures { IfOk result (λ _. bytes.new.items ≡ bytes.old.items ++ enclosed plain.now) }
{
    bytes.push(START)?;
    put_stuffed(plain, bytes)?;
    bytes.push(END)?;
    Ok(())
}

/// Adds the same with other bytes in the place of one.
fn put_replaced(
    plain: &[u8],
    place: u32,
    other: &[u8],
    bytes: &mut Vec<u8>,
) -> Result<(), AllocError>
    ensures { IfOk result (λ _. bytes.new.items ≡ bytes.old.items ++ replaced place other.now plain.now) }
{
    let before = plain.len().min(place as usize);
    let behind = plain.len().min(place as usize + 1);
    bytes.push(START)?;
    put_stuffed(&plain[..before], bytes)?;
    bytes.extend_from_slice(other)?;
    put_stuffed(&plain[behind..], bytes)?;
    bytes.push(END)?;
    Ok(())
}

/// Adds FE and the first plain bytes.
fn put_cut(plain: &[u8], count: u32, bytes: &mut Vec<u8>) -> Result<(), AllocError>
    ensures { IfOk result (λ _. bytes.new.items ≡ bytes.old.items ++ begun count plain.now) }
{
    let count = plain.len().min(count as usize);
    bytes.push(START)?;
    put_stuffed(&plain[..count], bytes)
}

/// Adds plain bytes as they are sent.
fn put_stuffed(plain: &[u8], bytes: &mut Vec<u8>) -> Result<(), AllocError>
    ensures { IfOk result (λ _. bytes.new.items ≡ bytes.old.items ++ stuffed plain.now) }
{
    for byte in plain {
        put_code(*byte, bytes)?;
    }
    Ok(())
}

/// Adds the one or two bytes by which a plain byte is sent.
#[tactic(auto, unfolding(uecp_frame::specs::Stuffing::code))]
fn put_code(byte: u8, bytes: &mut Vec<u8>) -> Result<(), AllocError>
    ensures { IfOk result (λ _. bytes.new.items ≡ bytes.old.items ++ code byte) }
{
    if byte >= ESCAPE {
        bytes.push(ESCAPE)?;
        bytes.push(byte - ESCAPE)?;
    } else {
        bytes.push(byte)?;
    }
    Ok(())
}

/// The address of a frame that is sent so for the encoder at this address.
#[tactic(auto, unfolding(crate::specs::Sending::address_to))]
fn address_of(own: Address, to: To) -> u16
    ensures { result ≡ address_to own to }
{
    let site = own.site();
    let encoder = u16::from(own.encoder());
    match to {
        To::Own => own.value(),
        To::All => 0,
        To::AllEncoders => site * 64,
        To::AllSites => encoder,
        To::AnotherEncoder => site * 64 + another(encoder),
        To::AnotherSite => another(site) * 64 + encoder,
    }
}

/// Another number than this.
#[tactic(auto, unfolding(crate::specs::Sending::another))]
fn another(number: u16) -> u16
    requires { number < 1024 }
    ensures value { result ≡ another number }
    ensures site { result < 1024 }
    ensures encoder { number < 64 → result < 64 }
{
    if number == 1 {
        2
    } else if number % 2 == 0 {
        number + 1
    } else {
        number - 1
    }
}
