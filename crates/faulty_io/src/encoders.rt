//! Encoders of site 1, encoder 1, and what they answer.
ghost use Rattle.std.specs.Prelude.{◌≡◌, ◌+◌, ◌%◌, ◌^◌, None, length};
ghost use Rattle.uecp_elements.specs.declared.code.Code.TheVariants.{Applied};

use crate::frames::{framed, own_address, reply_made};
use rds_store::{Group, RdsStore, Service};
use std::alloc::Global;
use uecp_elements::Code;
use uecp_encoder::{Encoder, Target, What};

/// Counts the messages that it is given, and their bytes.
#[derive(Clone, Copy, Debug, Default, PartialEq, Eq)]
pub struct CountTarget {
    /// How many messages.
    pub messages: u64,
    /// How many bytes they had.
    pub bytes: u64,
}

impl Target for CountTarget {
    ghost step = { λ v m. (
      record { messages = (v.messages + 1) % 2 ^ 64; bytes = (v.bytes + length m) % 2 ^ 64 },
      Applied,
    ) };

    ghost taken = { λ v. (v, None) };

    fn apply(&mut self, message: &[u8]) -> Code {
        self.messages = self.messages.wrapping_add(1);
        self.bytes = self.bytes.wrapping_add(message.len() as u64);
        Code::Applied
    }

    fn take(&mut self) -> Option<Group> {
        None
    }
}

/// A new encoder with this target. It fails where there is no memory for it.
pub fn new_encoder<T: Target + Drop>(alloc: Global, target: T) -> Result<Encoder<T>, &'static str> {
    Encoder::new(alloc, own_address(), target).or(Err("no memory"))
}

/// A new encoder with this many data sets and service 01. It fails where there is no memory for it, or where there are
/// no such sets.
pub fn new_store_encoder(alloc: Global, sets: u8) -> Result<Encoder<RdsStore>, &'static str> {
    let store = RdsStore::new(alloc, sets, &[0x01]).or(Err("no store"))?;
    new_encoder(alloc, store)
}

/// Whether the encoder uses the whole frame and answers it with this reply, which is fresh or a kept one.
pub fn replies<T: Target>(
    encoder: &mut Encoder<T>,
    frame: &[u8],
    reply: &[u8],
    fresh: bool,
) -> bool {
    let answer = encoder.feed(frame);
    match answer.what {
        What::Reply(bytes, is_fresh) => {
            answer.used == frame.len() && bytes.as_slice() == reply && is_fresh == fresh
        }
        _ => false,
    }
}

/// Whether a message is fresh under this counter, and comes to a reply with this code.
pub fn comes_to<T: Target>(
    encoder: &mut Encoder<T>,
    counter: u8,
    message: &[u8],
    code: u8,
) -> bool {
    let frame = framed(counter, message);
    let reply = reply_made(code, counter);
    replies(encoder, frame.as_slice(), reply.as_slice(), true)
}

/// The programme that service 01 has in a set, or none where it is not there.
pub fn pi_of(store: &RdsStore, set: u8) -> Option<u16> {
    store.service(set, 0x01).map(Service::pi)
}

/// How many texts service 01 has in a set, or none where it is not there.
pub fn texts_of(store: &RdsStore, set: u8) -> Option<usize> {
    store
        .service(set, 0x01)
        .map(|service| service.texts().len())
}
