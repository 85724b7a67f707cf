//! An encoder's end of the line, over its store. Source: RDS Forum SPB 490, two-way mode; profile for how it is told.
ghost use Rattle.std.specs.Prelude.{◌≡◌, ◌*◌, ◌+◌, Some, None, take, IfOk, IfErr, unwrap_or};
ghost use Rattle.rds_store.specs.Opening.{opening as opening_store};
ghost use Rattle.rds_store.specs.Step.{step};
ghost use Rattle.uecp_encoder.specs.State.{opening, fed};
ghost use Rattle.uecp_encoder.specs.Answering.{responses_to, responses_of};
ghost use Rattle.c_values.specs.declared.object.Object.TheVariants as object;
ghost use Rattle.c_values.specs.Statuses.{done, no_memory};
ghost use Rattle.uecp_objects_c.specs.Faults.{own_address, encoder_fault};
ghost use Rattle.c_values.specs.Kinds.{encoder_of};
ghost use Rattle.c_values.specs.Calls.{IsNew, Calls, UsesToNext};
ghost use Rattle.uecp_objects_c.specs.Told.{told_responses};

use crate::handles::addresses::own_address;
use crate::handles::any::is_occupied;
use c_values::status::{
    BEFORE_STORE_FAULTS, DONE, EMPTY, NO_ADDRESS, NO_MEMORY, OCCUPIED, OTHER_KIND,
};
use c_values::{Handle, Object, place_of, put, take};
use rds_store::{RdsStore, StoreFault};
use std::alloc::Global;
use uecp_encoder::{Encoder, What};

/// What an encoder answered, as C reads it.
#[repr(C)]
#[derive(Clone, Copy)]
pub struct Answer {
    /// 0 where no segment ended, 1 a reply, 2 a frame for another, 3 one with counter 00, 4 one that is not the next, 5
    /// a segment that is no frame.
    pub kind: u8,
    /// Of a reply whether its message was applied now, and not before.
    pub is_fresh: bool,
    /// Of a segment that is no frame the number of its fault, 1 to 6.
    pub fault: u8,
    /// Of a reply how many bytes it has, 11 to 16.
    pub length: u8,
    /// Of a reply its bytes, at the start.
    pub reply: [u8; 16],
    /// Of a segment that is no frame the place of the FD where it is badly stuffed, counted from 0 at its FE, else 0.
    pub place: usize,
}

/// An encoder at an address of its own over a new store, in a box; or the status that says why there is none.
fn boxed(
    alloc: Global,
    site: u16,
    encoder: u8,
    sets: u8,
    services: &[u8],
) -> Result<Box<Object>, u8>
    ensures ok { IfOk result (λ made. (encoder_fault (own_address site encoder) sets services.now ≡ None)
        × (made.value ≡ object.Encoder (opening (site * 64 + encoder) (opening_store sets services.now)))) }
    ensures err { IfErr result (λ status. status
        ≡ unwrap_or (encoder_fault (own_address site encoder) sets services.now) no_memory) }
{
    let Some(address) = own_address(site, encoder) else {
        return Err(NO_ADDRESS);
    };
    let store = match RdsStore::new(alloc, sets, services) {
        Ok(store) => store,
        Err(StoreFault::OutOfMemory) => return Err(NO_MEMORY),
        Err(fault) => return Err(BEFORE_STORE_FAULTS + fault.number()),
    };
    let Ok(encoder) = Encoder::new(alloc, address, store) else {
        return Err(NO_MEMORY);
    };
    match Box::new(alloc, Object::Encoder(encoder)) {
        Ok(object) => Ok(object),
        Err(_) => Err(NO_MEMORY),
    }
}

/// Puts a new encoder into a handle that has nothing: at this address, over the opening store of so many data sets and
/// these services, the main one first. It has applied nothing, and its next message has counter 01.
#[unsafe(no_mangle)]
pub extern "C" fn uecp_encoder_new(
    alloc: Global,
    handle: &mut Handle,
    site: u16,
    encoder: u8,
    sets: u8,
    services: &[u8],
) -> u8
    ensures { IsNew handle.old.object.value handle.new.object.value
        (encoder_fault (own_address site encoder) sets services.now)
        (object.Encoder (opening (site * 64 + encoder) (opening_store sets services.now))) result }
{
    if is_occupied(alloc, handle) {
        return OCCUPIED;
    }
    match boxed(alloc, site, encoder, sets, services) {
        Ok(object) => {
            put(handle, object);
            DONE
        }
        Err(status) => status,
    }
}

/// Tells what an encoder answered.
fn show(what: &What<'_>, answer: &mut Answer)
    ensures { answer.new ≡ told_responses answer.old (responses_of what.now) }
{
    match what {
        What::Nothing => answer.kind = 0,
        What::Reply(reply, is_fresh) => {
            let length = reply.len();
            answer.kind = 1;
            answer.is_fresh = *is_fresh;
            answer.length = length as u8;
            answer.reply[..length].copy_from_slice(reply.as_slice());
        }
        What::NotForMe => answer.kind = 2,
        What::Unnumbered => answer.kind = 3,
        What::NotNext => answer.kind = 4,
        What::Dropped(fault) => {
            answer.kind = 5;
            answer.fault = fault.number();
            answer.place = place_of(*fault);
        }
    }
}

/// Feeds an encoder, and tells what it answered.
fn feed(encoder: &mut Encoder<RdsStore>, piece: &[u8], used: &mut usize, answer: &mut Answer)
    ensures state { encoder.new ≡ fed step encoder.old (take used.new piece.now) }
    ensures uses { UsesToNext encoder.old.part piece.now used.new }
    ensures tells { answer.new
        ≡ told_responses answer.old (responses_to step encoder.old (take used.new piece.now)) }
{
    let said = encoder.feed(piece);
    *used = said.used;
    show(&said.what, answer);
}

/// Feeds the encoder of a handle with a piece of what comes over its line: tells in `answer` what the next finding
/// brought, and in `used` how many bytes were used for it. A reply is to be sent, and the rest to be fed next.
#[unsafe(no_mangle)]
pub extern "C" fn uecp_encoder_feed(
    alloc: Global,
    handle: &mut Handle,
    piece: &[u8],
    used: &mut usize,
    answer: &mut Answer,
) -> u8
    ensures { Calls (encoder_of handle.old.object.value) result
        ((handle.new.object.value ≡ handle.old.object.value) × (used.new ≡ used.old) × (answer.new ≡ answer.old))
        (λ e. (result ≡ done)
        × (handle.new.object.value ≡ Some (object.Encoder (fed step e (take used.new piece.now))))
        × UsesToNext e.part piece.now used.new
        × (answer.new ≡ told_responses answer.old (responses_to step e (take used.new piece.now)))) }
{
    let Some(mut object) = take(alloc, handle) else {
        return EMPTY;
    };
    let status = match &mut *object {
        Object::Encoder(encoder) => {
            feed(encoder, piece, used, answer);
            DONE
        }
        _ => OTHER_KIND,
    };
    put(handle, object);
    status
}
