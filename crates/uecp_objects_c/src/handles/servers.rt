//! A server's end of the line, with its window. Source: RDS Forum SPB 490, two-way mode; profile for how it is told.
ghost use Rattle.std.specs.Prelude.{◌≡◌, ◌<◌, ◌≤◌, ◌*◌, ◌+◌, Some, None, Ok, Err, [], ◌∷◌, List, ℕ, take, length};
ghost use Rattle.std.specs.Prelude.{nat_lt};
ghost use Rattle.std.specs.Prelude.{slice_get, unwrap_or, if◌then◌else◌};
ghost use Rattle.uecp_link.specs.Server.{idle_at, all_heard_as, whats_of};
ghost use Rattle.uecp_link.specs.Server.{heard as after_heard};
ghost use Rattle.uecp_frame.specs.Beyond.{found_beyond};
ghost use Rattle.c_values.specs.Buffers.{filled};
ghost use Rattle.c_values.specs.declared.object.Object.TheVariants as object;
ghost use Rattle.c_values.specs.Statuses.{done, message_length, window_full};
ghost use Rattle.uecp_objects_c.specs.Faults.{own_address, address_fault};
ghost use Rattle.c_values.specs.Kinds.{server_of};
ghost use Rattle.c_values.specs.Calls.{IsNew, Calls, UsesToNext};
ghost use Rattle.uecp_objects_c.specs.Told.{told_heards};
ghost use Rattle.uecp_objects_c.specs.Windows.{submitting, after_submitting, frame_of, count_waiting};

use crate::handles::addresses::own_address;
use crate::handles::any::is_occupied;
use c_values::buffer::put as put_bytes;
use c_values::status::{
    DONE, EMPTY, MESSAGE_LENGTH, NO_ADDRESS, NO_MEMORY, OCCUPIED, OTHER_KIND, WINDOW_FULL,
};
use c_values::{Handle, Object, place_of, put, take};
use std::alloc::Global;
use uecp_frame::Message;
use uecp_link::{HeardWhat, Server};

/// What a server heard, as C reads it.
#[repr(C)]
#[derive(Clone, Copy)]
pub struct Heard {
    /// 0 where no segment ended, 1 an acknowledgement, 2 a stray frame, 3 a segment that is no frame.
    pub kind: u8,
    /// Of an acknowledgement the counter of the message.
    pub counter: u8,
    /// Of an acknowledgement the byte of the reply code.
    pub code: u8,
    /// Of a segment that is no frame the number of its fault, 1 to 6.
    pub fault: u8,
    /// Of a segment that is no frame the place of the FD where it is badly stuffed, counted from 0 at its FE, else 0.
    pub place: usize,
}

/// Puts a new server into a handle that has nothing, for the encoder at this address: it has sent nothing, and its
/// first message will have counter 01.
#[unsafe(no_mangle)]
pub extern "C" fn uecp_server_new(alloc: Global, handle: &mut Handle, site: u16, encoder: u8) -> u8
    ensures { IsNew handle.old.object.value handle.new.object.value (address_fault (own_address site encoder))
        (object.Server (idle_at (site * 64 + encoder))) result }
{
    if is_occupied(alloc, handle) {
        return OCCUPIED;
    }
    let Some(address) = own_address(site, encoder) else {
        return NO_ADDRESS;
    };
    match Box::new(alloc, Object::Server(Server::new(address))) {
        Ok(object) => {
            put(handle, object);
            DONE
        }
        Err(_) => NO_MEMORY,
    }
}

/// Submits a message where a server has room for one.
fn submit(server: &mut Server, message: &[u8]) -> u8
    ensures said { result ≡ submitting server.old message.now }
    ensures state { server.new ≡ after_submitting server.old message.now }
{
    let Some(message) = Message::from_bytes(message) else {
        return MESSAGE_LENGTH;
    };
    if !server.has_room() {
        return WINDOW_FULL;
    }
    server.submit(&message);
    DONE
}

/// Gives the server of a handle a message to be sent, under its next counter. Its frame is the last of those that wait.
#[unsafe(no_mangle)]
pub extern "C" fn uecp_server_submit(alloc: Global, handle: &mut Handle, message: &[u8]) -> u8
    ensures { Calls (server_of handle.old.object.value) result
        (handle.new.object.value ≡ handle.old.object.value)
        (λ s. (result ≡ submitting s message.now)
        × (handle.new.object.value ≡ Some (object.Server (after_submitting s message.now)))) }
{
    let Some(mut object) = take(alloc, handle) else {
        return EMPTY;
    };
    let status = match &mut *object {
        Object::Server(server) => submit(server, message),
        _ => OTHER_KIND,
    };
    put(handle, object);
    status
}

/// How many messages wait for their reply at the server of a handle, at most 8; 0 where it has no server.
#[unsafe(no_mangle)]
pub extern "C" fn uecp_server_waiting(alloc: Global, handle: &mut Handle) -> usize
    ensures value { result ≡ count_waiting (server_of handle.old.object.value) }
    ensures stays { handle.new.object.value ≡ handle.old.object.value }
{
    let Some(object) = take(alloc, handle) else {
        return 0;
    };
    let count = match &*object {
        Object::Server(server) => server.waiting(),
        _ => 0,
    };
    put(handle, object);
    count
}

/// Puts the frame at a place among those that wait at the start of `out`.
fn put_frame(server: &Server, place: usize, out: &mut [u8]) -> usize
    ensures length { result ≡ length (frame_of (Ok server.now) place) }
    ensures written { out.new ≡ filled (frame_of (Ok server.now) place) out.old }
{
    match server.frame(place) {
        Some(frame) => put_bytes(frame, out),
        None => 0,
    }
}

/// Puts the frame of one of the messages that wait at the server of a handle, the oldest first, from 0, at the start of
/// `out`, and tells how many bytes it has, 8 to 524. Where `out` is shorter than that, nothing is written. 0, and
/// nothing is written, where fewer wait, or the handle has no server.
#[unsafe(no_mangle)]
pub extern "C" fn uecp_server_frame(
    alloc: Global,
    handle: &mut Handle,
    place: usize,
    out: &mut [u8],
) -> usize
    ensures length { result ≡ length (frame_of (server_of handle.old.object.value) place) }
    ensures written { out.new ≡ filled (frame_of (server_of handle.old.object.value) place) out.old }
    ensures stays { handle.new.object.value ≡ handle.old.object.value }
{
    let Some(object) = take(alloc, handle) else {
        return 0;
    };
    let count = match &*object {
        Object::Server(server) => put_frame(server, place, out),
        _ => 0,
    };
    put(handle, object);
    count
}

/// Tells what a server heard.
fn show(what: &HeardWhat, heard: &mut Heard)
    ensures { heard.new ≡ told_heards heard.old (whats_of what.now) }
{
    match what {
        HeardWhat::Nothing => heard.kind = 0,
        HeardWhat::Acknowledged { counter, code } => {
            heard.kind = 1;
            heard.counter = *counter;
            heard.code = code.byte();
        }
        HeardWhat::Stray => heard.kind = 2,
        HeardWhat::Dropped(fault) => {
            heard.kind = 3;
            heard.fault = fault.number();
            heard.place = place_of(*fault);
        }
    }
}

/// Lets a server hear a piece, and tells what that brought.
fn hear(server: &mut Server, piece: &[u8], used: &mut usize, heard: &mut Heard)
    ensures state { server.new ≡ after_heard server.old (take used.new piece.now) }
    ensures uses { UsesToNext server.old.part piece.now used.new }
    ensures tells { heard.new ≡ told_heards heard.old
        (all_heard_as server.old (found_beyond server.old.part (take used.new piece.now))) }
{
    let said = server.hear(piece);
    *used = said.used;
    show(&said.what, heard);
}

/// Lets the server of a handle hear a piece of what comes over its line: tells in `heard` what the next finding
/// brought, and in `used` how many bytes were used for it. The rest is to be heard next.
#[unsafe(no_mangle)]
pub extern "C" fn uecp_server_hear(
    alloc: Global,
    handle: &mut Handle,
    piece: &[u8],
    used: &mut usize,
    heard: &mut Heard,
) -> u8
    ensures { Calls (server_of handle.old.object.value) result
        ((handle.new.object.value ≡ handle.old.object.value) × (used.new ≡ used.old) × (heard.new ≡ heard.old))
        (λ s. (result ≡ done)
        × (handle.new.object.value ≡ Some (object.Server (after_heard s (take used.new piece.now))))
        × UsesToNext s.part piece.now used.new
        × (heard.new ≡ told_heards heard.old (all_heard_as s (found_beyond s.part (take used.new piece.now))))) }
{
    let Some(mut object) = take(alloc, handle) else {
        return EMPTY;
    };
    let status = match &mut *object {
        Object::Server(server) => {
            hear(server, piece, used, heard);
            DONE
        }
        _ => OTHER_KIND,
    };
    put(handle, object);
    status
}
