//! Objects of any kind. Source: profile.
ghost use Rattle.std.specs.Prelude.{◌≡◌, Some, None, IfSome, is_some};
ghost use Rattle.c_values.specs.Statuses.{done, empty};
ghost use Rattle.c_values.specs.Kinds.{line_lost};

use c_values::status::{DONE, EMPTY};
use c_values::{Handle, Object, put, take};
use std::alloc::Global;

/// Gives back the object of a handle, and all its memory. The handle has none then; so it may be given back again, and
/// a new one may be put there.
#[unsafe(no_mangle)]
pub extern "C" fn uecp_free(alloc: Global, handle: &mut Handle)
    ensures { handle.new.object.value ≡ None }
{
    let _object = take(alloc, handle);
}

/// Whether a handle has an object.
pub(crate) fn is_occupied(alloc: Global, handle: &mut Handle) -> bool
    ensures value { result ≡ is_some handle.old.object.value }
    ensures stays { handle.new.object.value ≡ handle.old.object.value }
{
    match take(alloc, handle) {
        Some(object) => {
            put(handle, object);
            true
        }
        None => false,
    }
}

/// Closes what an object has open.
fn close(object: &mut Object)
    ensures { object.new ≡ line_lost object.old }
{
    match object {
        Object::Deframer(deframer) => deframer.line_lost(),
        Object::Encoder(encoder) => encoder.line_lost(),
        Object::Server(server) => server.line_lost(),
    }
}

/// The line was lost: forgets the segment that has not ended, and nothing else.
#[unsafe(no_mangle)]
pub extern "C" fn uecp_line_lost(alloc: Global, handle: &mut Handle) -> u8
    ensures empty { handle.old.object.value ≡ None → (result ≡ empty) × (handle.new.object.value ≡ None) }
    ensures closed { IfSome handle.old.object.value (λ object. (result ≡ done)
        × (handle.new.object.value ≡ Some (line_lost object))) }
{
    let Some(mut object) = take(alloc, handle) else {
        return EMPTY;
    };
    close(&mut object);
    put(handle, object);
    DONE
}
