//! Frames in pieces of a stream. Source: RDS Forum SPB 490, frame format.
ghost use Rattle.std.specs.Prelude.{◌≡◌, Some, None, take};
ghost use Rattle.uecp_frame.specs.Findings.{Closed};
ghost use Rattle.uecp_frame.specs.Beyond.{open_beyond};
ghost use Rattle.c_values.specs.declared.object.Object.TheVariants as object;
ghost use Rattle.c_values.specs.Statuses.{done};
ghost use Rattle.c_values.specs.Kinds.{deframer_of};
ghost use Rattle.c_values.specs.Calls.{IsNew, Calls, UsesToNext};
ghost use Rattle.uecp_objects_c.specs.Told.{TellsFinding};

use crate::handles::any::is_occupied;
use c_values::status::{DONE, EMPTY, NO_MEMORY, OCCUPIED, OTHER_KIND};
use c_values::{Finding, Handle, Object, put, show, take};
use std::alloc::Global;
use uecp_frame::Deframer;

/// Puts a new deframer into a handle that has nothing: no segment is open.
#[unsafe(no_mangle)]
pub extern "C" fn uecp_deframer_new(alloc: Global, handle: &mut Handle) -> u8
    ensures { IsNew handle.old.object.value handle.new.object.value None (object.Deframer Closed) result }
{
    if is_occupied(alloc, handle) {
        return OCCUPIED;
    }
    match Box::new(alloc, Object::Deframer(Deframer::new())) {
        Ok(object) => {
            put(handle, object);
            DONE
        }
        Err(_) => NO_MEMORY,
    }
}

/// Feeds a deframer, and tells what it found.
fn feed(deframer: &mut Deframer, piece: &[u8], used: &mut usize, finding: &mut Finding)
    ensures state { deframer.new ≡ open_beyond deframer.old (take used.new piece.now) }
    ensures uses { UsesToNext deframer.old piece.now used.new }
    ensures tells { TellsFinding deframer.old (take used.new piece.now) finding.old finding.new }
{
    let fed = deframer.feed_ref(piece);
    *used = fed.used;
    show(&fed.found, finding);
}

/// Feeds the deframer of a handle with a piece of its stream: tells the next finding in `finding`, and in `used` how
/// many bytes were used for it. The rest is to be fed next.
#[unsafe(no_mangle)]
pub extern "C" fn uecp_deframer_feed(
    alloc: Global,
    handle: &mut Handle,
    piece: &[u8],
    used: &mut usize,
    finding: &mut Finding,
) -> u8
    ensures { Calls (deframer_of handle.old.object.value) result
        ((handle.new.object.value ≡ handle.old.object.value) × (used.new ≡ used.old) × (finding.new ≡ finding.old))
        (λ part. (result ≡ done)
        × (handle.new.object.value ≡ Some (object.Deframer (open_beyond part (take used.new piece.now))))
        × UsesToNext part piece.now used.new
        × TellsFinding part (take used.new piece.now) finding.old finding.new) }
{
    let Some(mut object) = take(alloc, handle) else {
        return EMPTY;
    };
    let status = match &mut *object {
        Object::Deframer(deframer) => {
            feed(deframer, piece, used, finding);
            DONE
        }
        _ => OTHER_KIND,
    };
    put(handle, object);
    status
}
