//! The free-format groups of an encoder's store. Source: RDS Forum SPB 490, free-format group; profile for its layout.
ghost use Rattle.std.specs.Prelude.{◌≡◌, Some, None, slice_get};
ghost use Rattle.rds_store.specs.Step.{group_taken};
ghost use Rattle.c_values.specs.declared.object.Object.TheVariants as object;
ghost use Rattle.c_values.specs.Kinds.{encoder_of};
ghost use Rattle.c_values.specs.Calls.{Calls, Finds};
ghost use Rattle.uecp_objects_c.specs.Told.{told_group};

use c_values::status::{DONE, EMPTY, NOT_THERE, OTHER_KIND};
use c_values::{Handle, Object, put, take};
use rds_store::{Group, RdsStore};
use std::alloc::Global;
use uecp_encoder::Encoder;

/// A group, as C reads it.
#[repr(C)]
#[derive(Clone, Copy)]
pub struct PlainGroup {
    /// Its type times two, plus 1 for version B: 00 to 1F.
    pub kind: u8,
    /// The last five bits of block 2: 00 to 1F.
    pub bits: u8,
    /// Block 3 as it is sent, high byte first.
    pub block3: u16,
    /// Block 4 as it is sent, high byte first.
    pub block4: u16,
}

/// Tells a group.
fn show(found: &Group, group: &mut PlainGroup)
    ensures { group.new ≡ told_group found.now }
{
    group.kind = found.kind;
    group.bits = found.bits;
    group.block3 = found.block3;
    group.block4 = found.block4;
}

/// Tells the group at a place among those that wait.
fn show_at(store: &RdsStore, place: usize, group: &mut PlainGroup) -> u8
    ensures { Finds (slice_get store.now.groups place) result (group.new ≡ group.old)
        (λ g. group.new ≡ told_group g) }
{
    match store.groups().get(place) {
        Some(found) => {
            show(found, group);
            DONE
        }
        None => NOT_THERE,
    }
}

/// Tells the group at a place among those that wait at a handle's encoder, the first to go out at 0. It waits on.
#[unsafe(no_mangle)]
pub extern "C" fn uecp_encoder_group(
    alloc: Global,
    handle: &mut Handle,
    place: usize,
    group: &mut PlainGroup,
) -> u8
    ensures told { Calls (encoder_of handle.old.object.value) result (group.new ≡ group.old)
        (λ e. Finds (slice_get e.value.groups place) result (group.new ≡ group.old)
        (λ g. group.new ≡ told_group g)) }
    ensures stays { handle.new.object.value ≡ handle.old.object.value }
{
    let Some(object) = take(alloc, handle) else {
        return EMPTY;
    };
    let status = match &*object {
        Object::Encoder(encoder) => show_at(encoder.target(), place, group),
        _ => OTHER_KIND,
    };
    put(handle, object);
    status
}

/// Takes the first group that waits.
fn take_first(encoder: &mut Encoder<RdsStore>, group: &mut PlainGroup) -> u8
    ensures state { encoder.new ≡ record encoder.old { value = (group_taken encoder.old.value).0 } }
    ensures told { Finds (group_taken encoder.old.value).1 result (group.new ≡ group.old)
        (λ g. group.new ≡ told_group g) }
{
    match encoder.take_group() {
        Some(found) => {
            show(&found, group);
            DONE
        }
        None => NOT_THERE,
    }
}

/// Takes the group that is to go out next from a handle's encoder, and tells it. It waits no more, and nothing else
/// changes.
#[unsafe(no_mangle)]
pub extern "C" fn uecp_encoder_take_group(
    alloc: Global,
    handle: &mut Handle,
    group: &mut PlainGroup,
) -> u8
    ensures { Calls (encoder_of handle.old.object.value) result
        ((handle.new.object.value ≡ handle.old.object.value) × (group.new ≡ group.old))
        (λ e. (handle.new.object.value
        ≡ Some (object.Encoder (record e { value = (group_taken e.value).0 })))
        × Finds (group_taken e.value).1 result (group.new ≡ group.old) (λ g. group.new ≡ told_group g)) }
{
    let Some(mut object) = take(alloc, handle) else {
        return EMPTY;
    };
    let status = match &mut *object {
        Object::Encoder(encoder) => take_first(encoder, group),
        _ => OTHER_KIND,
    };
    put(handle, object);
    status
}
