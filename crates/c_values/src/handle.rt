//! What a caller in C keeps of an object. Source: profile.
ghost use Rattle.std.specs.Prelude.{◌≡◌, Some, None, is_some, option_map, true, false};

use crate::object::Object;
use crate::slot::Slot;
use crate::unboxed::Unboxed;
use std::alloc::Global;
use std::mem::replace;

/// What a caller keeps of an object: where it lies, and whether it is there.
#[repr(C)]
#[derive(Drop)]
pub struct Handle {
    pub object: Slot,
    is_there: bool,
    ghost told: { is_some object.value ≡ is_there },
}

/// Puts an object into a handle that has none.
pub fn put(handle: &mut Handle, object: Box<Object>)
    requires { handle.old.object.value ≡ None }
    ensures { handle.new.object.value ≡ Some object.value }
{
    *handle = Handle {
        object: Slot::of(Unboxed::of(object)),
        is_there: true,
    };
}

/// Takes the object out of a handle, if there is one.
pub fn take(alloc: Global, handle: &mut Handle) -> Option<Box<Object>>
    ensures given { option_map (λ b. b.value) result ≡ handle.old.object.value }
    ensures left { handle.new.object.value ≡ None }
{
    let empty = Handle {
        object: Slot::empty(alloc),
        is_there: false,
    };
    let Handle { object, is_there } = replace(handle, empty);
    if is_there {
        Some(object.into_unboxed().into_box())
    } else {
        None
    }
}

/// A handle may go from one thread to another between two calls, with the object that it has.
pub fn goes_to_any_thread() {
    needs_send::<Handle>();
}

/// Asks for a type that may go from one thread to another.
fn needs_send<T: Send>() {}
