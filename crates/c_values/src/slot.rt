//! Where an object lies, as C keeps it. Source: profile.
ghost use Rattle.std.specs.Prelude.{◌≡◌, Option, Some, None, IsSome};
ghost use Rattle.c_values.specs.declared.object.Object.{Object as ObjectValue};
ghost use Rattle.c_values.specs.contracts.object.Object.{the_row};
ghost use Rattle.std.specs.Coded.{coded_option};

use crate::object::Object;
use crate::unboxed::Unboxed;
use std::alloc::Global;
use std::marker::Model;
use std::ptr::null_mut;

/// Where an object lies that is owned here, or nothing.
#[repr(C)]
#[derive(Drop)]
pub struct Slot {
    at: *mut u8,
    alloc: Global,
    pub ghost value: { Option ObjectValue } by { coded_option the_row.coded },
}

impl Model for Slot {
    ghost use Rattle.std.specs.Box.Ownership.{box_owns};
    ghost use Rattle.std.specs.contracts.impls.GlobalAllocator.TheImpl.{ghosts};
    ghost use Rattle.c_values.specs.contracts.object.Object.{the_row};
    ghost use Rattle.c_values.specs.Slots.{owned};

    ghost also_owns = { λ s. owned (box_owns (ghosts.dealloc_token s.alloc) the_row s.at) s.value };
}

// What lies there is plain data, and any thread may give its block back: proved where a function asks for it.
unsafe impl Send for Slot {}

impl Slot {
    /// The slot of an object.
    pub(crate) fn of(object: Unboxed<Object, Global>) -> Slot
        ensures { result.value ≡ Some object.value }
    {
        let Unboxed { at, alloc } = object;
        Slot {
            at: at as *mut u8,
            alloc,
        }
    }

    /// The object of a slot that has one.
    pub(crate) fn into_unboxed(self) -> Unboxed<Object, Global>
        requires { IsSome self.value }
        ensures { Some result.value ≡ self.value }
    {
        let Slot { at, alloc } = self;
        Unboxed {
            at: at as *mut Object,
            alloc,
        }
    }

    /// A slot with nothing.
    pub(crate) fn empty(alloc: Global) -> Slot
        ensures { result.value ≡ None }
    {
        Slot {
            at: null_mut(),
            alloc,
        }
    }
}
