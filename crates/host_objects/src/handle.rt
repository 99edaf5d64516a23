//! What a host keeps of an object: its address.

ghost use Rattle.std.specs.Prelude.{◌≡◌, Option, Some, None, MatchOption};
ghost use Rattle.std.specs.Coded.{coded_option};
ghost use Rattle.host_objects.specs.declared.object.Object.{Object};
ghost use Rattle.host_objects.specs.contracts.object.Object.{the_row};

use crate::object::Object;
use host_box::Loose;
use std::alloc::Global;
use std::marker::Model;

/// What a host keeps: null, or the address of an object, which the handle owns. For C it is a struct of one pointer.
#[repr(C)]
pub struct Handle {
    at: *mut u8,
    alloc: Global,
    pub ghost state: { Option Object } by { coded_option the_row.coded },
}

impl Model for Handle {
    ghost use Rattle.host_objects.specs.Owning.{owned};

    ghost also_owns = { λ h. owned h.alloc h.at h.state };
}

impl Handle {
    fn empty(alloc: Global) -> Handle
        ensures { result.state ≡ None }
    {
        Handle {
            at: std::ptr::null_mut(),
            alloc,
        }
    }

    fn of(state: Loose<Object, Global>) -> Handle
        ensures { result.state ≡ Some state.value }
    {
        let Loose { at, alloc } = state;
        Handle {
            at: at as *mut u8,
            alloc,
        }
    }

    fn into_loose(self) -> Option<Loose<Object, Global>>
        ensures { MatchOption result (self.state ≡ None) (λ l. self.state ≡ Some l.value) }
    {
        let Handle { at, alloc } = self;
        if at.is_null() {
            None
        } else {
            Some(Loose {
                at: at as *mut Object,
                alloc,
            })
        }
    }

    fn into_box(self) -> Option<Box<Object>>
        ensures { MatchOption result (self.state ≡ None) (λ b. self.state ≡ Some b.value) }
    {
        match self.into_loose() {
            None => None,
            Some(loose) => Some(loose.into_box()),
        }
    }

    /// Takes the object out, and leaves the handle empty.
    pub fn take(&mut self, alloc: Global) -> Option<Box<Object>>
        ensures taken { MatchOption result (self.old.state ≡ None) (λ b. self.old.state ≡ Some b.value) }
        ensures empty { self.new.state ≡ None }
    {
        std::mem::replace(self, Handle::empty(alloc)).into_box()
    }

    /// Puts an object in. What the handle was of is freed.
    pub fn put(&mut self, object: Box<Object>)
        ensures { self.new.state ≡ Some object.value }
    {
        *self = Handle::of(Loose::of(object));
    }
}

impl Drop for Handle {
    fn drop(self) {
        if let Some(object) = self.into_box() {
            drop(object);
        }
    }
}

// An object shares nothing with another one, so a handle may be passed to another thread. That is proved manually,
// in `proofs/`.
unsafe impl Send for Handle {}
