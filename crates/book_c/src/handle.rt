//! A handle, as C has it: one word.
ghost use Rattle.std.specs.Prelude.{◌≡◌, ◌≢◌};
ghost use Rattle.std.specs.Ptr.{null_ptr};
ghost use Rattle.book_c.specs.declared.kept.Kept.{Kept};
ghost use Rattle.book_c.specs.inner.Handles.{keeps, kept_coded};

pub mod parts;

use crate::kept::Kept;
use parts::Parts;
use std::alloc::Global;
use std::marker::Model;

/// What is kept for C, or nothing where the pointer is null. Whoever has the handle has what is
/// kept.
#[repr(C)]
#[derive(Drop)]
pub struct Handle {
    at: *mut u8,
    alloc: Global,
    pub ghost kept: { Kept } by { kept_coded },
}

impl Model for Handle {
    ghost also_owns = { λ h. keeps h.alloc h.at h.kept };
}

impl Handle {
    /// Nothing.
    pub fn none(alloc: Global) -> Handle
        ensures { result.at ≡ null_ptr }
    {
        Handle {
            at: std::ptr::null_mut(),
            alloc,
        }
    }

    /// A handle of this.
    pub fn of_parts(parts: Parts<Kept, Global>) -> Handle
        ensures some { result.at ≢ null_ptr }
        ensures kept { result.kept ≡ parts.value }
    {
        let Parts { ptr, alloc } = parts;
        Handle {
            at: ptr as *mut u8,
            alloc,
        }
    }

    /// What was kept.
    pub fn into_parts(self) -> Parts<Kept, Global>
        requires { self.at ≢ null_ptr }
        ensures { result.value ≡ self.kept }
    {
        let Handle { at, alloc } = self;
        Parts {
            ptr: at as *mut Kept,
            alloc,
        }
    }
}
