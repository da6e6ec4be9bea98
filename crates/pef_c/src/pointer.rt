//! A value on the heap as its pointer, as the handles of C hold it.
ghost use Rattle.std.specs.Prelude.{◌≡◌, None, Some, Option, true};
ghost use Rattle.std.specs.Option.{is_some};
ghost use Rattle.pef_c.specs.Handles.{boxed};

use std::alloc::Global;
use std::marker::Model;
use std::ptr::null_mut;

/// A pointer to a value on the heap, which it owns; or null, which owns nothing.
pub(crate) struct Pointer<T> {
    pub(crate) at: *mut T,
    pub(crate) ghost value: { Option T },
}

impl<T> Model for Pointer<T> {
    ghost also_owns = { λ p. boxed T.row p.at p.value };
}

impl<T: Drop> Pointer<T> {
    /// Returns the null pointer.
    pub(crate) fn none() -> Pointer<T>
        ensures { result.value ≡ None }
    {
        Pointer { at: null_mut() }
    }

    /// Takes the pointer out of a box.
    pub(crate) fn from_box(boxed: Box<T, Global>) -> Pointer<T>
        ensures { result.value ≡ Some boxed.value }
    {
        let (at, _) = Box::into_raw_with_allocator(boxed);
        Pointer { at }
    }

    /// Makes the box again, of a pointer that isn't null.
    pub(crate) fn into_box(self, alloc: Global) -> Box<T, Global>
        requires { is_some self.value ≡ true }
        ensures { Some result.value ≡ self.value }
    {
        let Pointer { at } = self;
        unsafe { Box::from_raw(alloc, at) }
    }
}
