// A box without its type: where it lies, and who frees it.

ghost use Rattle.std.specs.Prelude.{◌≡◌};
ghost use Rattle.std.specs.Box.Ownership.{box_owns};

use std::alloc::Allocator;
use std::marker::Model;

/// What is left of a box: its pointer and its allocator. Whoever has it owns the value behind the pointer.
pub(crate) struct Unboxed<T, A: Allocator> {
    pub(crate) at: *mut T,
    pub(crate) alloc: A,
    pub(crate) ghost value: { T },
}

impl<T, A: Allocator> Model for Unboxed<T, A> {
    ghost also_owns = { λ u. box_owns (A.dealloc_token u.alloc) T.row u.at u.value };
}

impl<T: Drop, A: Allocator> Unboxed<T, A> {
    /// The box is taken apart.
    pub(crate) fn from_box(whole: Box<T, A>) -> Unboxed<T, A>
        ensures { result.value ≡ whole.value }
    {
        let (at, alloc) = Box::into_raw_with_allocator(whole);
        Unboxed { at, alloc }
    }

    /// The box is put together again.
    pub(crate) fn into_box(self) -> Box<T, A>
        ensures { result.value ≡ self.value }
    {
        let Unboxed { at, alloc } = self;
        unsafe { Box::from_raw(alloc, at) }
    }
}
