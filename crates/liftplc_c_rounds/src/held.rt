// The rounds of a world behind a pointer.

ghost use Rattle.std.specs.Prelude.{◌≡◌, Option, Some, None};
ghost use Rattle.std.specs.Coded.{coded_option};
ghost use Rattle.group_world.specs.Worlds.{WorldOf, world_of_code};

use crate::unboxed::Unboxed;
use group_rounds::kept::Rounds;
use std::alloc::Global;
use std::marker::Model;

/// A world behind a pointer, with what its rounds go on with, or none. It isn't let go of unnoticed: it is ended, or its world is taken out.
#[repr(C)]
pub struct Held {
    at: *mut u8,
    pub ghost world: { Option WorldOf } by { coded_option world_of_code },
}

impl Model for Held {
    ghost use Rattle.liftplc_c_rounds.specs.Holding.{holds};

    ghost also_owns = { λ h. holds h.at h.world };
}

impl Held {
    // The pointer of a box.
    fn of_unboxed(unboxed: Unboxed<Rounds, Global>) -> Held
        ensures { result.world ≡ Some unboxed.value.world }
    {
        let Unboxed { at, alloc: _ } = unboxed;
        Held { at: at as *mut u8 }
    }

    // The box of the pointer.
    fn into_unboxed(self, alloc: Global) -> Unboxed<Rounds, Global>
        requires { (w : WorldOf) × (self.world ≡ Some w) }
        ensures { self.world ≡ Some result.value.world }
    {
        let Held { at } = self;
        Unboxed {
            at: at as *mut Rounds,
            alloc,
        }
    }

    /// No world: a null pointer.
    pub fn none() -> Held
        ensures { result.world ≡ None }
    {
        Held {
            at: std::ptr::null_mut(),
        }
    }

    /// Ends what holds no world.
    pub fn end(self)
        requires { self.world ≡ None }
    {
        let Held { at: _ } = self;
    }

    /// The world goes behind its pointer.
    pub fn of(rounds: Box<Rounds, Global>) -> Held
        ensures { result.world ≡ Some rounds.value.world }
    {
        Held::of_unboxed(Unboxed::from_box(rounds))
    }

    /// The world comes back.
    pub fn into_rounds(self, alloc: Global) -> Box<Rounds, Global>
        requires { (w : WorldOf) × (self.world ≡ Some w) }
        ensures { self.world ≡ Some result.value.world }
    {
        self.into_unboxed(alloc).into_box()
    }
}
