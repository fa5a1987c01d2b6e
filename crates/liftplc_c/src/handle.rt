// A handle, as C keeps it.

ghost use Rattle.std.specs.Prelude.{◌≡◌, is_some, Option, Some, None, IfSome, IfNone};
ghost use Rattle.std.specs.Option.{ForSome};
ghost use Rattle.liftplc_c.specs.Handles.{Rests};

use group_rounds::kept::Rounds;
use liftplc_c_rounds::Held;
use std::alloc::Global;
use std::mem::replace;

/// What C keeps of a controller: its world, between two calls, with what its rounds go on with, or none. All bytes 0 are none.
#[repr(C)]
pub struct Handle {
    pub held: Held,
    pub is_open: bool,
    pub ghost fits: { is_open ≡ is_some held.world },
    pub ghost rests: { ForSome held.world (λ w. Rests w.world) },
}

impl Handle {
    /// No world.
    pub fn closed() -> Handle
        ensures { result.held.world ≡ None }
    {
        Handle {
            held: Held::none(),
            is_open: false,
        }
    }

    /// A world between two calls.
    pub fn opened(rounds: Box<Rounds, Global>) -> Handle
        requires { Rests rounds.value.world.world }
        ensures { result.held.world ≡ Some rounds.value.world }
    {
        Handle {
            held: Held::of(rounds),
            is_open: true,
        }
    }

    /// The world is taken out, if there is one.
    pub fn take(&mut self, alloc: Global) -> Option<Box<Rounds, Global>>
        ensures left { self.new.held.world ≡ None }
        ensures some { IfSome result (λ b. self.old.held.world ≡ Some b.value.world) }
        ensures rests { IfSome result (λ b. Rests b.value.world.world) }
        ensures none { IfNone result (self.old.held.world ≡ None) }
    {
        let Handle { held, is_open } = replace(self, Handle::closed());
        if is_open {
            Some(held.into_rounds(alloc))
        } else {
            held.end();
            None
        }
    }

    /// A world goes in, where there is none.
    pub fn put(&mut self, rounds: Box<Rounds, Global>)
        requires none { self.old.held.world ≡ None }
        requires rests { Rests rounds.value.world.world }
        ensures { self.new.held.world ≡ Some rounds.value.world }
    {
        let Handle { held, is_open: _ } = replace(self, Handle::opened(rounds));
        held.end();
    }
}
