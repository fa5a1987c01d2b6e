// What sees the pass go over places.

ghost use Rattle.std.specs.Prelude.{◌≡◌, ◌++◌, ℕ, List, Option, OnOk};

use std::alloc::AllocError;

/// What sees the places that the pass goes over, and writes a text of what has arrived at each.
pub trait Observer<K> {
    // The text so far.
    ghost text: { Self → List ℕ };

    // What it writes of a place, by what has arrived there.
    ghost shows: { Self → ℕ → Option K → List ℕ };

    /// The pass has come to a place, and hands on next what has arrived there.
    fn see(&mut self, place: usize, facts: &Option<K>) -> Result<(), AllocError>
        ensures text { OnOk result (text self.new ≡ text self.old
            ++ shows self.old place facts.now) }
        ensures same { OnOk result (shows self.new ≡ shows self.old) };
}

/// Nobody: nothing is written.
#[derive(Drop)]
pub struct Nobody;

impl<K> Observer<K> for Nobody {
    ghost use Rattle.std.specs.Prelude.{[]};

    ghost text = { λ _. [] };

    ghost shows = { λ _ place facts. [] };

    #[inline(always)]
    fn see(&mut self, _place: usize, _facts: &Option<K>) -> Result<(), AllocError> {
        Ok(())
    }
}
