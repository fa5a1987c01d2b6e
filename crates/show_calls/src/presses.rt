// Presses that no refresh has entered yet.

ghost use Rattle.std.specs.Prelude.{◌≡◌, ◌++◌, ◌∷◌, [], OnOk, IfSome, IsNone, None};
ghost use Rattle.show_calls.specs.Presses.{first_pressed, without_first, is_same, IsFirstOf};

use group_spec::calls::Call;
use std::alloc::{AllocError, Global};
use std::marker::Model;

/// A call that was pressed, and the round.
#[derive(Clone, Copy)]
pub struct Pressed {
    pub call: Call,
    pub round: u32,
}

/// Presses that no refresh has entered yet, in the order in which they came.
#[derive(Drop)]
pub struct Presses {
    items: Vec<Pressed>,
}

impl Model for Presses {
    ghost use Rattle.std.specs.Prelude.{List};
    ghost use Rattle.show_calls.specs.declared.presses.Pressed.{Pressed};

    ghost Value = { List Pressed };

    ghost view = { λ p. p.items.items };
}

impl Presses {
    /// No press.
    pub fn new(alloc: Global) -> Presses
        ensures { result ≡ [] }
    {
        Presses {
            items: Vec::new(alloc),
        }
    }

    /// Adds one.
    pub fn push(&mut self, pressed: Pressed) -> Result<(), AllocError>
        ensures { OnOk result (self.new ≡ self.old ++ pressed ∷ []) }
    {
        self.items.push(pressed)?;
        Ok(())
    }

    /// Takes out the first press of a call, if there is one, and gives its round.
    pub fn take(&mut self, call: Call) -> Option<u32>
        ensures round { result ≡ first_pressed call self.old }
        ensures rest { self.new ≡ without_first call self.old }
    {
        let index = first_of(self.items.as_slice(), call)?;
        Some(self.items.remove(index).round)
    }
}

// The index of the first press of a call.
fn first_of(presses: &[Pressed], call: Call) -> Option<usize>
    ensures some { IfSome result (IsFirstOf call presses.now) }
    ensures none { IsNone result → (first_pressed call presses.now ≡ None)
        × (without_first call presses.now ≡ presses.now) }
{
    'presses: for (index, pressed) in presses.iter().enumerate() {
        if is_same(pressed.call, call) {
            return Some(index);
        }
    }
    None
}

// Whether two calls are the same.
fn is_same(one: Call, other: Call) -> bool
    ensures { result ≡ is_same one other }
{
    one.from == other.from && one.to == other.to
}
