// The hand of a group.

ghost use Rattle.std.specs.Prelude.{◌≡◌, ◌&&◌, not, [], All};
ghost use Rattle.group_spec.specs.Calls.{enter_all, IsCall};
ghost use Rattle.group_spec.specs.Hands.{with_calls, has_from, calls_from, calls_not_from, mask_of, HasWord};
ghost use Rattle.group_spec.specs.Image.{sizes_of, FieldsInRange};
ghost use Rattle.group_spec.specs.World.{refreshed_group};

use crate::group::Core;
use group_spec::Fields;
use group_spec::hand::Hand;
use group_spec::report::Report;
use std::marker::Model;

/// The calls in the hand. Contracts see just them. Whether there are none is kept beside them, so that no refresh looks for them
/// floor by floor.
#[derive(Drop)]
pub struct Held {
    calls: Hand,
    is_blank: bool,
}

impl Model for Held {
    ghost use Rattle.std.specs.Prelude.{◌≡◌, List, [], true};
    ghost use Rattle.group_spec.specs.declared.calls.Call.{Call};

    ghost Value = { List Call };

    ghost view = { λ h. h.calls };

    ghost invariant = { λ h. h.is_blank ≡ true → h.calls ≡ [] };
}

// Whether a hand that may be empty stays so when the calls from a floor are taken.
fn stays_blank(is_blank: bool, desk: &Hand, floor: u8) -> bool
    requires { HasWord floor }
    ensures { result ≡ (is_blank && not (has_from desk.now floor)) }
{
    is_blank && !desk.has_from(floor)
}

impl Held {
    /// No call.
    pub fn new() -> Held
        ensures { result ≡ [] }
    {
        Held {
            calls: Hand::new(),
            is_blank: true,
        }
    }

    /// The calls.
    pub fn calls(&self) -> &Hand
        ensures { result.now ≡ self.now }
    {
        &self.calls
    }

    /// Whether a call from this floor is in the hand.
    pub fn has_from(&self, floor: u8) -> bool
        requires { HasWord floor }
        ensures { result ≡ has_from self.now floor }
    {
        self.calls.has_from(floor)
    }

    /// Takes the calls from a floor, and answers them, floor `to` of each as bit `to - 1`.
    pub fn take_from(&mut self, floor: u8, desk: &mut Hand) -> u16
        requires { HasWord floor }
        ensures mask { result ≡ mask_of (calls_from floor desk.old) }
        ensures rest { desk.new ≡ calls_not_from floor desk.old }
        ensures moved { self.new ≡ with_calls self.old (calls_from floor desk.old) }
    {
        self.is_blank = stays_blank(self.is_blank, desk, floor);
        desk.move_from(floor, &mut self.calls)
    }
}

/// The image takes fields in their ranges, the outputs are settled under them, and calls of the hand enter. No allocation.
#[inline(always)]
pub fn refresh(core: &mut Core, fields: &Fields, hand: &mut Held, report: &mut Report)
    requires fields { FieldsInRange (sizes_of core.old.config) fields.now }
    requires calls { All (IsCall (sizes_of core.old.config)) hand.old }
    ensures config { core.new.config ≡ core.old.config }
    ensures group { refreshed_group core.old.group fields.now hand.old
        ≡ (core.new.group, report.new) }
    ensures hand { hand.new ≡ (enter_all core.old.group.calls [] hand.old).hand }
{
    if hand.is_blank {
        core.refresh_alone(fields, report);
    } else {
        core.refresh(fields, &mut hand.calls, report);
        hand.is_blank = hand.calls.is_empty();
    }
}
