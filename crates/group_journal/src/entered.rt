// The calls that a refresh entered, as an entry keeps them.

ghost use Rattle.std.specs.Prelude.{◌≡◌};
ghost use Rattle.group_spec.specs.Hands.{IsInOrder};
ghost use Rattle.group_journal.specs.Entered.{calls, AllHaveWords};

use group_spec::hand::Hand;
use group_spec::report::EnteredCall;

/// The set of the calls that a refresh entered.
pub fn calls_of(entered: &[EnteredCall]) -> Hand
    requires words { AllHaveWords entered.now }
    requires order { IsInOrder (calls entered.now) }
    ensures { result ≡ calls entered.now }
{
    let mut calls = Hand::new();
    'entered: for one in entered {
        calls.insert(one.call);
    }
    calls
}
