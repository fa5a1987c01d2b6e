// Faults that were found, and which of them comes first.

ghost use Rattle.std.specs.Prelude.{◌≡◌, ℕ};
ghost use Rattle.il_syntax.specs.declared.fault.Refusal.TheVariants.{Fault};
ghost use Rattle.il_statics.specs.Least.{fault_at, fault_of, earlier_of, is_before};

use il_syntax::fault::Refusal;
use il_syntax::tree::Place;
use std::marker::Model;

/// A fault of a phase.
pub trait PhaseFault: Copy {
    /// The number that the definitions give it.
    ghost number_of: { Self → ℕ };

    /// Its number.
    fn number(self) -> u16
        ensures { result ≡ number_of self };
}

/// A broken rule, by its fault, and where it is broken. Contracts see the fault's number and the place.
#[derive(Drop)]
pub struct Found<F: PhaseFault> {
    fault: F,
    place: Place,
}

impl<F: PhaseFault> Model for Found<F> {
    ghost use Rattle.il_statics.specs.Least.{NumberedFault, fault_code, fault_at};

    ghost Value = { NumberedFault };

    ghost coded = { fault_code };

    ghost view = { λ f. fault_at (F.number_of f.fault) f.place };
}

impl<F: PhaseFault> Found<F> {
    /// This fault at this place.
    pub fn of(fault: F, place: Place) -> Found<F>
        ensures { result ≡ fault_at (F.number_of fault) place }
    {
        Found { fault, place }
    }

    /// Its number.
    pub fn number(&self) -> u16
        ensures { result ≡ self.now.number }
    {
        self.fault.number()
    }

    /// Where it is.
    pub fn place(&self) -> Place
        ensures { result ≡ self.now.place }
    {
        self.place
    }
}

/// The fault, if its rule is broken.
pub fn fault_if<F: PhaseFault>(broken: bool, fault: F, place: Place) -> Option<Found<F>>
    ensures { result ≡ fault_of broken (F.number_of fault) place }
{
    if broken {
        Some(Found::of(fault, place))
    } else {
        None
    }
}

/// Which of two faults is named: the one at the earlier place, at one place the one with the lower number.
pub fn earlier<F: PhaseFault>(first: Option<Found<F>>, second: Option<Found<F>>) -> Option<Found<F>>
    ensures { result ≡ earlier_of first second }
{
    match (first, second) {
        (Some(a), Some(b)) => {
            if comes_before(&b, &a) {
                Some(b)
            } else {
                Some(a)
            }
        }
        (Some(a), None) => Some(a),
        (None, b) => b,
    }
}

// Whether a fault is at an earlier place, or at the same with a lower number.
fn comes_before<F: PhaseFault>(a: &Found<F>, b: &Found<F>) -> bool
    ensures { result ≡ is_before a.now b.now }
{
    let (here, there) = (a.place().offset, b.place().offset);
    if here == there {
        a.number() < b.number()
    } else {
        here < there
    }
}

/// The refusal that names a fault.
pub fn refusal<F: PhaseFault>(found: Found<F>) -> Refusal
    ensures { result ≡ Fault found.number found.place }
{
    Refusal::Fault {
        number: found.number(),
        place: found.place(),
    }
}
