// The faults of types.

ghost use Rattle.std.specs.Prelude.{◌≡◌, Some, None};
ghost use Rattle.il_statics.specs.Declarations as rules;
ghost use Rattle.il_statics.specs.Lowest.{lowest, lower_of, numbered_at};
ghost use Rattle.load_types.specs.TypeFaults.{type_fault_number};

use il_statics::{Found, PhaseFault};
use il_syntax::tree::Place;
use std::marker::Model;
use thiserror::Error;

/// What an instruction, a jump or a store breaks (IEC 61131-3:2003, 3.2.2, 3.2.3).
#[derive(Clone, Copy, Debug, Drop, PartialEq, Eq, Error)]
pub enum TypeFault {
    /// An operand, a result or a target of another kind than is wanted.
    #[error("a wrong kind")]
    WrongKind,
    /// Another integer type than is wanted, or a bare number that has none.
    #[error("another type of the same kind")]
    WrongType,
    /// No current result where one is wanted.
    #[error("no current result")]
    NoResult,
    /// A store into what is only read (2.4.3).
    #[error("a name that is only read")]
    NotWritable,
    /// A jump to a label that its body lacks.
    #[error("an unknown label")]
    UnknownLabel,
    /// A jump that does not go forward (own rule).
    #[error("a jump that does not go forward")]
    BackwardJump,
    /// A call with other arguments than are wanted (2.5.1.5).
    #[error("wrong arguments")]
    Arguments,
    /// A global into which two tasks store (own rule).
    #[error("a global that two tasks write")]
    TwoWriters,
    /// An instruction that no control path reaches (own rule).
    #[error("an instruction that no control path reaches")]
    Unreachable,
}

impl PhaseFault for TypeFault {
    ghost number_of = { type_fault_number };

    fn number(self) -> u16 {
        match self {
            TypeFault::WrongKind => 30,
            TypeFault::WrongType => 31,
            TypeFault::NoResult => 32,
            TypeFault::NotWritable => 33,
            TypeFault::UnknownLabel => 34,
            TypeFault::BackwardJump => 35,
            TypeFault::Arguments => 37,
            TypeFault::TwoWriters => 38,
            TypeFault::Unreachable => 39,
        }
    }
}

/// Of the faults at one place the one with the lowest number, if there is one. Contracts see its number.
#[derive(Drop)]
pub struct LowestFault {
    fault: Option<TypeFault>,
}

impl Model for LowestFault {
    ghost use Rattle.std.specs.Prelude.{ℕ, Option};
    ghost use Rattle.std.specs.Coded.{coded_option, coded_ℕ};
    ghost use Rattle.load_types.specs.TypeFaults.{numbered};

    ghost Value = { Option ℕ };

    ghost coded = { coded_option coded_ℕ };

    ghost view = { λ l. numbered l.fault };
}

impl LowestFault {
    /// No fault.
    pub fn none() -> LowestFault
        ensures { result ≡ None }
    {
        LowestFault { fault: None }
    }

    /// This fault alone.
    pub fn of(fault: TypeFault) -> LowestFault
        ensures { result ≡ Some (type_fault_number fault) }
    {
        LowestFault { fault: Some(fault) }
    }

    /// As a fault at a place.
    pub fn at(self, place: Place) -> Option<Found<TypeFault>>
        ensures { result ≡ numbered_at self place }
    {
        match self.fault {
            Some(fault) => Some(Found::of(fault, place)),
            None => None,
        }
    }
}

/// The lower of two.
pub fn lower(first: LowestFault, second: LowestFault) -> LowestFault
    ensures { result ≡ lower_of first second }
{
    match (first.fault, second.fault) {
        (Some(a), Some(b)) => {
            if b.number() < a.number() {
                second
            } else {
                first
            }
        }
        (Some(_), None) => first,
        (None, _) => second,
    }
}

/// A fault where a test fails.
pub fn unless(holds: bool, fault: TypeFault) -> LowestFault
    ensures { result ≡ lowest (rules.unless holds (type_fault_number fault)) }
{
    if holds {
        LowestFault::none()
    } else {
        LowestFault::of(fault)
    }
}
