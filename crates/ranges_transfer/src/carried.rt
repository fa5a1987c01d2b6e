// Facts as they are handed from place to place.

ghost use Rattle.std.specs.Prelude.{◌≡◌, IfOk};

use ranges_laws::facts::Facts;
use std::alloc::{AllocError, Global};
use std::marker::Model;

/// Facts that are where they were made: handing them on moves one word.
#[derive(Drop)]
pub struct Carried {
    pub kept: Box<Facts>,
}

impl Model for Carried {
    ghost use Rattle.ranges_laws.specs.declared.facts.Facts.{Facts};

    ghost Value = { Facts };

    ghost view = { λ c. c.kept.value };
}

impl Carried {
    /// Facts to be handed on.
    pub fn of(alloc: Global, facts: Facts) -> Result<Carried, AllocError>
        ensures { IfOk result (λ c. c ≡ facts) }
    {
        Ok(Carried {
            kept: Box::new(alloc, facts)?,
        })
    }
}
