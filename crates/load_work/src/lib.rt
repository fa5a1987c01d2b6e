//! How much work a scan of each unit does at most: its steps, and the values that calls set and copy.
#![tactic(auto)]

mod rounds;
mod sizes;
mod table;
mod weights;

ghost use Rattle.std.specs.Prelude.{◌≡◌, IfOk, map};
ghost use Rattle.il_work_laws.specs.Work.{most_work};
ghost use Rattle.load_work.specs.Sizes.{capped};

use crate::rounds::rounds;
use crate::sizes::unit_sizes;
use crate::weights::all_weighed;
use base_lists::Items;
use load_scope::Scoped;
use std::alloc::{AllocError, Global};

/// The most work that a scan of each unit does, in the order of the text: a step counts 1, a `CAL` one more for each
/// argument, a function one more for each operand, and an own function also for its first input and for each of its
/// variables, which begin anew (own rule). A number that is too great for 64 bits is the greatest that isn't.
pub fn works(alloc: Global, names: &Scoped) -> Result<Items<usize>, AllocError>
    ensures { IfOk result (λ works. works
        ≡ map (λ u. capped (most_work names.now u)) names.now.units) }
{
    let sizes = unit_sizes(alloc, names.config())?;
    let all = all_weighed(alloc, names, &sizes)?;
    rounds(alloc, &all)
}
