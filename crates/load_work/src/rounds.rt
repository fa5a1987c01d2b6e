// The most work of each unit, round by round: each round with callees one level deeper.

ghost use Rattle.std.specs.Prelude.{◌≡◌, IfOk};
ghost use Rattle.load_work.specs.Rounds.{unit_work, works_by, rounds};

use crate::table::{left_up, lefts};
use crate::weights::Weighed;
use base_lists::Items;
use std::alloc::{AllocError, Global};

// How deep units may use one another (own rule).
const DEPTH: usize = 16;

/// The most work of each unit, where units use one another at most 16 deep.
pub fn rounds(alloc: Global, all: &Items<Items<Weighed>>) -> Result<Items<usize>, AllocError>
    ensures { IfOk result (λ works. works ≡ rounds 16 all.now) }
{
    let mut works = Items::new(alloc);
    'rounds: for _round in 0..DEPTH {
        works = works_by(alloc, all, &works)?;
    }
    Ok(works)
}

// The work of units by that of the units that they call.
fn works_by(
    alloc: Global,
    all: &Items<Items<Weighed>>,
    works: &Items<usize>,
) -> Result<Items<usize>, AllocError>
    ensures { IfOk result (λ more. more ≡ works_by all.now works.now) }
{
    let mut more = Items::new(alloc);
    'all: for one in all.as_slice() {
        more.push(unit_work(alloc, one, works)?)?;
    }
    Ok(more)
}

// The work of a unit.
fn unit_work(alloc: Global, all: &Items<Weighed>, works: &Items<usize>) -> Result<usize, AllocError>
    ensures { IfOk result (λ work. work ≡ unit_work works.now all.now) }
{
    let lefts = lefts(alloc, all.as_slice(), works.as_slice())?;
    Ok(left_up(lefts.as_slice(), 0))
}
