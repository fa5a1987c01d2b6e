// The code of ordered configurations.

ghost use Rattle.std.specs.Prelude.{◌≡◌, ◌<◌, ◌^◌, length, IfOk, IfErr};
ghost use Rattle.il_syntax.specs.declared.fault.Refusal.TheVariants.{Memory};
ghost use Rattle.il_statics.specs.Faults.{Broken, Declaring, Typing, Ordering, HasNoFault};
ghost use Rattle.il_statics.specs.Written.{IsWritten};
ghost use Rattle.load_code.specs.Tasks.{AreGlobals, Belongs};

use crate::container::{Code, Parts};
use crate::placing::tasks_and_globals;
use crate::units::unit_codes;
use il_syntax::fault::Refusal;
use load_order::Ordered;
use load_scope::Scoped;
use load_slots::sizes::block_lists;
use std::alloc::{AllocError, Global};

// How many units there are.
fn unit_count(names: &Scoped) -> usize
    ensures { length names.now.units < 2 ^ 63 }
{
    names.config().units.as_slice().len()
}

// The flat code of the units, and the slots of the tasks.
fn parts_by(alloc: Global, ordered: &Ordered, names: &Scoped) -> Result<Parts, AllocError>
    requires same { names.now ≡ ordered.now }
    requires written { IsWritten names.now }
    requires declared { HasNoFault (Broken Declaring names.now) }
    requires typed { HasNoFault (Broken Typing names.now) }
    requires ordered { HasNoFault (Broken Ordering names.now) }
    ensures belongs { IfOk result (λ p. Belongs names.now p.units p.tasks) }
    ensures globals { IfOk result (λ p. AreGlobals names.now p.globals) }
{
    let _count = unit_count(names);
    let lists = block_lists(alloc, names)?;
    let units = unit_codes(alloc, names, lists.as_slice())?;
    let (tasks, globals) = tasks_and_globals(alloc, ordered, names, lists.as_slice())?;
    Ok(Parts {
        units,
        tasks,
        globals,
    })
}

// The flat code and the slots of an ordered configuration.
fn parts_of(alloc: Global, ordered: &Ordered) -> Result<Parts, AllocError>
    ensures belongs { IfOk result (λ p. Belongs ordered.now p.units p.tasks) }
    ensures globals { IfOk result (λ p. AreGlobals ordered.now p.globals) }
{
    let _config = ordered.config();
    let parts = parts_by(alloc, ordered, ordered.names())?;
    Ok(parts)
}

// A configuration with what is made of it.
fn with_parts(ordered: Ordered, parts: Result<Parts, AllocError>) -> Result<Code, Refusal>
    requires belongs { IfOk parts (λ p. Belongs ordered p.units p.tasks) }
    requires globals { IfOk parts (λ p. AreGlobals ordered p.globals) }
    ensures same { IfOk result (λ c. c ≡ ordered) }
    ensures memory { IfErr result (λ e. e ≡ Memory) }
{
    match parts {
        Ok(parts) => Ok(Code::of(ordered, parts)),
        Err(_) => Err(Refusal::Memory),
    }
}

/// The code of an ordered configuration: the flat code of its units, and the slots of its tasks.
pub fn code(alloc: Global, ordered: Ordered) -> Result<Code, Refusal>
    ensures same { IfOk result (λ c. c ≡ ordered) }
    ensures memory { IfErr result (λ e. e ≡ Memory) }
{
    let parts = parts_of(alloc, &ordered);
    with_parts(ordered, parts)
}
