// What the programs of PROGRAM lines cost.

ghost use Rattle.std.specs.Prelude.{◌≡◌, IfOk, map};
ghost use Rattle.load_budgets.specs.Units.{task_cost};

use crate::table::number_at;
use base_lists::Items;
use il_syntax::tree::ProgramLine;
use load_scope::Scoped;
use std::alloc::{AllocError, Global};

/// The greatest cost of the program of each PROGRAM line.
pub fn task_costs(
    alloc: Global,
    names: &Scoped,
    costs: &Items<u32>,
) -> Result<Items<u32>, AllocError>
    ensures { IfOk result (λ tasks. tasks
        ≡ map (task_cost names.now costs.now) names.now.programs) }
{
    let lines = names.config().programs.as_slice();
    let mut tasks = Items::new(alloc);
    'lines: for line in lines {
        tasks.push(task_cost(names, costs, line))?;
    }
    Ok(tasks)
}

// The cost of the program of a PROGRAM line.
fn task_cost(names: &Scoped, costs: &Items<u32>, line: &ProgramLine) -> u32
    ensures { result ≡ task_cost names.now costs.now line.now }
{
    match names.program(line.program.name.as_str()) {
        Some(number) => number_at(costs.as_slice(), number),
        None => 0,
    }
}
