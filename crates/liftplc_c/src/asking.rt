// What a handle is asked.

ghost use Rattle.std.specs.Prelude.{◌≡◌, IfSome, None, option_map};
ghost use Rattle.il_syntax.specs.declared.tree.Unit.{Unit as Organized};
ghost use Rattle.scan_task.specs.Listing.{task_line, task_shown};
ghost use Rattle.group_laws.specs.Tasks.{IsTaskOf, budget_of};
ghost use Rattle.liftplc_c.specs.Budgets.{budget_in, named_line};

use crate::handle::Handle;
use scan_task::verified::is_task_name;
use scan_task::{TaskInfo, Verified};
use std::alloc::Global;

// The version of these exports.
const VERSION: u32 = 3;

// The first task that is listed under the name of a number.
fn listed(verified: &Verified, task: u8) -> Option<TaskInfo<'_>>
    ensures { option_map task_shown result ≡ named_line verified.now task }
{
    verified.tasks().find(|line| is_task_name(line.name, task))
}

// Its budget, or 0.
fn listed_budget(verified: &Verified, task: u8) -> u32
    ensures { result ≡ budget_in (named_line verified.now task) }
{
    match listed(verified, task) {
        Some(line) => line.budget,
        None => 0,
    }
}

// The budget of a task, the greatest number of instructions of a scan, or 0: GROUP is 0, CARk is k.
fn task_budget(verified: &Verified, task: u8) -> u32
    ensures listed { result ≡ budget_in (task_line verified.now task) }
    ensures budget { (u : Organized) → IsTaskOf verified.now.config task u → result
        ≡ budget_of verified.now.config task }
{
    let _config = verified.config();
    let _tasks = verified.tasks();
    listed_budget(verified, task)
}

/// The budget of a task of the controller: the greatest number of instructions of its scan. GROUP is 0, CARk is k. 0: there is no such task, or the handle isn't
/// open.
#[unsafe(no_mangle)]
pub extern "C" fn liftplc_budget(alloc: Global, handle: &mut Handle, task: u8) -> u32
    ensures closed { handle.old.held.world ≡ None → result ≡ 0 }
    ensures listed { IfSome handle.old.held.world
        (λ w. result ≡ budget_in (task_line w.program task)) }
    ensures budget { IfSome handle.old.held.world
        (λ w. (u : Organized) → IsTaskOf w.program.config task u → result
        ≡ budget_of w.program.config task) }
    ensures kept { handle.new.held.world ≡ handle.old.held.world }
{
    let Some(rounds) = handle.take(alloc) else {
        return 0;
    };
    let budget = task_budget(rounds.world.verified(), task);
    handle.put(rounds);
    budget
}

/// The version of these exports. The header has it too.
#[unsafe(no_mangle)]
pub extern "C" fn liftplc_version() -> u32
    ensures { result ≡ 3 }
{
    VERSION
}
