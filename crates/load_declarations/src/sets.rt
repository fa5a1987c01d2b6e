// Sets of names.

ghost use Rattle.std.specs.Prelude.{◌≡◌, IfOk, is_some, map};
ghost use Rattle.base_maps.specs.NameMap as table;
ghost use Rattle.load_declarations.specs.TaskRules.{IsSet};

use base_maps::Table;
use il_syntax::tree::{ProgramLine, Task};
use std::alloc::{AllocError, Global};

/// Whether a set has a name.
pub fn has_name(set: &Table<()>, name: &str) -> bool
    ensures { result ≡ is_some (table.get set.now name.now) }
{
    set.get(name).is_some()
}

/// The names of tasks.
pub fn task_names(alloc: Global, tasks: &[Task]) -> Result<Table<()>, AllocError>
    ensures { IfOk result (λ s. IsSet (map (λ t. t.name.name) tasks.now) s) }
{
    let mut set = Table::new(alloc);
    for task in tasks {
        set.put(alloc, task.name.name.as_str(), ())?;
    }
    Ok(set)
}

/// The tasks that PROGRAM lines name.
pub fn lines_tasks(alloc: Global, lines: &[ProgramLine]) -> Result<Table<()>, AllocError>
    ensures { IfOk result (λ s. IsSet (map (λ l. l.task.name) lines.now) s) }
{
    let mut set = Table::new(alloc);
    for line in lines {
        set.put(alloc, line.task.name.as_str(), ())?;
    }
    Ok(set)
}

/// The programs that PROGRAM lines name.
pub fn lines_programs(alloc: Global, lines: &[ProgramLine]) -> Result<Table<()>, AllocError>
    ensures { IfOk result (λ s. IsSet (map (λ l. l.program.name) lines.now) s) }
{
    let mut set = Table::new(alloc);
    for line in lines {
        set.put(alloc, line.program.name.as_str(), ())?;
    }
    Ok(set)
}
