// Variables that are given other values of their declared sets.

ghost use Rattle.std.specs.Prelude.{◌≡◌, ◌≤◌, length};
ghost use Rattle.il_semantics.specs.Values.{is_of};
ghost use Rattle.il_semantics.specs.Ranges.{HoldGlobals};
ghost use Rattle.scan_task.specs.Scanning.{FitsOwn, OwnsDeclared, variables_in};
ghost use Rattle.scan_task.specs.Sharing.{FitsGlobals, globals_in};
ghost use Rattle.scan_task.specs.Setting.{SetsOwn, SetsGlobals, SetsSlot};

use crate::verified::Verified;
use il_semantics::value::Value;
use il_statics::elementary::{declared_limits, is_within};
use il_syntax::tree::Scalar;
use load_code::TaskCode;
use scan_image::rows::put;
use scan_step::rows::Rows;

/// Why a variable isn't given a value: no variable has the path, or the value is none of its declared set.
#[derive(Clone, Copy)]
pub enum Unset {
    Unknown,
    Outside,
}

// Whether a value is one of a scalar type's (IEC 61131-3:2003, 2.3.3.1).
fn is_of(scalar: Scalar, value: Value) -> bool
    ensures { result ≡ is_of scalar value }
{
    match declared_limits(scalar) {
        None => match value {
            Value::Boolean(_) => true,
            Value::Integer(_) => false,
        },
        Some(limits) => match value {
            Value::Boolean(_) => false,
            Value::Integer(number) => is_within(limits, number),
        },
    }
}

// Gives the variable of a path a value, if its slot is one of the first. Otherwise nothing changes.
fn set_first(
    all: &mut Rows,
    layout: &TaskCode,
    count: usize,
    path: &str,
    value: Value,
) -> Result<(), Unset>
    requires numbers { length all.old.numbers ≡ count }
    requires flags { length all.old.flags ≡ count }
    requires cells { count ≤ length layout.now.cells }
    ensures { SetsSlot layout.now.cells count all.old path.now value result all.new }
{
    let Some(slot) = layout.slot_of(path) else {
        return Err(Unset::Unknown);
    };
    if slot >= count {
        return Err(Unset::Unknown);
    }
    let cell = &layout.cells()[slot];
    if !is_of(cell.scalar, value) {
        return Err(Unset::Outside);
    }
    put(all, slot, value);
    Ok(())
}

/// Gives a variable of a task another value of its declared set, by its path. Otherwise nothing changes.
pub fn set_variable(
    variables: &mut Rows,
    verified: &Verified,
    task: u8,
    path: &str,
    value: Value,
) -> Result<(), Unset>
    requires fits { FitsOwn verified.now.config task variables.old }
    requires own { OwnsDeclared verified.now.config task
        (variables_in verified.now.config task variables.old) }
    ensures set { SetsOwn verified.now.config task variables.old path.now value result
        variables.new }
    ensures fits { FitsOwn verified.now.config task variables.new }
    ensures own { OwnsDeclared verified.now.config task
        (variables_in verified.now.config task variables.new) }
{
    let code = verified.task_code(task);
    set_first(variables, code, code.own(), path, value)
}

/// Gives a global another value of its declared set, by its path. Otherwise nothing changes.
pub fn set_global(
    globals: &mut Rows,
    verified: &Verified,
    path: &str,
    value: Value,
) -> Result<(), Unset>
    requires fits { FitsGlobals verified.now.config globals.old }
    requires shared { HoldGlobals verified.now.config (globals_in verified.now.config globals.old) }
    ensures set { SetsGlobals verified.now.config globals.old path.now value result globals.new }
    ensures fits { FitsGlobals verified.now.config globals.new }
    ensures shared { HoldGlobals verified.now.config (globals_in verified.now.config globals.new) }
{
    let layout = verified.global_code();
    set_first(globals, layout, layout.cells().len(), path, value)
}
