// The warnings of a configuration.

ghost use Rattle.std.specs.Prelude.{◌≡◌, flat_map, IfOk, OnOk, string_bytes};
ghost use Rattle.base_texts.specs.Puts.{Puts};
ghost use Rattle.show_names.specs.Names.{declared_names, name_shown};
ghost use Rattle.show_names.specs.Warnings.{name_never, names_text, outputs_text, unstored_text, unstored_line, unit_text, global_never, global_text, are_alike, task_line, task_text, tasks_text, warnings_text};

use crate::global_uses::GlobalUses;
use crate::names::{Declared, declared_names};
use crate::needed::{Needed, drives_car};
use crate::never::{Never, Origin, called_never, never_of, put_never, variable_never};
use crate::unit_uses::UnitUses;
use crate::uses::Manner;
use il_syntax::tree::{Config, Declaration, Task, Unit, UnitKind};
use std::alloc::{AllocError, Global};

/// The warnings of a configuration, a line for each, at the line of what it tells of: of each unit,
/// in the order of the text, that nothing calls or declares it, which of its names are never
/// read, written or used, and which outputs of its car it never stores; then the globals; then the
/// tasks whose interval or priority is not the first task's (own rule).
pub fn warnings_text(alloc: Global, config: &Config) -> Result<String, AllocError>
    ensures { IfOk result (λ t. string_bytes t ≡ warnings_text config.now) }
{
    let mut text = String::new(alloc);
    put_units(alloc, &mut text, config)?;
    put_globals(
        alloc,
        &mut text,
        config.units.as_slice(),
        config.globals.as_slice(),
    )?;
    put_tasks(&mut text, config.tasks.as_slice())?;
    Ok(text)
}

fn put_units(alloc: Global, text: &mut String, config: &Config) -> Result<(), AllocError>
    ensures { OnOk result (Puts text.old text.new
        (flat_map (unit_text config.now) config.now.units)) }
{
    let needed = Needed::of(alloc, config)?;
    put_each_unit(alloc, text, &needed)
}

fn put_each_unit(alloc: Global, text: &mut String, needed: &Needed<'_>) -> Result<(), AllocError>
    ensures { OnOk result (Puts text.old text.new
        (flat_map (unit_text needed.now.config.now) needed.now.config.now.units)) }
{
    let units = needed.config.units.as_slice();
    'units: for unit in units {
        put_unit(alloc, text, needed, unit)?;
    }
    Ok(())
}

fn put_unit(
    alloc: Global,
    text: &mut String,
    needed: &Needed<'_>,
    unit: &Unit,
) -> Result<(), AllocError>
    ensures { OnOk result (Puts text.old text.new (unit_text needed.now.config.now unit.now)) }
{
    let uses = UnitUses::of(alloc, unit)?;
    put_unit_uses(text, needed, &uses)
}

fn put_unit_uses(
    text: &mut String,
    needed: &Needed<'_>,
    uses: &UnitUses<'_>,
) -> Result<(), AllocError>
    ensures { OnOk result (Puts text.old text.new
        (unit_text needed.now.config.now uses.now.unit.now)) }
{
    let unit = uses.unit;
    let name = unit.name.name.as_str();
    let has_use = needed.has(unit.kind, name);
    put_never(text, unit.place.line, name, called_never(has_use))?;
    put_names(text, Origin::Input, uses, unit.inputs.as_slice())?;
    put_names(text, Origin::Output, uses, unit.outputs.as_slice())?;
    put_names(text, Origin::Variable, uses, unit.variables.as_slice())?;
    put_names(text, Origin::External, uses, unit.externals.as_slice())?;
    put_outputs(text, needed.config, uses)
}

// The names that declarations give.
fn put_names(
    text: &mut String,
    origin: Origin,
    uses: &UnitUses<'_>,
    declarations: &[Declaration],
) -> Result<(), AllocError>
    ensures { OnOk result (Puts text.old text.new
        (names_text origin uses.now.unit.now.body.steps declarations.now)) }
{
    'names: for name in declared_names(declarations) {
        let never = name_never(origin, uses, &name);
        put_never(text, name.line, name.name, never)?;
    }
    Ok(())
}

// What a declared name is never, by the body of its unit.
fn name_never(origin: Origin, uses: &UnitUses<'_>, name: &Declared<'_>) -> Option<Never>
    ensures { result ≡ name_never origin uses.now.unit.now.body.steps (name_shown name.now) }
{
    if name.is_instance {
        return called_never(uses.is_used(Manner::Called, name.name));
    }
    let read = uses.is_used(Manner::Read, name.name);
    let written = uses.is_used(Manner::Written, name.name);
    never_of(origin, name.has_initial, read, written)
}

// What the program of a car does not store.
fn put_outputs(text: &mut String, config: &Config, uses: &UnitUses<'_>) -> Result<(), AllocError>
    ensures { OnOk result (Puts text.old text.new (outputs_text config.now uses.now.unit.now)) }
{
    let unit = uses.unit;
    let programs = config.programs.as_slice();
    if matches!(unit.kind, UnitKind::Program) && drives_car(programs, unit.name.name.as_str()) {
        put_unstored(text, uses, "MOTOR")?;
        put_unstored(text, uses, "OPEN")?;
    }
    Ok(())
}

fn put_unstored(text: &mut String, uses: &UnitUses<'_>, name: &str) -> Result<(), AllocError>
    ensures { OnOk result (Puts text.old text.new (unstored_text uses.now.unit.now name.now)) }
{
    if uses.is_used(Manner::Written, name) {
        return Ok(());
    }
    put_unstored_line(text, uses.unit, name)
}

#[tactic(auto, unfolding(crate::specs::Warnings::unstored_line))]
fn put_unstored_line(text: &mut String, unit: &Unit, name: &str) -> Result<(), AllocError>
    ensures { OnOk result (Puts text.old text.new (unstored_line unit.now name.now)) }
{
    write!(text, "line {}: ", unit.place.line)?;
    writeln!(text, "{} never stores {}", unit.name.name.as_str(), name)
}

fn put_globals(
    alloc: Global,
    text: &mut String,
    units: &[Unit],
    globals: &[Declaration],
) -> Result<(), AllocError>
    ensures { OnOk result (Puts text.old text.new
        (flat_map (global_text units.now) (declared_names globals.now))) }
{
    if globals.is_empty() {
        return Ok(());
    }
    let uses = GlobalUses::of(alloc, units)?;
    put_each_global(text, &uses, globals)
}

fn put_each_global(
    text: &mut String,
    uses: &GlobalUses<'_>,
    globals: &[Declaration],
) -> Result<(), AllocError>
    ensures { OnOk result (Puts text.old text.new
        (flat_map (global_text uses.now.units.now) (declared_names globals.now))) }
{
    'names: for name in declared_names(globals) {
        let never = global_never(uses, &name);
        put_never(text, name.line, name.name, never)?;
    }
    Ok(())
}

// What a global is never, by all units that list it.
fn global_never(uses: &GlobalUses<'_>, name: &Declared<'_>) -> Option<Never>
    ensures { result ≡ global_never uses.now.units.now (name_shown name.now) }
{
    let read = uses.is_used(Manner::Read, name.name);
    let written = uses.is_used(Manner::Written, name.name);
    variable_never(name.has_initial, read, written)
}

fn put_tasks(text: &mut String, tasks: &[Task]) -> Result<(), AllocError>
    ensures { OnOk result (Puts text.old text.new (tasks_text tasks.now)) }
{
    match tasks.first() {
        Some(first) => put_unlike(text, first, tasks),
        None => Ok(()),
    }
}

// The tasks that are unlike the first.
fn put_unlike(text: &mut String, first: &Task, tasks: &[Task]) -> Result<(), AllocError>
    ensures { OnOk result (Puts text.old text.new (flat_map (task_text first.now) tasks.now)) }
{
    'tasks: for task in tasks {
        if !are_alike(first, task) {
            put_task(text, task)?;
        }
    }
    Ok(())
}

// Whether two tasks have the same interval and the same priority.
fn are_alike(task: &Task, other: &Task) -> bool
    ensures { result ≡ are_alike task.now other.now }
{
    task.interval == other.interval && task.priority == other.priority
}

fn put_task(text: &mut String, task: &Task) -> Result<(), AllocError>
    ensures { OnOk result (Puts text.old text.new (task_line task.now)) }
{
    write!(text, "line {}: INTERVAL and PRIORITY of ", task.place.line)?;
    writeln!(
        text,
        "{} have no effect, each task runs once a round",
        task.name.name.as_str()
    )
}
