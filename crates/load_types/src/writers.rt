// Globals that two tasks write (own rule).

ghost use Rattle.std.specs.Prelude.{◌≡◌, IfOk, flat_map, length};
ghost use Rattle.std.specs.List.{list_any};
ghost use Rattle.il_statics.specs.Names.{program_named};
ghost use Rattle.il_statics.specs.Types.{argument_targets, named_variable, stored_names};
ghost use Rattle.il_statics.specs.Least.{IsLeast};
ghost use Rattle.load_types.specs.Faults.{HasStoreOfTwo};
ghost use Rattle.load_types.specs.Writers.{is_external_origin, is_external, is_same_task, writer_after, note, noted, noted_line, if_stored, declared_stored, is_several, is_shared, stores_shared, HasSharedStore, HasSharedStores, AreWriters};

use crate::fault::TypeFault;
use base_maps::Table;
use il_statics::names::Origin;
use il_statics::{Found, earlier, fault_if};
use il_syntax::tree::{Argument, Declaration, Instruction, Named, ProgramLine, Reference, Unit};
use load_scope::{Scoped, UnitScope};
use std::alloc::{AllocError, Global};

/// Who writes a global: the task of a PROGRAM line, by the line's number, or several tasks.
#[derive(Clone, Copy)]
pub enum Writer {
    Task(usize),
    Several,
}

/// The first store into a global that two tasks write (38).
pub fn writers_fault(alloc: Global, names: &Scoped) -> Result<Option<Found<TypeFault>>, AllocError>
    ensures { IfOk result (λ found. IsLeast found (HasStoreOfTwo names.now)) }
{
    let writers = writers_of(alloc, names)?;
    Ok(shared_fault(names, &writers))
}

// Whether a variable is an external of its unit.
fn is_external_origin(origin: Origin) -> bool
    ensures { result ≡ is_external_origin origin }
{
    matches!(origin, Origin::External)
}

// Whether a name is an external of a unit (2.4.3).
fn is_external(scope: &UnitScope, name: &str) -> bool
    ensures { result ≡ is_external scope.now.unit name.now }
{
    match scope.variable(name) {
        Some(variable) => is_external_origin(variable.origin),
        None => false,
    }
}

// Who writes each global.
fn writers_of(alloc: Global, names: &Scoped) -> Result<Table<Writer>, AllocError>
    ensures { IfOk result (λ t. AreWriters names.now (length names.now.programs) t) }
{
    let lines = names.config().programs.as_slice();
    let mut writers = Table::new(alloc);
    for line in 0..lines.len() {
        note_line(alloc, names, line, &lines[line], &mut writers)?;
    }
    Ok(writers)
}

// Notes the globals that the program of a PROGRAM line writes.
fn note_line(
    alloc: Global,
    names: &Scoped,
    number: usize,
    line: &ProgramLine,
    writers: &mut Table<Writer>,
) -> Result<(), AllocError>
    ensures { IfOk result (λ _. writers.new
        ≡ noted_line names.now.programs number (program_named names.now line.now.program.name)
        writers.old) }
{
    let Some(at) = names.program(line.program.name.as_str()) else {
        return Ok(());
    };
    let Some(unit) = names.config().units.as_slice().get(at) else {
        return Ok(());
    };
    let scope = UnitScope::of(names, at, unit);
    let lines = names.config().programs.as_slice();
    note_externals(
        alloc,
        lines,
        number,
        &scope,
        unit.externals.as_slice(),
        writers,
    )?;
    Ok(())
}

// Notes those of a unit's externals that it stores into.
fn note_externals(
    alloc: Global,
    lines: &[ProgramLine],
    line: usize,
    scope: &UnitScope,
    externals: &[Declaration],
    writers: &mut Table<Writer>,
) -> Result<(), AllocError>
    ensures { IfOk result (λ _. writers.new
        ≡ noted lines.now line scope.now.unit writers.old
        (declared_stored scope.now.unit externals.now)) }
{
    for declaration in externals {
        note_names(
            alloc,
            lines,
            line,
            scope,
            declaration.names.as_slice(),
            writers,
        )?;
    }
    Ok(())
}

// Notes those of some names.
fn note_names(
    alloc: Global,
    lines: &[ProgramLine],
    line: usize,
    scope: &UnitScope,
    names: &[Named],
    writers: &mut Table<Writer>,
) -> Result<(), AllocError>
    ensures { IfOk result (λ _. writers.new
        ≡ noted lines.now line scope.now.unit writers.old
        (flat_map (if_stored scope.now.unit) names.now)) }
{
    for named in names {
        note_stored(alloc, lines, line, scope, named, writers)?;
    }
    Ok(())
}

// Notes a name, if the unit stores into it.
fn note_stored(
    alloc: Global,
    lines: &[ProgramLine],
    line: usize,
    scope: &UnitScope,
    named: &Named,
    writers: &mut Table<Writer>,
) -> Result<(), AllocError>
    ensures { IfOk result (λ _. writers.new
        ≡ noted lines.now line scope.now.unit writers.old (if_stored scope.now.unit named.now)) }
{
    let name = named.name.as_str();
    if scope.stores(name) {
        note(alloc, lines, line, scope, name, writers)
    } else {
        Ok(())
    }
}

// Notes a name, if it is a global.
fn note(
    alloc: Global,
    lines: &[ProgramLine],
    line: usize,
    scope: &UnitScope,
    name: &str,
    writers: &mut Table<Writer>,
) -> Result<(), AllocError>
    ensures { IfOk result (λ _. writers.new
        ≡ note lines.now line scope.now.unit writers.old name.now) }
{
    if !is_external(scope, name) {
        return Ok(());
    }
    let writer = writer_after(lines, line, writers.get(name));
    writers.put(alloc, name, writer)
}

// Who writes a global that the program of a PROGRAM line writes too.
fn writer_after(lines: &[ProgramLine], line: usize, before: Option<Writer>) -> Writer
    ensures { result ≡ writer_after lines.now line before }
{
    match before {
        None => Writer::Task(line),
        Some(Writer::Task(first)) => {
            if is_same_task(lines, first, line) {
                Writer::Task(first)
            } else {
                Writer::Several
            }
        }
        Some(Writer::Several) => Writer::Several,
    }
}

// Whether two PROGRAM lines name one task.
fn is_same_task(lines: &[ProgramLine], one: usize, other: usize) -> bool
    ensures { result ≡ is_same_task lines.now one other }
{
    match (lines.get(one), lines.get(other)) {
        (Some(a), Some(b)) => a.task.name.as_str() == b.task.name.as_str(),
        _ => false,
    }
}

// The first store into a global of several writers.
fn shared_fault(names: &Scoped, writers: &Table<Writer>) -> Option<Found<TypeFault>>
    ensures { IsLeast result (HasSharedStores writers.now names.now.units) }
{
    let units = names.config().units.as_slice();
    let mut found = None;
    for at in 0..units.len() {
        let unit = &units[at];
        let scope = UnitScope::of(names, at, unit);
        found = earlier(found, unit_shared_fault(&scope, unit, writers));
    }
    found
}

// The first store of a unit into a global of several writers.
fn unit_shared_fault(
    scope: &UnitScope,
    unit: &Unit,
    writers: &Table<Writer>,
) -> Option<Found<TypeFault>>
    requires { scope.now.unit ≡ unit.now }
    ensures { IsLeast result (HasSharedStore writers.now unit.now) }
{
    let mut found = None;
    for step in unit.body.steps.as_slice() {
        let shared = stores_shared(scope, writers, &step.instruction);
        found = earlier(found, fault_if(shared, TypeFault::TwoWriters, step.place));
    }
    found
}

// Whether an instruction stores into a global of several writers.
fn stores_shared(scope: &UnitScope, writers: &Table<Writer>, instruction: &Instruction) -> bool
    ensures { result ≡ list_any (is_shared scope.now.unit writers.now)
        (stored_names instruction.now) }
{
    match instruction {
        Instruction::Store { target, .. } => is_target_shared(scope, writers, &target.reference),
        Instruction::Call { arguments, .. } => {
            is_output_shared(scope, writers, arguments.as_slice())
        }
        _ => false,
    }
}

// Whether the target of a store is such a global.
fn is_target_shared(scope: &UnitScope, writers: &Table<Writer>, target: &Reference) -> bool
    ensures { result ≡ list_any (is_shared scope.now.unit writers.now) (named_variable target.now) }
{
    match target {
        Reference::Variable(name) => is_shared(scope, writers, name.as_str()),
        Reference::Element(name, _) => is_shared(scope, writers, name.as_str()),
        _ => false,
    }
}

// Whether the target of one of the outputs is such a global.
fn is_output_shared(scope: &UnitScope, writers: &Table<Writer>, arguments: &[Argument]) -> bool
    ensures { result ≡ list_any (is_shared scope.now.unit writers.now)
        (flat_map argument_targets arguments.now) }
{
    let mut shared = false;
    for argument in arguments {
        let here = is_argument_shared(scope, writers, argument);
        shared = shared || here;
    }
    shared
}

// Whether the target of this output is such a global.
fn is_argument_shared(scope: &UnitScope, writers: &Table<Writer>, argument: &Argument) -> bool
    ensures { result ≡ list_any (is_shared scope.now.unit writers.now)
        (argument_targets argument.now) }
{
    match argument {
        Argument::Output { target, .. } => is_shared(scope, writers, target.name.as_str()),
        Argument::Input { .. } => false,
    }
}

// Whether a name is a global of several writers.
fn is_shared(scope: &UnitScope, writers: &Table<Writer>, name: &str) -> bool
    ensures { result ≡ is_shared scope.now.unit writers.now name.now }
{
    matches!(writers.get(name), Some(Writer::Several)) && is_external(scope, name)
}
