// Names that are declared again (IEC 61131-3:2003, 2.4.3, 2.5, 2.7).

ghost use Rattle.std.specs.Prelude.{◌≡◌, IfOk, OnOk, OnErr, is_some, flat_map};
ghost use Rattle.base_maps.specs.NameMap as table;
ghost use Rattle.il_statics.specs.Declarations.{names_in, unit_names, labels_of};
ghost use Rattle.il_statics.specs.Least.{IsLeast};
ghost use Rattle.load_declarations.specs.Again.{AgainFrom, NamedAgain, after};

use crate::fault::DeclareFault;
use base_maps::Table;
use il_statics::{Found, earlier, fault_if};
use il_syntax::tree::{Body, Declaration, Named, ProgramLine, Step, Task, Unit};
use std::alloc::{AllocError, Global};

// Whether a name was seen; now it is.
fn see(alloc: Global, seen: &mut Table<()>, name: &str) -> Result<bool, AllocError>
    ensures again { IfOk result (λ again. again ≡ is_some (table.get seen.old name.now)) }
    ensures seen { OnOk result (seen.new ≡ table.insert seen.old name.now tt) }
{
    let again = seen.get(name).is_some();
    seen.put(alloc, name, ())?;
    Ok(again)
}

// The first name that was seen or comes before in the list.
#[inline(always)]
fn again_named(
    alloc: Global,
    named: &[Named],
    seen: &mut Table<()>,
) -> Result<Option<Found<DeclareFault>>, AllocError>
    ensures found { IfOk result (λ found. IsLeast found (NamedAgain seen.old named.now)) }
    ensures seen { OnOk result (seen.new ≡ after seen.old named.now) }
{
    let mut found = None;
    for name in named {
        let again = see(alloc, seen, name.name.as_str())?;
        found = earlier(found, fault_if(again, DeclareFault::Duplicate, name.place));
    }
    Ok(found)
}

// The first name of declarations that was seen or comes earlier in the list.
fn again_declared(
    alloc: Global,
    declarations: &[Declaration],
    seen: &mut Table<()>,
) -> Result<Option<Found<DeclareFault>>, AllocError>
    ensures found { IfOk result (λ found. IsLeast found
        (NamedAgain seen.old (names_in declarations.now))) }
    ensures seen { OnOk result (seen.new ≡ after seen.old (names_in declarations.now)) }
{
    let mut found = None;
    for declaration in declarations {
        let again = again_named(alloc, declaration.names.as_slice(), seen)?;
        found = earlier(found, again);
    }
    Ok(found)
}

// The first label that was seen or comes earlier in the list.
fn again_labels(
    alloc: Global,
    steps: &[Step],
    seen: &mut Table<()>,
) -> Result<Option<Found<DeclareFault>>, AllocError>
    ensures found { IfOk result (λ found. IsLeast found
        (NamedAgain seen.old (flat_map (λ s. s.labels) steps.now))) }
    ensures seen { OnOk result (seen.new ≡ after seen.old (flat_map (λ s. s.labels) steps.now)) }
{
    let mut found = None;
    for step in steps {
        let again = again_named(alloc, step.labels.as_slice(), seen)?;
        found = earlier(found, again);
    }
    Ok(found)
}

/// The first global that has an earlier global's name.
pub fn second_global(
    alloc: Global,
    globals: &[Declaration],
) -> Result<Option<Found<DeclareFault>>, AllocError>
    ensures { IfOk result (λ found. IsLeast found (NamedAgain table.empty (names_in globals.now))) }
{
    let mut seen = Table::new(alloc);
    again_declared(alloc, globals, &mut seen)
}

/// The first variable of a unit that has an earlier one's name.
pub fn second_variable(
    alloc: Global,
    unit: &Unit,
) -> Result<Option<Found<DeclareFault>>, AllocError>
    ensures { IfOk result (λ found. IsLeast found (NamedAgain table.empty (unit_names unit.now))) }
{
    let mut seen = Table::new(alloc);
    let inputs = again_declared(alloc, unit.inputs.as_slice(), &mut seen)?;
    let outputs = again_declared(alloc, unit.outputs.as_slice(), &mut seen)?;
    let variables = again_declared(alloc, unit.variables.as_slice(), &mut seen)?;
    let externals = again_declared(alloc, unit.externals.as_slice(), &mut seen)?;
    Ok(earlier(earlier(earlier(inputs, outputs), variables), externals))
}

/// The first label of a body that has an earlier one's name.
pub fn second_label(alloc: Global, body: &Body) -> Result<Option<Found<DeclareFault>>, AllocError>
    ensures { IfOk result (λ found. IsLeast found (NamedAgain table.empty (labels_of body.now))) }
{
    let mut seen = Table::new(alloc);
    let first = again_labels(alloc, body.steps.as_slice(), &mut seen)?;
    let last = again_named(alloc, body.last_labels.as_slice(), &mut seen)?;
    Ok(earlier(first, last))
}

/// The first unit that has an earlier one's name.
pub fn second_unit(alloc: Global, units: &[Unit]) -> Result<Option<Found<DeclareFault>>, AllocError>
    ensures { IfOk result (λ found. IsLeast found
        (AgainFrom (λ x. x.name.name) (λ x. x.place) 20 table.empty units.now)) }
{
    let mut seen = Table::new(alloc);
    let mut found = None;
    for unit in units {
        let again = see(alloc, &mut seen, unit.name.name.as_str())?;
        found = earlier(found, fault_if(again, DeclareFault::Duplicate, unit.place));
    }
    Ok(found)
}

/// The first task that has an earlier one's name.
pub fn second_task(alloc: Global, tasks: &[Task]) -> Result<Option<Found<DeclareFault>>, AllocError>
    ensures { IfOk result (λ found. IsLeast found
        (AgainFrom (λ x. x.name.name) (λ x. x.place) 20 table.empty tasks.now)) }
{
    let mut seen = Table::new(alloc);
    let mut found = None;
    for task in tasks {
        let again = see(alloc, &mut seen, task.name.name.as_str())?;
        found = earlier(found, fault_if(again, DeclareFault::Duplicate, task.place));
    }
    Ok(found)
}

/// The first PROGRAM line that has an earlier one's name.
pub fn second_program_line(
    alloc: Global,
    lines: &[ProgramLine],
) -> Result<Option<Found<DeclareFault>>, AllocError>
    ensures { IfOk result (λ found. IsLeast found
        (AgainFrom (λ x. x.name.name) (λ x. x.place) 20 table.empty lines.now)) }
{
    let mut seen = Table::new(alloc);
    let mut found = None;
    for line in lines {
        let again = see(alloc, &mut seen, line.name.name.as_str())?;
        found = earlier(found, fault_if(again, DeclareFault::Duplicate, line.place));
    }
    Ok(found)
}

/// The first PROGRAM line of a task that has an earlier one (2.7.2).
pub fn second_line_of_task(
    alloc: Global,
    lines: &[ProgramLine],
) -> Result<Option<Found<DeclareFault>>, AllocError>
    ensures { IfOk result (λ found. IsLeast found
        (AgainFrom (λ x. x.task.name) (λ x. x.place) 24 table.empty lines.now)) }
{
    let mut seen = Table::new(alloc);
    let mut found = None;
    for line in lines {
        let again = see(alloc, &mut seen, line.task.name.as_str())?;
        found = earlier(found, fault_if(again, DeclareFault::BadTask, line.place));
    }
    Ok(found)
}
