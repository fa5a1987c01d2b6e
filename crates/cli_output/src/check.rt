// What `check` prints.

ghost use Rattle.std.specs.Prelude.{◌≡◌, ◌++◌, ◌∷◌, [], codes, flat_map, IfOk, OnOk, string_bytes};
ghost use Rattle.base_json.specs.Objects.{integer_member, line_of, list_member, object};
ghost use Rattle.json.specs.Token.{begin_array, key};
ghost use Rattle.base_texts.specs.Puts.{Puts};
ghost use Rattle.scan_task.specs.Listing.{task_lines, unit_lines, task_shown, unit_shown};
ghost use Rattle.cli_output.specs.Listing.{task_text, unit_text, path_shown, task_members, timing_members, program_members, cost_members, path_tokens, unit_members, accepted_row, task_row, unit_row, listing};

use crate::path::{put_path, put_ranged};
use base_json::form::Form;
use base_json::object::Object;
use scan_task::{TaskInfo, UnitInfo, Verified};
use std::alloc::{AllocError, Global};

/// The output of `check` in a form: that the text is accepted, then its tasks, CAR1 to CARn and then GROUP,
/// with their intervals in milliseconds, then what each unit costs and the lines of its most
/// expensive path, where it is `ranged` those that follow one another as a range. An object has all lines.
pub fn check_text(
    alloc: Global,
    form: Form,
    verified: &Verified,
    ranged: bool,
) -> Result<String, AllocError>
    ensures { IfOk result (λ text. string_bytes text ≡ listing form ranged verified.now) }
{
    let mut text = String::new(alloc);
    put_accepted(alloc, &mut text, form)?;
    put_tasks(alloc, &mut text, form, verified)?;
    put_units(alloc, &mut text, form, verified, ranged)?;
    Ok(text)
}

fn put_accepted(alloc: Global, text: &mut String, form: Form) -> Result<(), AllocError>
    ensures { OnOk result (Puts text.old text.new (accepted_row form)) }
{
    match form {
        Form::Plain => text.push_str("accepted\n"),
        Form::Json => {
            let mut object = Object::begin(alloc)?;
            object.truth_member("accepted", true)?;
            object.put_line(text)
        }
    }
}

fn put_tasks(
    alloc: Global,
    text: &mut String,
    form: Form,
    verified: &Verified,
) -> Result<(), AllocError>
    ensures { OnOk result (Puts text.old text.new
        (flat_map (task_row form) (task_lines verified.now))) }
{
    'tasks: for task in verified.tasks() {
        put_task(alloc, text, form, task)?;
    }
    Ok(())
}

fn put_units(
    alloc: Global,
    text: &mut String,
    form: Form,
    verified: &Verified,
    ranged: bool,
) -> Result<(), AllocError>
    ensures { OnOk result (Puts text.old text.new (flat_map (unit_row form ranged)
        (unit_lines verified.now.config.units verified.now.costs))) }
{
    'units: for unit in verified.units() {
        put_unit(alloc, text, form, unit, ranged)?;
    }
    Ok(())
}

fn put_task(
    alloc: Global,
    text: &mut String,
    form: Form,
    task: TaskInfo<'_>,
) -> Result<(), AllocError>
    ensures { OnOk result (Puts text.old text.new (task_row form (task_shown task.entry))) }
{
    match form {
        Form::Plain => put_task_line(text, task),
        Form::Json => put_task_object(alloc, text, task),
    }
}

#[tactic(auto, unfolding(crate::specs::Listing::task_text))]
fn put_task_line(text: &mut String, task: TaskInfo<'_>) -> Result<(), AllocError>
    ensures { OnOk result (Puts text.old text.new (task_text (task_shown task.entry))) }
{
    write!(text, "task {} interval {}", task.name, task.interval)?;
    write!(text, " priority {} program {}", task.priority, task.program)?;
    writeln!(text, " budget {}", task.budget)
}

fn put_task_object(alloc: Global, text: &mut String, task: TaskInfo<'_>) -> Result<(), AllocError>
    ensures { OnOk result (Puts text.old text.new
        (line_of (object (task_members (task_shown task.entry))))) }
{
    let mut object = Object::begin(alloc)?;
    add_task(&mut object, task)?;
    object.put_line(text)
}

fn add_task(object: &mut Object, task: TaskInfo<'_>) -> Result<(), AllocError>
    ensures { OnOk result (object.new ≡ object.old ++ task_members (task_shown task.entry)) }
{
    add_timing(object, task)?;
    add_priority(object, task)?;
    add_program(object, task)
}

// The name and the interval of a task.
#[tactic(auto, unfolding(crate::specs::Listing::timing_members))]
fn add_timing(object: &mut Object, task: TaskInfo<'_>) -> Result<(), AllocError>
    ensures { OnOk result (object.new ≡ object.old ++ timing_members (task_shown task.entry)) }
{
    object.text_member("task", task.name)?;
    object.integer_member("interval", i128::from(task.interval))
}

fn add_priority(object: &mut Object, task: TaskInfo<'_>) -> Result<(), AllocError>
    ensures { OnOk result (object.new
        ≡ object.old ++ integer_member (codes "priority") (task_shown task.entry).priority) }
{
    object.integer_member("priority", i128::from(task.priority))
}

// The name on its PROGRAM line, and its budget.
#[tactic(auto, unfolding(crate::specs::Listing::program_members))]
fn add_program(object: &mut Object, task: TaskInfo<'_>) -> Result<(), AllocError>
    ensures { OnOk result (object.new ≡ object.old ++ program_members (task_shown task.entry)) }
{
    object.text_member("program", task.program)?;
    object.number_member("budget", u64::from(task.budget))
}

fn put_unit(
    alloc: Global,
    text: &mut String,
    form: Form,
    unit: UnitInfo<'_>,
    ranged: bool,
) -> Result<(), AllocError>
    ensures { OnOk result (Puts text.old text.new
        (unit_row form ranged (unit_shown unit.entry))) }
{
    match form {
        Form::Plain => put_unit_line(text, unit, ranged),
        Form::Json => put_unit_object(alloc, text, unit),
    }
}

#[tactic(auto, unfolding(crate::specs::Listing::unit_text))]
fn put_unit_line(text: &mut String, unit: UnitInfo<'_>, ranged: bool) -> Result<(), AllocError>
    ensures { OnOk result (Puts text.old text.new (unit_text ranged (unit_shown unit.entry))) }
{
    write!(text, "unit {} cost {} path", unit.name, unit.cost)?;
    put_lines(text, unit.path, ranged)?;
    text.push_str("\n")
}

// The lines of a path, where it is `ranged` those that follow one another as a range.
fn put_lines(text: &mut String, path: &[u32], ranged: bool) -> Result<(), AllocError>
    ensures { OnOk result (Puts text.old text.new (path_shown ranged path.now)) }
{
    if ranged {
        put_ranged(text, path)
    } else {
        put_path(text, path)
    }
}

fn put_unit_object(alloc: Global, text: &mut String, unit: UnitInfo<'_>) -> Result<(), AllocError>
    ensures { OnOk result (Puts text.old text.new
        (line_of (object (unit_members (unit_shown unit.entry))))) }
{
    let mut object = Object::begin(alloc)?;
    add_unit(&mut object, unit)?;
    object.put_line(text)
}

fn add_unit(object: &mut Object, unit: UnitInfo<'_>) -> Result<(), AllocError>
    ensures { OnOk result (object.new ≡ object.old ++ unit_members (unit_shown unit.entry)) }
{
    add_cost(object, unit)?;
    add_path(object, unit.path)
}

// The name and the cost of a unit.
#[tactic(auto, unfolding(crate::specs::Listing::cost_members))]
fn add_cost(object: &mut Object, unit: UnitInfo<'_>) -> Result<(), AllocError>
    ensures { OnOk result (object.new ≡ object.old ++ cost_members (unit_shown unit.entry)) }
{
    object.text_member("unit", unit.name)?;
    object.number_member("cost", u64::from(unit.cost))
}

// The list of the lines of a path.
fn add_path(object: &mut Object, path: &[u32]) -> Result<(), AllocError>
    ensures { OnOk result (object.new ≡ object.old
        ++ list_member (codes "path") (path_tokens path.now)) }
{
    begin_path(object)?;
    add_lines(object, path)?;
    object.end_list()
}

fn begin_path(object: &mut Object) -> Result<(), AllocError>
    ensures { OnOk result (object.new ≡ object.old ++ key (codes "path") ∷ begin_array ∷ []) }
{
    object.key("path")?;
    object.begin_list()
}

fn add_lines(object: &mut Object, path: &[u32]) -> Result<(), AllocError>
    ensures { OnOk result (object.new ≡ object.old ++ path_tokens path.now) }
{
    'lines: for line in path {
        object.number(u64::from(*line))?;
    }
    Ok(())
}
