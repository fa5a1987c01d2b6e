// All names that `watch` has in a group, and which of them are parts of another.

ghost use Rattle.std.specs.Prelude.{◌≡◌, ◌≤◌, ◌++◌, ◌∷◌, ◌||◌, ◌+◌, [], ℕ, IfOk, OnOk, nat_eq, map, string_bytes};
ghost use Rattle.std.specs.List.{starts_with};
ghost use Rattle.load_slots.specs.declared.flat.Cell.{Cell};
ghost use Rattle.scan_task.specs.Scanning.{HasTask};
ghost use Rattle.group_spec.specs.Image.{sizes_of};
ghost use Rattle.show_values.specs.Known.{shared_names, slot_name, slot_names, slots_names, in_task, image_names, task_names, each_from, global_names, known_names, parts_in};

use crate::denials::put_task;
use crate::names::SlotName;
use load_slots::flat::Cell;
use scan_task::Verified;
use std::alloc::{AllocError, Global};

const CAR_WORDS: [&str; 9] = [
    "POS", "LEVEL", "TOP", "BOTTOM", "LOCKED", "OPENED", "MOTOR", "OPEN", "SERVE",
];

/// All names of a group: of the image, of the variables of its tasks, and of the globals.
pub fn known_names(alloc: Global, verified: &Verified) -> Result<Vec<String>, AllocError>
    ensures { IfOk result (λ names. map string_bytes names.items
        ≡ known_names verified.now.config) }
{
    let mut names = Vec::new(alloc);
    add_shared(alloc, &mut names)?;
    add_slots(alloc, &mut names, verified.sizes().slots)?;
    add_tasks(alloc, &mut names, verified)?;
    add_globals(alloc, &mut names, verified.globals())?;
    Ok(names)
}

fn add_shared(alloc: Global, names: &mut Vec<String>) -> Result<(), AllocError>
    ensures { OnOk result (map string_bytes names.new.items
        ≡ map string_bytes names.old.items ++ shared_names) }
{
    names.push(String::from_str(alloc, "NOW")?)?;
    names.push(String::from_str(alloc, "RUNLIMIT")?)?;
    names.push(String::from_str(alloc, "FIRE")?)?;
    Ok(())
}

fn add_slots(alloc: Global, names: &mut Vec<String>, slots: u8) -> Result<(), AllocError>
    ensures { OnOk result (map string_bytes names.new.items
        ≡ map string_bytes names.old.items ++ slots_names slots) }
{
    add_array(alloc, names, SlotName::Waits, slots)?;
    add_array(alloc, names, SlotName::From, slots)?;
    add_array(alloc, names, SlotName::To, slots)?;
    add_array(alloc, names, SlotName::Car, slots)
}

// The elements of an array of the call slots.
fn add_array(
    alloc: Global,
    names: &mut Vec<String>,
    array: SlotName,
    slots: u8,
) -> Result<(), AllocError>
    ensures { OnOk result (map string_bytes names.new.items
        ≡ map string_bytes names.old.items ++ slot_names array slots) }
{
    'slots: for index in 0..slots {
        add_slot(alloc, names, array, index + 1)?;
    }
    Ok(())
}

fn add_slot(
    alloc: Global,
    names: &mut Vec<String>,
    array: SlotName,
    slot: u8,
) -> Result<(), AllocError>
    ensures { OnOk result (map string_bytes names.new.items
        ≡ map string_bytes names.old.items ++ slot_name array slot ∷ []) }
{
    names.push(slot_name(alloc, array, slot)?)?;
    Ok(())
}

fn slot_name(alloc: Global, array: SlotName, slot: u8) -> Result<String, AllocError>
    ensures { IfOk result (λ name. string_bytes name ≡ slot_name array slot) }
{
    let name = format!(in alloc; "{}[{}]", array.word(), slot)?;
    Ok(name)
}

// The names of all tasks: of GROUP, if there is one, and of the cars.
fn add_tasks(alloc: Global, names: &mut Vec<String>, verified: &Verified) -> Result<(), AllocError>
    ensures { OnOk result (map string_bytes names.new.items ≡ map string_bytes names.old.items
        ++ each_from (task_names verified.now.config) 0 ((sizes_of verified.now.config).cars + 1)) }
{
    let _config = verified.config();
    'tasks: for task in 0..verified.sizes().cars + 1 {
        add_task(alloc, names, verified, task)?;
    }
    Ok(())
}

// The names of the task of a number, if the group has it.
fn add_task(
    alloc: Global,
    names: &mut Vec<String>,
    verified: &Verified,
    task: u8,
) -> Result<(), AllocError>
    requires { task ≤ (sizes_of verified.now.config).cars }
    ensures { OnOk result (map string_bytes names.new.items
        ≡ map string_bytes names.old.items ++ task_names verified.now.config task) }
{
    let _config = verified.config();
    if !verified.has_task(task) {
        return Ok(());
    }
    add_own(alloc, names, verified, task)
}

// The names of a task.
fn add_own(
    alloc: Global,
    names: &mut Vec<String>,
    verified: &Verified,
    task: u8,
) -> Result<(), AllocError>
    requires { HasTask verified.now.config task }
    ensures { OnOk result (map string_bytes names.new.items
        ≡ map string_bytes names.old.items ++ task_names verified.now.config task) }
{
    add_image(alloc, names, task, verified.sizes().slots)?;
    add_variables(alloc, names, task, verified.own_cells(task))
}

// The names of the image after that of a task.
fn add_image(alloc: Global, names: &mut Vec<String>, task: u8, slots: u8) -> Result<(), AllocError>
    ensures { OnOk result (map string_bytes names.new.items
        ≡ map string_bytes names.old.items ++ image_names slots task) }
{
    if task == 0 {
        add_array(alloc, names, SlotName::Assign, slots)
    } else {
        add_words(alloc, names, task, &CAR_WORDS)
    }
}

fn add_words(
    alloc: Global,
    names: &mut Vec<String>,
    task: u8,
    words: &[&str],
) -> Result<(), AllocError>
    ensures { OnOk result (map string_bytes names.new.items ≡ map string_bytes names.old.items
        ++ map (in_task task) (map (λ w. w.now) words.now)) }
{
    'words: for word in words {
        names.push(in_task(alloc, task, word)?)?;
    }
    Ok(())
}

fn add_variables(
    alloc: Global,
    names: &mut Vec<String>,
    task: u8,
    cells: &[Cell],
) -> Result<(), AllocError>
    ensures { OnOk result (map string_bytes names.new.items ≡ map string_bytes names.old.items
        ++ map (λ (cell : Cell). in_task task cell.path) cells.now) }
{
    'cells: for cell in cells {
        names.push(in_task(alloc, task, cell.path.as_str())?)?;
    }
    Ok(())
}

fn add_globals(alloc: Global, names: &mut Vec<String>, cells: &[Cell]) -> Result<(), AllocError>
    ensures { OnOk result (map string_bytes names.new.items ≡ map string_bytes names.old.items
        ++ map (λ (cell : Cell). cell.path) cells.now) }
{
    'cells: for cell in cells {
        names.push(String::from_str(alloc, cell.path.as_str())?)?;
    }
    Ok(())
}

// A name after that of a task and a period.
fn in_task(alloc: Global, task: u8, path: &str) -> Result<String, AllocError>
    ensures { IfOk result (λ name. string_bytes name ≡ in_task task path.now) }
{
    let mut name = String::new(alloc);
    put_task(&mut name, task)?;
    name.push_str(".")?;
    name.push_str(path)?;
    Ok(name)
}

/// Of names those of the parts of another, which need not be among them.
pub fn parts_in<'n>(
    alloc: Global,
    names: &'n [String],
    whole: &str,
) -> Result<Vec<&'n str>, AllocError>
    ensures { IfOk result (λ parts. map (λ p. p.now) parts.items
        ≡ parts_in (map string_bytes names.now) whole.now) }
{
    let dotted = format!(in alloc; "{whole}.")?;
    let bracketed = format!(in alloc; "{whole}[")?;
    let mut parts = Vec::new(alloc);
    'names: for name in names {
        if begins(name, &dotted, &bracketed) {
            parts.push(name.as_str())?;
        }
    }
    Ok(parts)
}

fn begins(name: &str, dotted: &str, bracketed: &str) -> bool
    ensures { result ≡ (starts_with nat_eq name.now dotted.now
        || starts_with nat_eq name.now bracketed.now) }
{
    name.starts_with(dotted) || name.starts_with(bracketed)
}
