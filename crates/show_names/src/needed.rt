// Whether something calls or declares a unit.

ghost use Rattle.std.specs.Prelude.{◌≡◌, ◌||◌, List, ℕ, is_some, IfOk, OnOk};
ghost use Rattle.std.specs.List.{list_any};
ghost use Rattle.il_syntax.specs.declared.tree.Unit.{Unit as ProgramUnit};
ghost use Rattle.base_maps.specs.NameMap.{get};
ghost use Rattle.show_names.specs.Uses.{is_use, is_used, use_shown};
ghost use Rattle.show_names.specs.declared.uses.Manner.TheVariants.{Called as IsCalled};
ghost use Rattle.show_names.specs.Warnings.{is_called, is_block_of, have_instance, has_instance, is_needed, is_car_task, drives_car};

use crate::uses::{Manner, Use, uses};
use base_maps::Table;
use il_statics::limits::MOST_CARS;
use il_syntax::tree::{Config, Declaration, Form, ProgramLine, Step, Unit, UnitKind};
use load_scope::roles::car_number;
use std::alloc::{AllocError, Global};

/// A configuration, with the names that its bodies call, and those of the function blocks of
/// which its units declare an instance.
#[derive(Drop)]
pub struct Needed<'c> {
    pub config: &'c Config,
    called: Table<bool>,
    declared: Table<bool>,
    ghost calls: { (name : List ℕ) → is_some (get called name) ≡ is_called config.now name },
    ghost instances: { (name : List ℕ) → is_some (get declared name) ≡ has_instance config.now name },
}

impl<'c> Needed<'c> {
    /// What a configuration calls and declares, in one pass over its units.
    pub fn of(alloc: Global, config: &'c Config) -> Result<Needed<'c>, AllocError>
        ensures { IfOk result (λ needed. needed.config.now ≡ config.now) }
    {
        let called = called_names(alloc, config.units.as_slice())?;
        let declared = blocks_of_instances(alloc, config.units.as_slice())?;
        Ok(Needed {
            config,
            called,
            declared,
        })
    }

    /// Whether a unit is called, or declared as an instance, as its kind asks for. A program is:
    /// one that no PROGRAM line names is refused.
    pub fn has(&self, kind: UnitKind, name: &str) -> bool
        ensures { result ≡ is_needed self.now.config.now kind name.now }
    {
        match kind {
            UnitKind::Function(_, _) => self.called.get(name).is_some(),
            UnitKind::FunctionBlock => self.declared.get(name).is_some(),
            UnitKind::Program => true,
        }
    }
}

// The names that bodies call.
fn called_names(alloc: Global, units: &[Unit]) -> Result<Table<bool>, AllocError>
    ensures { IfOk result (λ table. (name : List ℕ) → is_some (get table name)
        ≡ list_any (λ (u : ProgramUnit). is_used IsCalled name u.body.steps) units.now) }
{
    let mut table = Table::new(alloc);
    'units: for unit in units {
        put_called(alloc, &mut table, unit.body.steps.as_slice())?;
    }
    Ok(table)
}

// Puts the names that steps call into a table.
fn put_called(alloc: Global, table: &mut Table<bool>, steps: &[Step]) -> Result<(), AllocError>
    ensures { OnOk result ((name : List ℕ) → is_some (get table.new name)
        ≡ (is_some (get table.old name) || is_used IsCalled name steps.now)) }
{
    'uses: for used in uses(steps) {
        put_use(alloc, table, &used)?;
    }
    Ok(())
}

// Puts the name of a use into a table, if it is called.
fn put_use(alloc: Global, table: &mut Table<bool>, used: &Use<'_>) -> Result<(), AllocError>
    ensures { OnOk result ((name : List ℕ) → is_some (get table.new name)
        ≡ (is_some (get table.old name) || is_use IsCalled name (use_shown used.now))) }
{
    match used.manner {
        Manner::Read => Ok(()),
        Manner::Written => Ok(()),
        Manner::Called => table.put(alloc, used.name, true),
    }
}

// The function blocks of which units declare an instance.
fn blocks_of_instances(alloc: Global, units: &[Unit]) -> Result<Table<bool>, AllocError>
    ensures { IfOk result (λ table. (name : List ℕ) → is_some (get table name)
        ≡ list_any (λ (u : ProgramUnit). have_instance name u.variables) units.now) }
{
    let mut table = Table::new(alloc);
    'units: for unit in units {
        put_blocks(alloc, &mut table, unit.variables.as_slice())?;
    }
    Ok(table)
}

// Puts the function blocks of which declarations have an instance into a table.
fn put_blocks(
    alloc: Global,
    table: &mut Table<bool>,
    declarations: &[Declaration],
) -> Result<(), AllocError>
    ensures { OnOk result ((name : List ℕ) → is_some (get table.new name)
        ≡ (is_some (get table.old name) || have_instance name declarations.now)) }
{
    'declarations: for declaration in declarations {
        put_block(alloc, table, &declaration.declared.form)?;
    }
    Ok(())
}

// Puts a type into a table, if it is a function block.
fn put_block(alloc: Global, table: &mut Table<bool>, form: &Form) -> Result<(), AllocError>
    ensures { OnOk result ((name : List ℕ) → is_some (get table.new name)
        ≡ (is_some (get table.old name) || is_block_of name form.now)) }
{
    match form {
        Form::Scalar(_) => Ok(()),
        Form::Array { .. } => Ok(()),
        Form::Block(block) => table.put(alloc, block.as_str(), true),
    }
}

/// Whether a PROGRAM line gives a program to a car's task.
pub fn drives_car(lines: &[ProgramLine], name: &str) -> bool
    ensures { result ≡ drives_car lines.now name.now }
{
    'lines: for line in lines {
        if line.program.name.as_str() == name && is_car_task(line.task.name.as_str()) {
            return true;
        }
    }
    false
}

// Whether a task is a car's.
#[tactic(auto, unfolding(crate::specs::Warnings::is_car_task))]
fn is_car_task(name: &str) -> bool
    ensures { result ≡ is_car_task name.now }
{
    car_number(i64::from(MOST_CARS), name).is_some()
}
