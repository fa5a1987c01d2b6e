// Tables of names.

ghost use Rattle.std.specs.Prelude.{◌≡◌, IfOk, OnOk, map};
ghost use Rattle.il_statics.specs.Names.{Spelling, or_else};
ghost use Rattle.base_maps.specs.NameMap as table;
ghost use Rattle.load_scope.specs.Views.{place_of, type_of};
ghost use Rattle.load_scope.specs.Meanings.{own_result};
ghost use Rattle.load_scope.specs.Tables.{with_role, AreUnits, HasForms, HasNames, HasRoles, HasList, HasVariables, HasImages, HasOwn, IsScope, AreScopes, AreTables};

use crate::entry::{Variable, VariableType};
use crate::image::{ImageRow, image_in, image_rows};
use crate::inputs::input_scalars;
use crate::labels::label_table;
use crate::meaning::image_seen;
use crate::numbers::block_type;
use crate::roles::task_role;
use crate::stores::stored_by;
use base_lists::Items;
use base_maps::Table;
use il_statics::names::{Origin, Role};
use il_syntax::tree::{Config, Declaration, Form, Named, ProgramLine, Scalar, Unit, UnitKind};
use std::alloc::{AllocError, Global};

/// The variables, the labels and the stores of a unit by their names.
#[derive(Drop)]
pub struct Scope {
    /// The types of its inputs; the first of a name counts.
    pub inputs: Table<VariableType>,
    /// The types of its outputs.
    pub outputs: Table<VariableType>,
    /// The scalar types of its inputs, in their order.
    pub scalars: Items<Option<Scalar>>,
    /// What its body names: a function's result, the variables of all lists, then the image names; the first of a name counts.
    /// None where the unit doesn't see an image name.
    pub own: Table<Option<Variable>>,
    /// The places of its labels, counted from 0; the first of a name counts.
    pub labels: Table<usize>,
    /// The names that its body stores into.
    pub stored: Table<bool>,
}

/// The names of a configuration.
#[derive(Drop)]
pub struct Tables {
    /// The number of the first unit of a name, counted from 0.
    pub units: Table<usize>,
    pub globals: Table<VariableType>,
    /// The roles of programs, by the programs' names.
    pub roles: Table<Role>,
    /// The scope of each unit.
    pub scopes: Items<Scope>,
}

/// The names of a configuration.
pub fn tables_of(alloc: Global, config: &Config) -> Result<Tables, AllocError>
    ensures { IfOk result (λ t. AreTables config.now t) }
{
    let units = unit_table(alloc, config.units.as_slice())?;
    scoped_tables(alloc, config, units)
}

// The names of a configuration with these units.
fn scoped_tables(alloc: Global, config: &Config, units: Table<usize>) -> Result<Tables, AllocError>
    requires { AreUnits config.now units }
    ensures { IfOk result (λ t. AreTables config.now t) }
{
    let roles = role_table(alloc, config)?;
    let scopes = scopes(alloc, config, &units, &roles)?;
    Ok(Tables {
        globals: form_table(alloc, config, &units, config.globals.as_slice())?,
        roles,
        scopes,
        units,
    })
}

// The number of the first unit of each name.
fn unit_table(alloc: Global, units: &[Unit]) -> Result<Table<usize>, AllocError>
    ensures { IfOk result (λ t. (name : Spelling) → table.get t name
        ≡ place_of (map (λ u. u.name.name) units.now) name) }
{
    let mut table = Table::new(alloc);
    for index in 0..units.len() {
        table.put_new(alloc, units[index].name.name.as_str(), index)?;
    }
    Ok(table)
}

// The role of each program: that of the first PROGRAM line that gives it one.
fn role_table(alloc: Global, config: &Config) -> Result<Table<Role>, AllocError>
    ensures { IfOk result (λ t. HasRoles config.now config.now.programs t) }
{
    let mut roles = Table::new(alloc);
    for line in config.programs.as_slice() {
        put_role(alloc, config.cars.value, line, &mut roles)?;
    }
    Ok(roles)
}

// Adds the role that a PROGRAM line gives, if its program has none.
fn put_role(
    alloc: Global,
    cars: i64,
    line: &ProgramLine,
    roles: &mut Table<Role>,
) -> Result<(), AllocError>
    ensures { OnOk result (roles.new ≡ with_role cars line.now roles.old) }
{
    match task_role(cars, line.task.name.as_str()) {
        Some(role) => roles.put_new(alloc, line.program.name.as_str(), role),
        None => Ok(()),
    }
}

// The scope of each unit.
fn scopes(
    alloc: Global,
    config: &Config,
    units: &Table<usize>,
    roles: &Table<Role>,
) -> Result<Items<Scope>, AllocError>
    requires units { AreUnits config.now units.now }
    requires roles { HasRoles config.now config.now.programs roles.now }
    ensures { IfOk result (λ s. AreScopes config.now config.now.units s) }
{
    let mut scopes = Items::new(alloc);
    for unit in config.units.as_slice() {
        scopes.push(scope_of(alloc, config, units, roles, unit)?)?;
    }
    Ok(scopes)
}

// The scope of a unit.
fn scope_of(
    alloc: Global,
    config: &Config,
    units: &Table<usize>,
    roles: &Table<Role>,
    unit: &Unit,
) -> Result<Scope, AllocError>
    requires units { AreUnits config.now units.now }
    requires roles { HasRoles config.now config.now.programs roles.now }
    ensures { IfOk result (λ s. IsScope config.now unit.now s) }
{
    Ok(Scope {
        inputs: form_table(alloc, config, units, unit.inputs.as_slice())?,
        outputs: form_table(alloc, config, units, unit.outputs.as_slice())?,
        scalars: input_scalars(alloc, unit)?,
        own: own_table(alloc, config, units, roles, unit)?,
        labels: label_table(alloc, &unit.body)?,
        stored: stored_by(alloc, unit.body.steps.as_slice())?,
    })
}

// The variables of a unit and the image names.
fn own_table(
    alloc: Global,
    config: &Config,
    units: &Table<usize>,
    roles: &Table<Role>,
    unit: &Unit,
) -> Result<Table<Option<Variable>>, AllocError>
    requires units { AreUnits config.now units.now }
    requires roles { HasRoles config.now config.now.programs roles.now }
    ensures { IfOk result (HasOwn config.now unit.now) }
{
    let mut own = variable_table(alloc, config, units, unit)?;
    let role = roles.get(unit.name.name.as_str());
    put_images(alloc, config, unit.kind, role, image_rows(), &mut own)?;
    Ok(own)
}

// Adds the image names that are not there.
fn put_images(
    alloc: Global,
    config: &Config,
    kind: UnitKind,
    role: Option<Role>,
    rows: &[ImageRow],
    own: &mut Table<Option<Variable>>,
) -> Result<(), AllocError>
    ensures { OnOk result (HasImages config.now kind role rows.now own.old own.new) }
{
    for row in rows {
        let seen = image_seen(kind, role, image_in(config, row));
        own.put_new(alloc, row.name, seen)?;
    }
    Ok(())
}

// The variables of a unit.
fn variable_table(
    alloc: Global,
    config: &Config,
    units: &Table<usize>,
    unit: &Unit,
) -> Result<Table<Option<Variable>>, AllocError>
    requires { AreUnits config.now units.now }
    ensures { IfOk result (HasVariables config.now unit.now) }
{
    let mut own = Table::new(alloc);
    put_result(alloc, unit, &mut own)?;
    put_list(
        alloc,
        config,
        units,
        Origin::Input,
        unit.inputs.as_slice(),
        &mut own,
    )?;
    put_list(
        alloc,
        config,
        units,
        Origin::Output,
        unit.outputs.as_slice(),
        &mut own,
    )?;
    put_list(
        alloc,
        config,
        units,
        Origin::Local,
        unit.variables.as_slice(),
        &mut own,
    )?;
    put_list(
        alloc,
        config,
        units,
        Origin::External,
        unit.externals.as_slice(),
        &mut own,
    )?;
    Ok(own)
}

// Adds a function's variable of its own name, which is its result (2.5.1).
fn put_result(
    alloc: Global,
    unit: &Unit,
    own: &mut Table<Option<Variable>>,
) -> Result<(), AllocError>
    ensures { OnOk result ((name : Spelling) → table.get own.new name
        ≡ or_else (table.get own.old name) (own_result unit.now.kind unit.now.name.name name)) }
{
    match unit.kind {
        UnitKind::Function(scalar, _) => {
            let result = Variable {
                declared: VariableType::Scalar(scalar),
                origin: Origin::FunctionResult,
            };
            own.put_new(alloc, unit.name.name.as_str(), Some(result))
        }
        _ => Ok(()),
    }
}

// Adds the variables of a list whose names are not there.
fn put_list(
    alloc: Global,
    config: &Config,
    units: &Table<usize>,
    origin: Origin,
    declarations: &[Declaration],
    own: &mut Table<Option<Variable>>,
) -> Result<(), AllocError>
    requires { AreUnits config.now units.now }
    ensures { OnOk result (HasList config.now origin declarations.now own.old own.new) }
{
    for declaration in declarations {
        let declared = type_of(config, units, &declaration.declared.form);
        let variable = Variable { declared, origin };
        put_names(alloc, declaration.names.as_slice(), Some(variable), own)?;
    }
    Ok(())
}

// The types of declared variables; the first of a name counts.
fn form_table(
    alloc: Global,
    config: &Config,
    units: &Table<usize>,
    declarations: &[Declaration],
) -> Result<Table<VariableType>, AllocError>
    requires { AreUnits config.now units.now }
    ensures { IfOk result (λ t. HasForms config.now declarations.now t) }
{
    let mut table = Table::new(alloc);
    for declaration in declarations {
        let declared = type_of(config, units, &declaration.declared.form);
        put_names(alloc, declaration.names.as_slice(), declared, &mut table)?;
    }
    Ok(table)
}

// Adds the names that are not there, each with this value.
fn put_names<X: Copy>(
    alloc: Global,
    names: &[Named],
    value: X,
    table: &mut Table<X>,
) -> Result<(), AllocError>
    ensures { OnOk result (HasNames names.now value table.old table.new) }
{
    for named in names {
        table.put_new(alloc, named.name.as_str(), value)?;
    }
    Ok(())
}

/// A written type.
pub fn type_of(config: &Config, units: &Table<usize>, form: &Form) -> VariableType
    requires { AreUnits config.now units.now }
    ensures { result ≡ type_of config.now form.now }
{
    match form {
        Form::Scalar(scalar) => VariableType::Scalar(*scalar),
        Form::Array { bounds, element } => VariableType::Array {
            bounds: *bounds,
            element: *element,
        },
        Form::Block(name) => VariableType::Instance(block_type(config, units, name.as_str())),
    }
}
