// The variables of units, with the blocks of their types found.

ghost use Rattle.std.specs.Prelude.{◌≡◌, ◌++◌, ◌∷◌, [], map, flat_map, IfOk, OnOk, option_map};
ghost use Rattle.il_statics.specs.Names.{is_program_kind, program_role};
ghost use Rattle.il_semantics.specs.Meaning.{entities, initial_value, own_entities, result_entities};
ghost use Rattle.load_scope.specs.Views.{type_of};
ghost use Rattle.load_scope.specs.Images.{named};
ghost use Rattle.load_slots.specs.Making.{variable, shown, added, is_in_part, seen_entry, with_image};
ghost use Rattle.load_slots.specs.Flattened.{function_entities};
ghost use Rattle.load_slots.specs.Places.{seen_image, unit_entities};

use base_lists::Items;
use il_semantics::value::Value;
use il_statics::names::{Audience, Role};
use il_syntax::name::Name;
use il_syntax::tree::{Declaration, Elementary, Initial, Literal, Named, Scalar, Unit, UnitKind};
use load_scope::entry::VariableType;
use load_scope::{ImageRow, Scoped, image_rows, is_program, is_seen_by};
use std::alloc::{AllocError, Global};

/// A variable of a unit: its type with its block found, and its initial value if it has one.
#[derive(Drop)]
pub struct Variable {
    pub name: Name,
    pub declared: VariableType,
    pub initial: Option<Literal>,
}

/// The initial value of a scalar (IEC 61131-3:2003, 2.4.3.2).
pub fn initial_value(scalar: Scalar, initial: Option<Literal>) -> Value
    ensures { result ≡ initial_value scalar initial }
{
    match (initial, scalar.subrange, scalar.elementary) {
        (Some(literal), _, _) => match literal {
            Literal::Truth(flag) => Value::Boolean(flag),
            Literal::Bare(number) | Literal::Whole(_, number) | Literal::Time(number) => {
                Value::Integer(number)
            }
        },
        (None, Some(subrange), _) => Value::Integer(subrange.lower),
        (None, None, Elementary::Bool) => Value::Boolean(false),
        (None, None, _) => Value::Integer(0),
    }
}

// Adds a variable.
fn push(
    alloc: Global,
    list: &mut Items<Variable>,
    name: &str,
    declared: VariableType,
    initial: Option<Literal>,
) -> Result<(), AllocError>
    ensures { OnOk result (list.new ≡ list.old ++ variable name.now declared initial ∷ []) }
{
    let name = Name::of(alloc, name)?;
    list.push(Variable {
        name,
        declared,
        initial,
    })
}

// Adds variables of one type.
fn add_names(
    alloc: Global,
    list: &mut Items<Variable>,
    names: &[Named],
    declared: VariableType,
    initial: Option<Literal>,
) -> Result<(), AllocError>
    ensures { OnOk result (list.new ≡ added list.old
        (map (λ n. variable n.name declared initial) names.now)) }
{
    'names: for named in names {
        push(alloc, list, named.name.as_str(), declared, initial)?;
    }
    Ok(())
}

// The literal of an initial value.
fn literal_of(initial: Option<Initial>) -> Option<Literal>
    ensures { result ≡ option_map (λ i. i.literal) initial }
{
    match initial {
        Some(initial) => Some(initial.literal),
        None => None,
    }
}

// Adds the variables of declarations.
fn add_declarations(
    alloc: Global,
    names: &Scoped,
    list: &mut Items<Variable>,
    declarations: &[Declaration],
) -> Result<(), AllocError>
    ensures { OnOk result (list.new ≡ added list.old
        (map (shown names.now) (entities declarations.now))) }
{
    'lists: for declaration in declarations {
        let declared = names.type_of(&declaration.declared.form);
        let initial = literal_of(declaration.initial);
        add_names(alloc, list, declaration.names.as_slice(), declared, initial)?;
    }
    Ok(())
}

// Adds a unit's own variables: its inputs, outputs and variables.
#[tactic(auto, using(crate::proofs::Seen::own_added))]
fn add_own(
    alloc: Global,
    names: &Scoped,
    list: &mut Items<Variable>,
    unit: &Unit,
) -> Result<(), AllocError>
    ensures { OnOk result (list.new ≡ added list.old
        (map (shown names.now) (own_entities unit.now))) }
{
    add_declarations(alloc, names, list, unit.inputs.as_slice())?;
    add_declarations(alloc, names, list, unit.outputs.as_slice())?;
    add_declarations(alloc, names, list, unit.variables.as_slice())
}

/// A unit's own variables (IEC 61131-3:2003, 2.5).
#[tactic(auto, using(crate::proofs::Seen::added_all))]
pub fn own_variables(
    alloc: Global,
    names: &Scoped,
    unit: &Unit,
) -> Result<Items<Variable>, AllocError>
    ensures { IfOk result (λ vs. vs ≡ map (shown names.now) (own_entities unit.now)) }
{
    let mut list = Items::new(alloc);
    add_own(alloc, names, &mut list, unit)?;
    Ok(list)
}

// Adds a function's result (2.5.1).
fn add_result(
    alloc: Global,
    names: &Scoped,
    list: &mut Items<Variable>,
    unit: &Unit,
) -> Result<(), AllocError>
    ensures { OnOk result (list.new ≡ added list.old
        (map (shown names.now) (result_entities unit.now.kind unit.now.name.name))) }
{
    let _config = names.config();
    match unit.kind {
        UnitKind::Function(scalar, _) => push(
            alloc,
            list,
            unit.name.name.as_str(),
            VariableType::Scalar(scalar),
            None,
        ),
        _ => Ok(()),
    }
}

// A part of the image.
#[derive(Clone, Copy)]
enum Part {
    /// What every program sees.
    Common,
    /// What programs of one role see.
    OfRole,
}

// Whether what is for an audience is in a part of the image.
fn is_in_part(part: Part, audience: Audience) -> bool
    ensures { result ≡ is_in_part part audience }
{
    match part {
        Part::Common => matches!(audience, Audience::Everybody),
        Part::OfRole => !matches!(audience, Audience::Everybody),
    }
}

// Adds the image name of a row, if it is in this part of the image and programs of the role see it.
fn add_row(
    alloc: Global,
    names: &Scoped,
    list: &mut Items<Variable>,
    role: Option<Role>,
    part: Part,
    row: &ImageRow,
) -> Result<(), AllocError>
    ensures { OnOk result (list.new ≡ added list.old
        (seen_entry role part (named names.now row.now))) }
{
    let image = names.image_name(row);
    if is_in_part(part, image.audience) && is_seen_by(role, image.audience) {
        push(alloc, list, row.name, image.variable.declared, None)
    } else {
        Ok(())
    }
}

// Adds what programs of a role see of these rows, in one part of the image.
fn add_rows(
    alloc: Global,
    names: &Scoped,
    list: &mut Items<Variable>,
    role: Option<Role>,
    part: Part,
    rows: &[ImageRow],
) -> Result<(), AllocError>
    ensures { OnOk result (list.new ≡ added list.old
        (flat_map (seen_entry role part) (map (named names.now) rows.now))) }
{
    'all: for row in rows {
        add_row(alloc, names, list, role, part, row)?;
    }
    Ok(())
}

// Adds what programs of a role see of the image: what every program sees, and then the rest.
fn add_image(
    alloc: Global,
    names: &Scoped,
    list: &mut Items<Variable>,
    role: Option<Role>,
) -> Result<(), AllocError>
    ensures { OnOk result (list.new ≡ with_image list.old names.now role) }
{
    let rows = image_rows();
    add_rows(alloc, names, list, role, Part::Common, rows)?;
    add_rows(alloc, names, list, role, Part::OfRole, rows)
}

// Adds what a unit sees of the image: programs alone see it.
#[tactic(auto, using(crate::proofs::Seen::image_added, crate::proofs::Seen::none_is))]
fn add_seen(
    alloc: Global,
    names: &Scoped,
    list: &mut Items<Variable>,
    unit: &Unit,
) -> Result<(), AllocError>
    ensures { OnOk result (list.new ≡ added list.old
        (map (shown names.now) (seen_image names.now unit.now))) }
{
    if !is_program(unit.kind) {
        return Ok(());
    }
    add_image(alloc, names, list, names.role(unit.name.name.as_str()))
}

/// What a unit declares and sees beside its own variables: its result, externals, and the image.
#[tactic(auto, using(crate::proofs::Seen::others_added))]
pub fn other_variables(
    alloc: Global,
    names: &Scoped,
    unit: &Unit,
) -> Result<Items<Variable>, AllocError>
    ensures { IfOk result (λ vs. map (shown names.now) (own_entities unit.now) ++ vs
        ≡ map (shown names.now) (unit_entities names.now unit.now)) }
{
    let mut list = Items::new(alloc);
    add_result(alloc, names, &mut list, unit)?;
    add_declarations(alloc, names, &mut list, unit.externals.as_slice())?;
    add_seen(alloc, names, &mut list, unit)?;
    Ok(list)
}

/// The inputs of a unit.
#[tactic(auto, using(crate::proofs::Seen::added_all))]
pub fn input_variables(
    alloc: Global,
    names: &Scoped,
    unit: &Unit,
) -> Result<Items<Variable>, AllocError>
    ensures { IfOk result (λ vs. vs ≡ map (shown names.now) (entities unit.now.inputs)) }
{
    let mut list = Items::new(alloc);
    add_declarations(alloc, names, &mut list, unit.inputs.as_slice())?;
    Ok(list)
}

/// The globals.
#[tactic(auto, using(crate::proofs::Seen::added_all))]
pub fn global_variables(alloc: Global, names: &Scoped) -> Result<Items<Variable>, AllocError>
    ensures { IfOk result (λ vs. vs ≡ map (shown names.now) (entities names.now.globals)) }
{
    let mut list = Items::new(alloc);
    let globals = names.config().globals.as_slice();
    add_declarations(alloc, names, &mut list, globals)?;
    Ok(list)
}

/// A function's variables, its result after them.
#[tactic(auto, using(crate::proofs::Seen::function_added))]
pub fn function_variables(
    alloc: Global,
    names: &Scoped,
    unit: &Unit,
) -> Result<Items<Variable>, AllocError>
    ensures { IfOk result (λ vs. vs ≡ map (shown names.now) (function_entities unit.now)) }
{
    let mut list = Items::new(alloc);
    add_own(alloc, names, &mut list, unit)?;
    add_result(alloc, names, &mut list, unit)?;
    Ok(list)
}
