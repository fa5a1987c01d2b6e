// What is reported of a name that is unknown where it is (21).

ghost use Rattle.std.specs.Prelude.{◌≡◌, ◌++◌, OnOk, codes, flat_map, is_some, map, nat_eq, option_map};
ghost use Rattle.std.specs.List.{ends_with, starts_with};
ghost use Rattle.base_texts.specs.Puts.{Puts};
ghost use Rattle.il_statics.specs.Names.{block_variables, function_named};
ghost use Rattle.reasons_names.specs.NamesNear.{near_shown, candidate_shown, nearest};
ghost use Rattle.reasons_names.specs.NamesKnown.{functions_near};
ghost use Rattle.reasons_names.specs.NamesUnknown.{unknown_line, unseen_line, no_function_line, programs_line, programs_by, unseen_text, is_of_time, time_line, time_lines, no_function_text, instance_line, unit_line, standard_line, no_instance_line, no_word, unknown_text, unknown_variable, unknown_instance, scalar_text, meaning_text, called_text, index_text, word_text, member_text, reference_text, read_text, argument_text, function_text, instruction_text, block_text, type_text, global_text, external_text, externals_text, types_text, unit_text, unknown_lines};

use crate::names_known::{
    functions_near, globals_near, instances_near, types_near, variables_near,
};
use crate::names_meant::{Access, Meant, is_visible, meaning_of};
use crate::names_near::{Candidate, Near, nearest, put_ended};
use crate::names_spots::is_at;
use crate::writing::{put_four, put_two};
use il_syntax::tree::{
    Argument, Declaration, Form, Index, Instruction, Named, Operand, Place, Reference, Unit,
    UnitKind,
};
use load_scope::functions::standard_function;
use load_scope::{Scoped, UnitScope};
use std::alloc::{AllocError, Global};

/// Adds what is reported of the declared names that are unknown at a place: an external's or a type's, with one that is near (own rule).
#[tactic(auto, unfolding(crate::specs::NamesUnknown::unknown_lines))]
pub fn put_unknown_at(
    alloc: Global,
    text: &mut String,
    names: &Scoped,
    place: Place,
) -> Result<(), AllocError>
    ensures { OnOk result (Puts text.old text.new (unknown_lines names.now place)) }
{
    let config = names.config();
    put_units(alloc, text, names, config.units.as_slice(), place)?;
    put_types(alloc, text, names, config.globals.as_slice(), place)
}

fn put_units(
    alloc: Global,
    text: &mut String,
    names: &Scoped,
    units: &[Unit],
    place: Place,
) -> Result<(), AllocError>
    ensures { OnOk result (Puts text.old text.new
        (flat_map (unit_text names.now place) units.now)) }
{
    'units: for unit in units {
        put_unit(alloc, text, names, unit, place)?;
    }
    Ok(())
}

// The types and the external names of a unit.
fn put_unit(
    alloc: Global,
    text: &mut String,
    names: &Scoped,
    unit: &Unit,
    place: Place,
) -> Result<(), AllocError>
    ensures { OnOk result (Puts text.old text.new (unit_text names.now place unit.now)) }
{
    put_types(alloc, text, names, unit.inputs.as_slice(), place)?;
    put_types(alloc, text, names, unit.outputs.as_slice(), place)?;
    put_types(alloc, text, names, unit.variables.as_slice(), place)?;
    put_types(alloc, text, names, unit.externals.as_slice(), place)?;
    put_externals(alloc, text, names, unit.externals.as_slice(), place)
}

// The types of declarations.
fn put_types(
    alloc: Global,
    text: &mut String,
    names: &Scoped,
    declarations: &[Declaration],
    place: Place,
) -> Result<(), AllocError>
    ensures { OnOk result (Puts text.old text.new (types_text names.now place declarations.now)) }
{
    'declarations: for declaration in declarations {
        put_type(alloc, text, names, declaration, place)?;
    }
    Ok(())
}

// The type at a place, where it is a name that is no block's.
fn put_type(
    alloc: Global,
    text: &mut String,
    names: &Scoped,
    declaration: &Declaration,
    place: Place,
) -> Result<(), AllocError>
    ensures { OnOk result (Puts text.old text.new (type_text names.now place declaration.now)) }
{
    if !is_at(declaration.declared.place, place) {
        return Ok(());
    }
    match &declaration.declared.form {
        Form::Block(name) => put_block(alloc, text, names, name.as_str()),
        _ => Ok(()),
    }
}

// A name that no block has.
fn put_block(alloc: Global, text: &mut String, names: &Scoped, name: &str) -> Result<(), AllocError>
    ensures { OnOk result (Puts text.old text.new (block_text names.now name.now)) }
{
    if is_block(names, name) {
        return Ok(());
    }
    let known = types_near(alloc, names.config())?;
    put_unknown(alloc, text, name, known.as_slice())
}

// Whether a name is a block's.
#[tactic(auto, using(load_scope::proofs::Laws::block_there))]
fn is_block(names: &Scoped, name: &str) -> bool
    ensures { result ≡ is_some (block_variables names.now name.now) }
{
    names.block(name).is_some()
}

// The external names of declarations.
fn put_externals(
    alloc: Global,
    text: &mut String,
    names: &Scoped,
    externals: &[Declaration],
    place: Place,
) -> Result<(), AllocError>
    ensures { OnOk result (Puts text.old text.new
        (flat_map (externals_text names.now place) externals.now)) }
{
    'externals: for external in externals {
        put_names(alloc, text, names, external.names.as_slice(), place)?;
    }
    Ok(())
}

// The external names of a declaration.
fn put_names(
    alloc: Global,
    text: &mut String,
    names: &Scoped,
    named: &[Named],
    place: Place,
) -> Result<(), AllocError>
    ensures { OnOk result (Puts text.old text.new
        (flat_map (external_text names.now place) named.now)) }
{
    'named: for name in named {
        put_external(alloc, text, names, name, place)?;
    }
    Ok(())
}

// The external name at a place.
fn put_external(
    alloc: Global,
    text: &mut String,
    names: &Scoped,
    name: &Named,
    place: Place,
) -> Result<(), AllocError>
    ensures { OnOk result (Puts text.old text.new (external_text names.now place name.now)) }
{
    if is_at(name.place, place) {
        put_global(alloc, text, names, name.name.as_str())
    } else {
        Ok(())
    }
}

// An external name that no global has.
#[tactic(auto, using(crate::proofs::Meanings::some_changed))]
fn put_global(
    alloc: Global,
    text: &mut String,
    names: &Scoped,
    name: &str,
) -> Result<(), AllocError>
    ensures { OnOk result (Puts text.old text.new (global_text names.now name.now)) }
{
    if names.global(name).is_some() {
        return Ok(());
    }
    let known = globals_near(alloc, names.config())?;
    put_unknown(alloc, text, name, known.as_slice())
}

/// Adds what is reported of the unknown names of an instruction; labels are no such names (own rule).
pub fn put_instruction(
    alloc: Global,
    text: &mut String,
    here: &UnitScope<'_>,
    instruction: &Instruction,
) -> Result<(), AllocError>
    ensures { OnOk result (Puts text.old text.new
        (instruction_text here.now.config here.now.unit instruction.now)) }
{
    match instruction {
        Instruction::Load { operand, .. } => put_reference(
            alloc,
            text,
            here,
            Access::Reads,
            &operand.reference,
        ),
        Instruction::Store { target, .. } => {
            put_reference(alloc, text, here, Access::Stores, &target.reference)
        }
        Instruction::Operate { operand, .. } => put_reference(
            alloc,
            text,
            here,
            Access::Reads,
            &operand.reference,
        ),
        Instruction::Defer { first, .. } => match first {
            Some(operand) => { put_reference(alloc, text, here, Access::Reads, &operand.reference) }
            None => Ok(()),
        },
        Instruction::Call {
            instance,
            arguments,
            ..
        } => {
            put_called(alloc, text, here, instance.name.as_str())?;
            put_arguments(alloc, text, here, arguments.as_slice())
        }
        Instruction::Invoke { function, operands } => {
            put_function(alloc, text, here.names(), function.name.as_str())?;
            put_operands(alloc, text, here, operands.as_slice())
        }
        _ => Ok(()),
    }
}

fn put_arguments(
    alloc: Global,
    text: &mut String,
    here: &UnitScope<'_>,
    arguments: &[Argument],
) -> Result<(), AllocError>
    ensures { OnOk result (Puts text.old text.new
        (flat_map (argument_text here.now.config here.now.unit) arguments.now)) }
{
    'arguments: for argument in arguments {
        put_argument(alloc, text, here, argument)?;
    }
    Ok(())
}

fn put_argument(
    alloc: Global,
    text: &mut String,
    here: &UnitScope<'_>,
    argument: &Argument,
) -> Result<(), AllocError>
    ensures { OnOk result (Puts text.old text.new
        (argument_text here.now.config here.now.unit argument.now)) }
{
    match argument {
        Argument::Input { operand, .. } => put_reference(
            alloc,
            text,
            here,
            Access::Reads,
            &operand.reference,
        ),
        Argument::Output { target, .. } => put_scalar(alloc, text, here, target.name.as_str()),
    }
}

fn put_operands(
    alloc: Global,
    text: &mut String,
    here: &UnitScope<'_>,
    operands: &[Operand],
) -> Result<(), AllocError>
    ensures { OnOk result (Puts text.old text.new
        (flat_map (read_text here.now.config here.now.unit) operands.now)) }
{
    'operands: for operand in operands {
        put_reference(alloc, text, here, Access::Reads, &operand.reference)?;
    }
    Ok(())
}

// A function's name.
#[tactic(auto, unfolding(crate::specs::NamesUnknown::function_text))]
fn put_function(
    alloc: Global,
    text: &mut String,
    names: &Scoped,
    name: &str,
) -> Result<(), AllocError>
    ensures { OnOk result (Puts text.old text.new (function_text names.now name.now)) }
{
    if standard_function(name).is_some() {
        return Ok(());
    }
    if is_function(names, name) {
        return Ok(());
    }
    put_no_function(alloc, text, names, name)
}

// Whether a name is an own function's.
#[tactic(auto, using(load_scope::proofs::Laws::function_there))]
fn is_function(names: &Scoped, name: &str) -> bool
    ensures { result ≡ is_some (function_named names.now name.now) }
{
    names.function(name).is_some()
}

// A name that no function has.
fn put_no_function(
    alloc: Global,
    text: &mut String,
    names: &Scoped,
    name: &str,
) -> Result<(), AllocError>
    ensures { OnOk result (Puts text.old text.new (no_function_text names.now name.now)) }
{
    put_no_near_function(alloc, text, names, name)?;
    put_time(text, name)
}

// That no function has the name, and the function whose name is nearest.
fn put_no_near_function(
    alloc: Global,
    text: &mut String,
    names: &Scoped,
    name: &str,
) -> Result<(), AllocError>
    ensures { OnOk result (Puts text.old text.new
        (no_function_line name.now (nearest name.now (functions_near names.now)))) }
{
    let known = functions_near(alloc, names.config())?;
    let near = nearest(alloc, name, known.as_slice())?;
    put_no_function_line(text, name, near)
}

// What an operand names.
fn put_reference(
    alloc: Global,
    text: &mut String,
    here: &UnitScope<'_>,
    access: Access,
    reference: &Reference,
) -> Result<(), AllocError>
    ensures { OnOk result (Puts text.old text.new
        (reference_text here.now.config here.now.unit access reference.now)) }
{
    match reference {
        Reference::Literal(_) => Ok(()),
        Reference::Variable(name) => put_scalar(alloc, text, here, name.as_str()),
        Reference::Element(name, index) => {
            put_meaning(alloc, text, here, name.as_str())?;
            put_index(alloc, text, here, index)
        }
        Reference::Member(name, word) => {
            put_member(alloc, text, here, access, name.as_str(), word.as_str())
        }
    }
}

fn put_index(
    alloc: Global,
    text: &mut String,
    here: &UnitScope<'_>,
    index: &Index,
) -> Result<(), AllocError>
    ensures { OnOk result (Puts text.old text.new
        (index_text here.now.config here.now.unit index.now)) }
{
    match index {
        Index::Number(_) => Ok(()),
        Index::Variable(name) => put_scalar(alloc, text, here, name.as_str()),
    }
}

// A name where a scalar variable is.
fn put_scalar(
    alloc: Global,
    text: &mut String,
    here: &UnitScope<'_>,
    name: &str,
) -> Result<(), AllocError>
    ensures { OnOk result (Puts text.old text.new
        (scalar_text here.now.config here.now.unit name.now)) }
{
    match meaning_of(here, name) {
        Meant::Nothing => put_unknown_variable(alloc, text, here, name),
        Meant::SingleVariable | Meant::ArrayVariable => Ok(()),
        Meant::Instance => put_instance_line(text, name),
        Meant::OwnUnit => put_unit_line(text, name),
        Meant::Standard => put_standard_line(text, name),
    }
}

// A name before an index.
fn put_meaning(
    alloc: Global,
    text: &mut String,
    here: &UnitScope<'_>,
    name: &str,
) -> Result<(), AllocError>
    ensures { OnOk result (Puts text.old text.new
        (meaning_text here.now.config here.now.unit name.now)) }
{
    match meaning_of(here, name) {
        Meant::Nothing => put_unknown_variable(alloc, text, here, name),
        _ => Ok(()),
    }
}

// A name after CAL.
fn put_called(
    alloc: Global,
    text: &mut String,
    here: &UnitScope<'_>,
    name: &str,
) -> Result<(), AllocError>
    ensures { OnOk result (Puts text.old text.new
        (called_text here.now.config here.now.unit name.now)) }
{
    match meaning_of(here, name) {
        Meant::Nothing => put_unknown_instance(alloc, text, here, name),
        _ => Ok(()),
    }
}

// A name before a dot, and the word after it.
fn put_member(
    alloc: Global,
    text: &mut String,
    here: &UnitScope<'_>,
    access: Access,
    name: &str,
    word: &str,
) -> Result<(), AllocError>
    ensures { OnOk result (Puts text.old text.new
        (member_text here.now.config here.now.unit access name.now word.now)) }
{
    match meaning_of(here, name) {
        Meant::Nothing => put_unknown_instance(alloc, text, here, name),
        Meant::Instance => put_word(text, here, access, name, word),
        _ => put_no_instance_line(text, name),
    }
}

// What a word after an instance isn't.
fn no_word(access: Access) -> &'static str
    ensures { result.now ≡ no_word access }
{
    match access {
        Access::Reads => " has no output ",
        Access::Stores => " has no input ",
    }
}

// A word after an instance.
#[tactic(auto, unfolding(crate::specs::NamesUnknown::no_word_line))]
fn put_word(
    text: &mut String,
    here: &UnitScope<'_>,
    access: Access,
    name: &str,
    word: &str,
) -> Result<(), AllocError>
    ensures { OnOk result (Puts text.old text.new
        (word_text here.now.config here.now.unit access name.now word.now)) }
{
    if is_visible(here, access, name, word) {
        Ok(())
    } else {
        put_four(text, name, no_word(access), word, "\n")
    }
}

// A name that means nothing in a unit.
fn put_unknown_variable(
    alloc: Global,
    text: &mut String,
    here: &UnitScope<'_>,
    name: &str,
) -> Result<(), AllocError>
    ensures { OnOk result (Puts text.old text.new
        (unknown_variable here.now.config here.now.unit name.now)) }
{
    if here.names().is_predeclared(name) {
        return put_unseen(text, here, name);
    }
    let known = variables_near(alloc, here)?;
    put_unknown(alloc, text, name, known.as_slice())
}

// A name that means nothing in a unit, where an instance is.
fn put_unknown_instance(
    alloc: Global,
    text: &mut String,
    here: &UnitScope<'_>,
    name: &str,
) -> Result<(), AllocError>
    ensures { OnOk result (Puts text.old text.new
        (unknown_instance here.now.config here.now.unit name.now)) }
{
    if here.names().is_predeclared(name) {
        return put_unseen_line(text, name);
    }
    let known = instances_near(alloc, here.tree())?;
    put_unknown(alloc, text, name, known.as_slice())
}

// A name among those that could have been meant.
fn put_unknown(
    alloc: Global,
    text: &mut String,
    name: &str,
    known: &[Candidate<'_>],
) -> Result<(), AllocError>
    ensures { OnOk result (Puts text.old text.new
        (unknown_text name.now (map candidate_shown known.now))) }
{
    let near = nearest(alloc, name, known)?;
    put_unknown_line(text, name, near)
}

#[tactic(auto, unfolding(crate::specs::NamesUnknown::unknown_line))]
fn put_unknown_line(text: &mut String, name: &str, near: Option<Near<'_>>) -> Result<(), AllocError>
    ensures { OnOk result (Puts text.old text.new
        (unknown_line name.now (option_map near_shown near.entry))) }
{
    put_ended(text, name, " is unknown here", near)
}

#[tactic(auto, unfolding(crate::specs::NamesUnknown::unseen_line))]
fn put_unseen_line(text: &mut String, name: &str) -> Result<(), AllocError>
    ensures { OnOk result (Puts text.old text.new (unseen_line name.now)) }
{
    put_two(
        text,
        name,
        " is a predeclared name that this unit does not see\n",
    )
}

// A predeclared name that a unit does not see.
fn put_unseen(text: &mut String, here: &UnitScope<'_>, name: &str) -> Result<(), AllocError>
    ensures { OnOk result (Puts text.old text.new (unseen_text here.now.unit name.now)) }
{
    put_unseen_line(text, name)?;
    put_programs(text, here.tree().kind)
}

// Of a unit that is no program.
fn put_programs(text: &mut String, kind: UnitKind) -> Result<(), AllocError>
    ensures { OnOk result (Puts text.old text.new (programs_by kind)) }
{
    match kind {
        UnitKind::Function(_, _) => put_programs_line(text),
        UnitKind::FunctionBlock => put_programs_line(text),
        UnitKind::Program => Ok(()),
    }
}

#[tactic(auto, unfolding(crate::specs::NamesUnknown::programs_line))]
fn put_programs_line(text: &mut String) -> Result<(), AllocError>
    ensures { OnOk result (Puts text.old text.new programs_line) }
{
    text.push_str("programs alone see it: hand it in as an input, and store it in the program\n")
}

// A conversion from TIME.
fn is_from_time(name: &str) -> bool
    ensures { result ≡ starts_with nat_eq name.now (codes "TIME_TO_") }
{
    name.starts_with("TIME_TO_")
}

// A conversion to TIME.
fn is_to_time(name: &str) -> bool
    ensures { result ≡ ends_with nat_eq name.now (codes "_TO_TIME") }
{
    name.ends_with("_TO_TIME")
}

// Whether a name is that of a conversion from TIME or to it.
#[tactic(auto, unfolding(crate::specs::NamesUnknown::is_of_time))]
fn is_of_time(name: &str) -> bool
    ensures { result ≡ is_of_time name.now }
{
    is_from_time(name) || is_to_time(name)
}

#[tactic(auto, unfolding(crate::specs::NamesUnknown::time_line))]
fn put_time_line(text: &mut String) -> Result<(), AllocError>
    ensures { OnOk result (Puts text.old text.new time_line) }
{
    text.push_str("TIME has no conversions: compare it with a duration, as in GT T#3s\n")
}

// Of the conversions of TIME.
fn put_time(text: &mut String, name: &str) -> Result<(), AllocError>
    ensures { OnOk result (Puts text.old text.new (time_lines name.now)) }
{
    if is_of_time(name) {
        put_time_line(text)
    } else {
        Ok(())
    }
}

#[tactic(auto, unfolding(crate::specs::NamesUnknown::no_function_line))]
fn put_no_function_line(
    text: &mut String,
    name: &str,
    near: Option<Near<'_>>,
) -> Result<(), AllocError>
    ensures { OnOk result (Puts text.old text.new
        (no_function_line name.now (option_map near_shown near.entry))) }
{
    put_ended(text, name, " is no function", near)
}

#[tactic(auto, unfolding(crate::specs::NamesUnknown::instance_line))]
fn put_instance_line(text: &mut String, name: &str) -> Result<(), AllocError>
    ensures { OnOk result (Puts text.old text.new (instance_line name.now)) }
{
    put_two(text, name, " is an instance, no scalar variable\n")
}

#[tactic(auto, unfolding(crate::specs::NamesUnknown::unit_line))]
fn put_unit_line(text: &mut String, name: &str) -> Result<(), AllocError>
    ensures { OnOk result (Puts text.old text.new (unit_line name.now)) }
{
    put_two(text, name, " is a unit, no variable\n")
}

#[tactic(auto, unfolding(crate::specs::NamesUnknown::standard_line))]
fn put_standard_line(text: &mut String, name: &str) -> Result<(), AllocError>
    ensures { OnOk result (Puts text.old text.new (standard_line name.now)) }
{
    put_two(
        text,
        name,
        " is a standard function or block, no variable\n",
    )
}

#[tactic(auto, unfolding(crate::specs::NamesUnknown::no_instance_line))]
fn put_no_instance_line(text: &mut String, name: &str) -> Result<(), AllocError>
    ensures { OnOk result (Puts text.old text.new (no_instance_line name.now)) }
{
    put_two(text, name, " is no instance of a function block\n")
}
