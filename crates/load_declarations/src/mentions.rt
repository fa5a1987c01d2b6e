// The rules of names in instructions (IEC 61131-3:2003, 2.4.1.2, 2.4.3, 2.5.2.1, 3.2).

ghost use Rattle.std.specs.Prelude.{◌≡◌, ◌++◌, [], is_some, flat_map, option_and_then, if◌then◌else◌};
ghost use Rattle.il_statics.specs.Names.{entry_of, meaning, standard_function, function_named};
ghost use Rattle.il_statics.specs.Declarations.{unless, is_visible, scalar_numbers, array_numbers, index_name_numbers, member_numbers, reference_numbers, called_numbers, argument_name_numbers, short_form_name_numbers, function_name_numbers, invoke_name_numbers, name_numbers, Reads};
ghost use Rattle.load_scope.specs.Views.{variables_of_block};
ghost use Rattle.il_statics.specs.Least.{IsLeast};
ghost use Rattle.load_declarations.specs.Places.{lowest_at, At, Among};
ghost use Rattle.load_declarations.specs.Mentions.{shown_access, scalar_type_numbers, scalar_of, array_type_numbers, array_of, called_type_numbers, called_of, member_type_numbers, member_of};

use crate::fault::DeclareFault;
use il_statics::{Found, earlier, fault_if};
use il_syntax::tree::{Argument, Index, Instruction, Named, Operand, Place, Reference, Step};
use load_scope::entry::{Binding, BlockType, VariableType};
use load_scope::functions::standard_function;
use load_scope::{Scoped, UnitScope};

/// Whether an operand is read or stored into.
#[derive(Clone, Copy)]
pub enum Access {
    Reads,
    Stores,
}

/// The first instruction with a name that its place doesn't take.
pub fn steps_fault(here: &UnitScope, steps: &[Step]) -> Option<Found<DeclareFault>>
    ensures { IsLeast result (Among (λ s.
        At (name_numbers here.now.config here.now.unit s.instruction) s.place) steps.now) }
{
    let mut found = None;
    for step in steps {
        found = earlier(
            found,
            instruction_fault(here, &step.instruction, step.place),
        );
    }
    found
}

// What the names of an instruction break; labels are no such names.
#[tactic(auto, unfolding(il_statics::specs::Declarations::name_numbers))]
fn instruction_fault(
    here: &UnitScope,
    instruction: &Instruction,
    place: Place,
) -> Option<Found<DeclareFault>>
    ensures { result ≡ lowest_at (name_numbers here.now.config here.now.unit instruction.now)
        place }
{
    match instruction {
        Instruction::Load { operand, .. } => operand_fault(here, Access::Reads, operand, place),
        Instruction::Store { target, .. } => operand_fault(here, Access::Stores, target, place),
        Instruction::Operate { operand, .. } => operand_fault(here, Access::Reads, operand, place),
        Instruction::Defer { first, .. } => short_form_fault(here, first, place),
        Instruction::Call {
            instance,
            arguments,
            ..
        } => call_fault(here, instance, arguments.as_slice(), place),
        Instruction::Invoke { function, operands } => {
            invoke_fault(here, function, operands.as_slice(), place)
        }
        _ => None,
    }
}

// What the operand of a short form breaks, if there is one.
fn short_form_fault(
    here: &UnitScope,
    first: &Option<Operand>,
    place: Place,
) -> Option<Found<DeclareFault>>
    ensures { result ≡ lowest_at (short_form_name_numbers here.now.config here.now.unit first.now)
        place }
{
    match first {
        Some(operand) => operand_fault(here, Access::Reads, operand, place),
        None => None,
    }
}

// What the names of a call of an instance break.
fn call_fault(
    here: &UnitScope,
    instance: &Named,
    arguments: &[Argument],
    place: Place,
) -> Option<Found<DeclareFault>>
    ensures { result ≡ lowest_at (called_numbers
        (meaning here.now.config here.now.unit instance.now.name)
        ++ flat_map (argument_name_numbers here.now.config here.now.unit) arguments.now) place }
{
    let called = called_name_fault(here, instance.name.as_str(), place);
    earlier(called, arguments_fault(here, arguments, place))
}

// What the names of a function's call break.
fn invoke_fault(
    here: &UnitScope,
    function: &Named,
    operands: &[Operand],
    place: Place,
) -> Option<Found<DeclareFault>>
    ensures { result
        ≡ lowest_at (invoke_name_numbers here.now.config here.now.unit function.now.name operands.now)
        place }
{
    let unknown = function_fault(here.names(), function.name.as_str(), place);
    earlier(unknown, operands_fault(here, operands, place))
}

// What the name of a function breaks: it is a standard one's or an own one's.
fn function_fault(names: &Scoped, name: &str, place: Place) -> Option<Found<DeclareFault>>
    ensures { result ≡ lowest_at (function_name_numbers names.now name.now) place }
{
    if standard_function(name).is_some() {
        return None;
    }
    let known = names.function(name).is_some();
    fault_if(!known, DeclareFault::Unknown, place)
}

// What the names of arguments break.
fn arguments_fault(
    here: &UnitScope,
    arguments: &[Argument],
    place: Place,
) -> Option<Found<DeclareFault>>
    ensures { result ≡ lowest_at (flat_map (argument_name_numbers here.now.config here.now.unit)
        arguments.now) place }
{
    let mut found = None;
    for argument in arguments {
        found = earlier(found, argument_fault(here, argument, place));
    }
    found
}

// What the names of operands break.
fn operands_fault(
    here: &UnitScope,
    operands: &[Operand],
    place: Place,
) -> Option<Found<DeclareFault>>
    ensures { result ≡ lowest_at (flat_map
        (λ o. reference_numbers here.now.config here.now.unit Reads o.reference) operands.now)
        place }
{
    let mut found = None;
    for operand in operands {
        found = earlier(found, operand_fault(here, Access::Reads, operand, place));
    }
    found
}

// What the names of an argument break: an output's target is a scalar variable.
fn argument_fault(
    here: &UnitScope,
    argument: &Argument,
    place: Place,
) -> Option<Found<DeclareFault>>
    ensures { result ≡ lowest_at (argument_name_numbers here.now.config here.now.unit
        argument.now) place }
{
    match argument {
        Argument::Input { operand, .. } => operand_fault(here, Access::Reads, operand, place),
        Argument::Output { target, .. } => scalar_name_fault(here, target.name.as_str(), place),
    }
}

// What the names of an operand break.
#[inline(always)]
fn operand_fault(
    here: &UnitScope,
    access: Access,
    operand: &Operand,
    place: Place,
) -> Option<Found<DeclareFault>>
    ensures { result ≡ lowest_at (reference_numbers here.now.config here.now.unit
        (shown_access access) operand.now.reference) place }
{
    match &operand.reference {
        Reference::Literal(_) => None,
        Reference::Variable(name) => scalar_name_fault(here, name.as_str(), place),
        Reference::Element(name, index) => element_fault(here, name.as_str(), index, place),
        Reference::Member(name, word) => {
            member_name_fault(here, access, name.as_str(), word.as_str(), place)
        }
    }
}

// What the names of an element break.
fn element_fault(
    here: &UnitScope,
    name: &str,
    index: &Index,
    place: Place,
) -> Option<Found<DeclareFault>>
    ensures { result ≡ lowest_at (array_numbers (meaning here.now.config here.now.unit name.now)
        ++ index_name_numbers here.now.config here.now.unit index.now) place }
{
    let array = array_name_fault(here, name, place);
    earlier(array, index_fault(here, index, place))
}

// What the name of an index breaks: it is a scalar variable's.
fn index_fault(here: &UnitScope, index: &Index, place: Place) -> Option<Found<DeclareFault>>
    ensures { result ≡ lowest_at (index_name_numbers here.now.config here.now.unit index.now)
        place }
{
    match index {
        Index::Number(_) => None,
        Index::Variable(name) => scalar_name_fault(here, name.as_str(), place),
    }
}

// What a name in the place of a scalar variable breaks.
fn scalar_name_fault(here: &UnitScope, name: &str, place: Place) -> Option<Found<DeclareFault>>
    ensures { result ≡ lowest_at (scalar_numbers (meaning here.now.config here.now.unit name.now))
        place }
{
    scalar_fault(here.declared_type(name), place)
}

// What breaks, where a scalar variable is wanted, by the type of the variable that the name means, if it means one.
#[inline(always)]
fn scalar_fault(declared: Option<VariableType>, place: Place) -> Option<Found<DeclareFault>>
    ensures { result ≡ lowest_at (scalar_of declared) place }
{
    match declared {
        Some(declared) => scalar_type_fault(declared, place),
        None => fault_if(true, DeclareFault::Unknown, place),
    }
}

// What a variable of this type breaks, where a scalar one is wanted.
#[inline(always)]
fn scalar_type_fault(declared: VariableType, place: Place) -> Option<Found<DeclareFault>>
    ensures { result ≡ lowest_at (scalar_type_numbers declared) place }
{
    match declared {
        VariableType::Scalar(_) => None,
        VariableType::Array { .. } => fault_if(true, DeclareFault::TypeDiffers, place),
        VariableType::Instance(_) => fault_if(true, DeclareFault::Unknown, place),
    }
}

// What a name before an index breaks.
fn array_name_fault(here: &UnitScope, name: &str, place: Place) -> Option<Found<DeclareFault>>
    ensures { result ≡ lowest_at (array_numbers (meaning here.now.config here.now.unit name.now))
        place }
{
    array_fault(here.meaning(name), place)
}

// What a name before an index breaks, by what it means.
fn array_fault(binding: Option<Binding>, place: Place) -> Option<Found<DeclareFault>>
    ensures { result ≡ lowest_at (array_of binding) place }
{
    match binding {
        Some(Binding::Variable(variable)) => array_type_fault(variable.declared, place),
        Some(_) => fault_if(true, DeclareFault::TypeDiffers, place),
        None => fault_if(true, DeclareFault::Unknown, place),
    }
}

// What a variable of this type breaks before an index.
fn array_type_fault(declared: VariableType, place: Place) -> Option<Found<DeclareFault>>
    ensures { result ≡ lowest_at (array_type_numbers declared) place }
{
    match declared {
        VariableType::Array { .. } => None,
        _ => fault_if(true, DeclareFault::TypeDiffers, place),
    }
}

// What a name after CAL breaks.
fn called_name_fault(here: &UnitScope, name: &str, place: Place) -> Option<Found<DeclareFault>>
    ensures { result ≡ lowest_at (called_numbers (meaning here.now.config here.now.unit name.now))
        place }
{
    called_fault(here.meaning(name), place)
}

// What a name after CAL breaks, by what it means.
fn called_fault(binding: Option<Binding>, place: Place) -> Option<Found<DeclareFault>>
    ensures { result ≡ lowest_at (called_of binding) place }
{
    match binding {
        Some(Binding::Variable(variable)) => called_type_fault(variable.declared, place),
        Some(_) => fault_if(true, DeclareFault::TypeDiffers, place),
        None => fault_if(true, DeclareFault::Unknown, place),
    }
}

// What a variable of this type breaks after CAL.
fn called_type_fault(declared: VariableType, place: Place) -> Option<Found<DeclareFault>>
    ensures { result ≡ lowest_at (called_type_numbers declared) place }
{
    match declared {
        VariableType::Instance(_) => None,
        _ => fault_if(true, DeclareFault::TypeDiffers, place),
    }
}

// What a name before a dot breaks.
fn member_name_fault(
    here: &UnitScope,
    access: Access,
    name: &str,
    word: &str,
    place: Place,
) -> Option<Found<DeclareFault>>
    ensures { result ≡ lowest_at (member_numbers here.now.config (shown_access access) word.now
        (meaning here.now.config here.now.unit name.now)) place }
{
    member_fault(here.names(), access, word, here.meaning(name), place)
}

// What a name before a dot breaks, by what it means: an instance with such a word.
fn member_fault(
    names: &Scoped,
    access: Access,
    word: &str,
    binding: Option<Binding>,
    place: Place,
) -> Option<Found<DeclareFault>>
    ensures { result ≡ lowest_at (member_of names.now (shown_access access) word.now binding)
        place }
{
    match binding {
        Some(Binding::Variable(variable)) => {
            member_type_fault(names, access, word, variable.declared, place)
        }
        _ => fault_if(true, DeclareFault::Unknown, place),
    }
}

// What a variable of this type breaks before a dot.
#[tactic(auto, using(crate::proofs::Lowest::at_unless))]
fn member_type_fault(
    names: &Scoped,
    access: Access,
    word: &str,
    declared: VariableType,
    place: Place,
) -> Option<Found<DeclareFault>>
    ensures { result ≡ lowest_at (member_type_numbers names.now (shown_access access) word.now
        declared) place }
{
    match declared {
        VariableType::Instance(block) => fault_if(
            !is_visible(names, access, block, word),
            DeclareFault::Unknown,
            place,
        ),
        _ => fault_if(true, DeclareFault::Unknown, place),
    }
}

// Whether a word is an output of a block, or an input where it is stored into.
fn is_visible(names: &Scoped, access: Access, block: Option<BlockType>, word: &str) -> bool
    ensures { result ≡ is_visible (shown_access access)
        (option_and_then (variables_of_block names.now) block) word.now }
{
    let Some(block) = block else {
        return false;
    };
    match access {
        Access::Reads => has_output(names, block, word),
        Access::Stores => has_output(names, block, word) || has_input(names, block, word),
    }
}

// Whether a word is an output of a block.
fn has_output(names: &Scoped, block: BlockType, word: &str) -> bool
    ensures { result ≡ is_some (option_and_then (λ b. entry_of b.outputs word.now)
        (variables_of_block names.now block)) }
{
    names.block_output(block, word).is_some()
}

// Whether a word is an input of a block.
fn has_input(names: &Scoped, block: BlockType, word: &str) -> bool
    ensures { result ≡ is_some (option_and_then (λ b. entry_of b.inputs word.now)
        (variables_of_block names.now block)) }
{
    names.block_input(block, word).is_some()
}
