// The lines in which units use units.

ghost use Rattle.std.specs.Prelude.{◌≡◌, [], Some, IfSome, IfOk, OnOk, true, slice_get, string_bytes};
ghost use Rattle.base_texts.specs.Puts.{Puts};
ghost use Rattle.il_statics.specs.Names.{or_else};
ghost use Rattle.reasons_faults.specs.ChainReasons.{UsesIn, use_text, AreAdded, is_named, is_apart, is_number, is_own, is_call_of, is_type_of, call_line, instance_line, use_line};

use il_syntax::tree::{Declaration, Form, Instruction, Step, Unit};
use load_scope::Scoped;
use load_scope::entry::BlockType;
use reasons_names::names_spots::unit_at;
use reasons_names::writing::{put_numbered, put_three};
use std::alloc::AllocError;

// Whether a number is there and is this one.
fn is_number(to: usize, number: Option<usize>) -> bool
    ensures { result ≡ is_number to number }
{
    match number {
        Some(number) => number == to,
        None => false,
    }
}

// Whether a block is the own one of a number.
fn is_own(to: usize, block: Option<BlockType>) -> bool
    ensures { result ≡ is_own to block }
{
    match block {
        Some(BlockType::Own(number)) => number == to,
        _ => false,
    }
}

// Whether an instruction calls the function of a number.
fn is_call_of(names: &Scoped, to: usize, instruction: &Instruction) -> bool
    ensures { result ≡ is_call_of names.now to instruction.now }
{
    match instruction {
        Instruction::Invoke { function, .. } => {
            is_number(to, names.function(function.name.as_str()))
        }
        _ => false,
    }
}

// Whether a type is the own block of a number.
fn is_type_of(names: &Scoped, to: usize, form: &Form) -> bool
    ensures { result ≡ is_type_of names.now to form.now }
{
    match form {
        Form::Block(name) => is_own(to, names.block(name.as_str())),
        _ => false,
    }
}

// The line of the first of some instructions that calls the function of a number.
fn call_line(names: &Scoped, to: usize, steps: &[Step]) -> Option<u32>
    ensures { result ≡ call_line names.now to steps.now }
{
    for step in steps {
        if is_call_of(names, to, &step.instruction) {
            return Some(step.place.line);
        }
    }
    None
}

// The line of the first of some declarations that declares an instance of the block of a number.
fn instance_line(names: &Scoped, to: usize, declarations: &[Declaration]) -> Option<u32>
    ensures { result ≡ instance_line names.now to declarations.now }
{
    for declaration in declarations {
        if is_type_of(names, to, &declaration.declared.form) {
            return Some(declaration.declared.place.line);
        }
    }
    None
}

/// The line in which a unit uses the unit of a number first: a call of that function, or a declaration of instances of that
/// block (IEC 61131-3:2003, 2.5.1, 2.5.2).
pub(crate) fn use_line(names: &Scoped, unit: &Unit, to: usize) -> Option<u32>
    ensures { result ≡ use_line names.now unit.now to }
{
    match call_line(names, to, unit.body.steps.as_slice()) {
        Some(line) => Some(line),
        None => instance_line(names, to, unit.variables.as_slice()),
    }
}

// A unit that another uses, and the line.
#[derive(Clone, Copy)]
struct Use<'n> {
    unit: &'n Unit,
    line: u32,
}

// The unit of a number, if there is one.
fn unit_of(names: &Scoped, number: usize) -> Option<&Unit>
    ensures { IfSome result (λ u. slice_get names.now.units number ≡ Some u.now) }
{
    names.config().units.as_slice().get(number)
}

// The unit of a number, where another uses it.
fn use_of<'n>(names: &'n Scoped, user: &Unit, to: usize) -> Option<Use<'n>>
    ensures unit { IfSome result (λ u. slice_get names.now.units to ≡ Some u.unit.now) }
    ensures line { IfSome result (λ u. UsesIn names.now user.now u.unit.now u.line) }
{
    let unit = unit_of(names, to)?;
    let line = use_line(names, user, to)?;
    Some(Use { unit, line })
}

// Whether the unit of a number has a name.
fn is_named(names: &Scoped, name: &str, number: usize) -> bool
    ensures { result ≡ is_named names.now name.now number }
{
    match unit_at(names, number) {
        Some(unit) => unit.name.name.as_str() == name,
        None => false,
    }
}

/// Whether none of the units of some numbers, and of one more, has a name.
pub(crate) fn is_apart(names: &Scoped, name: &str, between: &[usize], other: usize) -> bool
    ensures { result ≡ is_apart names.now name.now between.now other }
{
    for number in between {
        if is_named(names, name, *number) {
            return false;
        }
    }
    !is_named(names, name, other)
}

// The next of the units of a chain, where none after it has its name.
fn next_of<'n>(
    names: &'n Scoped,
    user: &Unit,
    next: usize,
    rest: &[usize],
    other: usize,
) -> Option<Use<'n>>
    ensures unit { IfSome result (λ u. slice_get names.now.units next ≡ Some u.unit.now) }
    ensures line { IfSome result (λ u. UsesIn names.now user.now u.unit.now u.line) }
    ensures apart { IfSome result (λ u. is_apart names.now u.unit.now.name.name rest.now other
        ≡ true) }
{
    let used = use_of(names, user, next)?;
    if is_apart(names, used.unit.name.name.as_str(), rest, other) {
        Some(used)
    } else {
        None
    }
}

// `A uses B in line 12`
fn put_use(text: &mut String, user: &Unit, used: &Use) -> Result<(), AllocError>
    ensures { OnOk result (Puts text.old text.new
        (use_text user.now used.now.unit.now used.now.line)) }
{
    let used_name = used.unit.name.name.as_str();
    put_three(text, user.name.name.as_str(), " uses ", used_name)?;
    put_numbered(text, " in line ", used.line)
}

// Writes the last use of a chain, where it is one.
fn put_last(
    text: &mut String,
    names: &Scoped,
    user: &Unit,
    other: usize,
) -> Result<bool, AllocError>
    ensures { IfOk result (λ all. all ≡ true → AreAdded names.now user.now [] other
        (string_bytes text.old) (string_bytes text.new)) }
{
    let Some(used) = use_of(names, user, other) else {
        return Ok(false);
    };
    put_use(text, user, &used)?;
    text.push_str("\n")?;
    Ok(true)
}

/// Writes the uses by which a unit uses another through those between them, by their numbers; whether each is one, and none
/// of these is named twice.
pub(crate) fn put_uses(
    text: &mut String,
    names: &Scoped,
    user: &Unit,
    between: &[usize],
    other: usize,
) -> Result<bool, AllocError>
    ensures { IfOk result (λ all. all ≡ true → AreAdded names.now user.now between.now other
        (string_bytes text.old) (string_bytes text.new)) }
{
    let Some((next, rest)) = between.split_first() else {
        return put_last(text, names, user, other);
    };
    let Some(used) = next_of(names, user, *next, rest, other) else {
        return Ok(false);
    };
    put_use(text, user, &used)?;
    text.push_str(", ")?;
    put_uses(text, names, used.unit, rest, other)
}
