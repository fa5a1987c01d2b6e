// Slots (own rules).

ghost use Rattle.std.specs.Prelude.{◌≡◌, ◌+◌, ◌*◌, IfOk, ◌-ℤ◌, nat_abs, slice_get, length};
ghost use Rattle.il_statics.specs.Names.{is_function};
ghost use Rattle.load_scope.specs.Views.{passes};
ghost use Rattle.load_order.specs.Counted.{capped, standard_slots, number_at, block_count, instance_count, type_count, with_variables, unit_counts, counts_of, function_count, task_count, is_over};

use crate::relation::{Relation, holds};
use crate::variables::Variables;
use base_lists::Items;
use il_statics::limits::MOST_TASK_SLOTS;
use il_statics::names::StandardBlock;
use il_statics::standard::words_of;
use il_syntax::tree::{ProgramLine, Subrange, UnitKind};
use load_scope::Scoped;
use load_scope::entry::{BlockType, VariableType};
use std::alloc::{AllocError, Global};

// The sum of slots, at most one more than a task may have.
fn sum(first: usize, second: usize) -> usize
    ensures { result ≡ capped (first + second) }
{
    first.saturating_add(second).min(MOST_TASK_SLOTS + 1)
}

// So many times these slots, at most one more than a task may have.
fn times(count: usize, slots: usize) -> usize
    ensures { result ≡ capped (count * slots) }
{
    count.saturating_mul(slots).min(MOST_TASK_SLOTS + 1)
}

/// The slots of each unit by their variables, with those of instances in instances down to a depth.
pub fn counts(
    alloc: Global,
    units: &Items<Items<Variables>>,
    depth: usize,
) -> Result<Items<usize>, AllocError>
    ensures { IfOk result (λ c. c ≡ counts_of units.now depth) }
{
    let mut counted = Items::new(alloc);
    for round in 0..depth {
        counted = unit_counts(alloc, units, round, &counted)?;
    }
    Ok(counted)
}

/// The slots of each unit, with those of instances one level less deep.
pub fn unit_counts(
    alloc: Global,
    units: &Items<Items<Variables>>,
    depth: usize,
    counted: &Items<usize>,
) -> Result<Items<usize>, AllocError>
    ensures { IfOk result (λ c. c ≡ unit_counts depth counted.now units.now) }
{
    let mut all = Items::new(alloc);
    for variables in units.as_slice() {
        all.push(with_variables(depth, counted, variables))?;
    }
    Ok(all)
}

/// The slots of variables.
pub fn with_variables(depth: usize, counted: &Items<usize>, variables: &Items<Variables>) -> usize
    ensures { result ≡ with_variables depth counted.now 0 variables.now }
{
    let mut total = 0;
    for one in variables.as_slice() {
        let each = type_count(depth, counted, one.declared);
        total = sum(total, times(one.count, each));
    }
    total
}

// The slots of a type: a scalar takes one, an array one for each element, an instance those of its block.
fn type_count(depth: usize, counted: &Items<usize>, declared: VariableType) -> usize
    ensures { result ≡ type_count depth counted.now declared }
{
    match declared {
        VariableType::Scalar(_) => 1,
        VariableType::Array { bounds, .. } => array_slots(bounds),
        VariableType::Instance(block) => instance_count(depth, counted, block),
    }
}

// The slots of an array: one for each element.
fn array_slots(bounds: Subrange) -> usize
    ensures { result ≡ capped (nat_abs (bounds.upper -ℤ bounds.lower) + 1) }
{
    let last = bounds
        .upper
        .abs_diff(bounds.lower)
        .min(MOST_TASK_SLOTS as u64);
    last as usize + 1
}

// The slots of an instance; at depth 0 nothing is counted.
fn instance_count(depth: usize, counted: &Items<usize>, block: Option<BlockType>) -> usize
    ensures { result ≡ instance_count depth counted.now block }
{
    if depth == 0 {
        0
    } else {
        block_count(counted, block)
    }
}

// The slots of an instance of a block.
fn block_count(counted: &Items<usize>, block: Option<BlockType>) -> usize
    ensures { result ≡ block_count counted.now block }
{
    match block {
        None => 0,
        Some(BlockType::Standard(standard)) => standard_slots(standard),
        Some(BlockType::Own(number)) => number_at(counted.as_slice(), number),
    }
}

// The slots of a standard block (IEC 61131-3:2003, 2.5.2.3).
fn standard_slots(block: StandardBlock) -> usize
    ensures { result ≡ standard_slots block }
{
    let words = words_of(block);
    sum(
        sum(words.inputs.len(), words.outputs.len()),
        words.inner.len(),
    )
}

/// A number of a list.
pub fn number_at(counted: &[usize], at: usize) -> usize
    ensures { result ≡ number_at counted.now at }
{
    match counted.get(at) {
        Some(number) => *number,
        None => 0,
    }
}

/// Whether a PROGRAM line's program needs more slots than a task has: its own, and once each those of the functions that it
/// reaches.
pub fn is_over(
    names: &Scoped,
    reached: &Relation,
    counted: &Items<usize>,
    line: &ProgramLine,
) -> bool
    ensures { result ≡ is_over names.now reached.now counted.now line.now }
{
    match names.program(line.program.name.as_str()) {
        Some(program) => task_count(names, reached, counted, program) > MOST_TASK_SLOTS,
        None => false,
    }
}

// The slots of a program, and of the functions that it reaches.
fn task_count(names: &Scoped, reached: &Relation, counted: &Items<usize>, program: usize) -> usize
    ensures { result ≡ task_count names.now reached.now counted.now program
        (length names.now.units) }
{
    let count = names.config().units.as_slice().len();
    let mut total = number_at(counted.as_slice(), program);
    for at in 0..count {
        total = sum(total, function_count(names, reached, counted, program, at));
    }
    total
}

// The slots of a unit that is a function which a program reaches; its result takes one.
fn function_count(
    names: &Scoped,
    reached: &Relation,
    counted: &Items<usize>,
    program: usize,
    at: usize,
) -> usize
    ensures { result ≡ function_count names.now reached.now counted.now program at }
{
    let reaches = holds(reached, program, at);
    if reaches && is_function_at(names, at) {
        sum(number_at(counted.as_slice(), at), 1)
    } else {
        0
    }
}

// Whether the unit of a number is there and a function (2.5.1).
fn is_function_at(names: &Scoped, at: usize) -> bool
    ensures { result ≡ passes is_function (slice_get names.now.units at) }
{
    match names.config().units.as_slice().get(at) {
        Some(unit) => matches!(unit.kind, UnitKind::Function(..)),
        None => false,
    }
}
