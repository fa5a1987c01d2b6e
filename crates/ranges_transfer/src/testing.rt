// The jumps of tests: LD of a variable, a comparison with a literal, and a conditional jump (own rule).

ghost use Rattle.std.specs.Prelude.{◌≡◌, ◌<◌, length, Option, Some, None, option_map, not, IfOk, if◌then◌else◌};
ghost use Rattle.ranges_interval.specs.Interval.{IsEnd};
ghost use Rattle.il_statics.specs.Types.{label_place};
ghost use Rattle.il_semantics.specs.Tests.{literal_number, operand_number, test_at};
ghost use Rattle.il_semantics.specs.Annotation.{acts_at};
ghost use Rattle.ranges_laws.specs.Found.{provided};
ghost use Rattle.ranges_laws.specs.Facts.{facts as facts_of, AreOperands};
ghost use Rattle.ranges_laws.specs.Steps.{has_condition, is_bare};
ghost use Rattle.ranges_transfer.specs.Tables.{moved};
ghost use Rattle.ranges_transfer.specs.Testing.{counted_in, loaded_in, comparison_in, is_free, is_conditional_jump, test_in, AreForms, narrowed_in, sided_in, landing_in, testing_in, IsFineTest};

use crate::carried::Carried;
use crate::instructions::copy_of;
use crate::meant::{Meant, put, range_in};
use crate::pass::Handed;
use crate::scope::Scope;
use il_statics::elementary::{has_value, is_counted, is_same_type, is_whole};
use il_syntax::tree::{
    Comparison, Condition, Elementary, Instruction, Literal, Operator, Reference, Scalar, Step,
};
use ranges_interval::Interval;
use ranges_rows::Row;
use std::alloc::{AllocError, Global};

/// A scalar variable, with its number if it has one, is compared with a literal's number.
#[derive(Clone, Copy)]
pub struct VariableTest {
    pub scalar: Scalar,
    pub number: Option<usize>,
    pub comparison: Comparison,
    pub limit: i64,
}

// A number, if it is a value of a type.
fn number_if(fits: bool, number: i64) -> Option<i64>
    ensures { result ≡ (if fits then Some number else None) }
{
    if fits { Some(number) } else { None }
}

// The number of a literal of a type; a bare one has any integer type.
fn literal_number(elementary: Elementary, literal: Literal) -> Option<i64>
    ensures { result ≡ literal_number elementary literal }
{
    match literal {
        Literal::Truth(_) => None,
        Literal::Bare(number) => number_if(
            is_whole(elementary) && has_value(elementary, number),
            number,
        ),
        Literal::Whole(written, number) => number_if(
            is_same_type(written, elementary) && has_value(elementary, number),
            number,
        ),
        Literal::Time(number) => number_if(
            is_same_type(Elementary::Time, elementary) && has_value(elementary, number),
            number,
        ),
    }
}

// The number of an operand that is a literal of a type.
fn operand_number(elementary: Elementary, reference: &Reference) -> Option<i64>
    ensures { result ≡ operand_number elementary reference.now }
{
    match reference {
        Reference::Literal(literal) => literal_number(elementary, *literal),
        _ => None,
    }
}

// A comparison with a literal of a type.
fn comparison_of(elementary: Elementary, instruction: &Instruction) -> Option<(Comparison, i64)>
    ensures { result ≡ comparison_in elementary instruction.now }
{
    match instruction {
        Instruction::Operate {
            operator: Operator::Comparison(kind),
            operand,
        } => {
            let number = operand_number(elementary, &operand.reference)?;
            Some((*kind, number))
        }
        _ => None,
    }
}

// A scalar variable of an integer type or of TIME.
fn counted(meant: Meant) -> Option<(Scalar, Option<usize>)>
    ensures { result ≡ counted_in meant }
{
    match meant {
        Meant::Variable { scalar, number } => {
            if is_counted(scalar.elementary) {
                Some((scalar, number))
            } else {
                None
            }
        }
        _ => None,
    }
}

// The variable that LD loads.
fn loaded_variable<S: Scope>(
    scope: &S,
    instruction: &Instruction,
) -> Option<(Scalar, Option<usize>)>
    ensures { result ≡ loaded_in (S.names scope.now) instruction.now }
{
    match instruction {
        Instruction::Load {
            negated: false,
            operand,
        } => counted(scope.meant(&operand.reference)),
        _ => None,
    }
}

// Whether it is JMPC or JMPCN.
fn is_conditional_jump(instruction: &Instruction) -> bool
    ensures { result ≡ is_conditional_jump instruction.now }
{
    match instruction {
        Instruction::Jump { condition, .. } => {
            matches!(condition, Condition::WhenTrue | Condition::WhenFalse)
        }
        _ => false,
    }
}

// Whether no label comes before a step.
fn is_free(step: &Step) -> bool
    ensures { result ≡ is_free step.now.labels }
{
    step.labels.as_slice().is_empty()
}

// The test of three steps in a row.
fn test_of<S: Scope>(scope: &S, load: &Step, comparison: &Step, jump: &Step) -> Option<VariableTest>
    ensures { result ≡ test_in (S.names scope.now) load.now comparison.now jump.now }
{
    if !(is_conditional_jump(&jump.instruction) && is_free(jump) && is_free(comparison)) {
        return None;
    }
    let (scalar, number) = loaded_variable(scope, &load.instruction)?;
    let (comparison, limit) = comparison_of(scalar.elementary, &comparison.instruction)?;
    Some(VariableTest {
        scalar,
        number,
        comparison,
        limit,
    })
}

/// The test whose jump is at a place, if one does.
pub fn test_at<S: Scope>(scope: &S, steps: &[Step], place: usize) -> Option<VariableTest>
    requires steps { steps.now ≡ (S.names scope.now).unit.body.steps }
    requires inside { place < length steps.now }
    ensures { AreForms (S.names scope.now)
        (test_at (S.names scope.now).config (S.names scope.now).unit place) result }
{
    if place < 2 {
        return None;
    }
    test_of(scope, &steps[place - 2], &steps[place - 1], &steps[place])
}

// Keeps what an outcome leaves of the range of the variable; false where it leaves nothing.
fn narrow(row: &mut Row, test: VariableTest, holds: bool) -> bool
    requires operands { IsFineTest row.old test }
    ensures { narrowed_in test holds row.old ≡ (if result then Some row.new else None) }
{
    let Some(range) = range_in(row, test.scalar, test.number) else {
        return true;
    };
    let limit = i128::from(test.limit);
    match Interval::narrow(test.comparison, holds, range, limit) {
        Some(left) => {
            put(row, test.number, left);
            true
        }
        None => false,
    }
}

// The facts where a test has an outcome.
fn sided(facts: Carried, test: VariableTest, holds: bool) -> Option<Carried>
    requires operands { IsFineTest facts.row test }
    ensures { result ≡ sided_in test holds facts }
{
    let mut facts = facts;
    if narrow(&mut facts.kept.row, test, holds) {
        Some(facts)
    } else {
        None
    }
}

// Both sides of a jump, unless its label is missing.
fn handed(
    to: Option<usize>,
    there: Option<Carried>,
    next: Option<Carried>,
) -> Option<Handed<Carried>>
    ensures { option_map moved result ≡ option_map (λ jump. record { next = next; jump = jump })
        (landing_in to there) }
{
    match (to, there) {
        (_, None) => Some(Handed { next, jump: None }),
        (Some(to), Some(there)) => Some(Handed {
            next,
            jump: Some((to, there)),
        }),
        (None, Some(_)) => None,
    }
}

/// What a test's jump hands on, that acts where the comparison has this outcome.
pub fn tested(
    alloc: Global,
    facts: Carried,
    test: VariableTest,
    holds: bool,
    to: Option<usize>,
) -> Result<Option<Handed<Carried>>, AllocError>
    requires operands { IsFineTest facts.row test }
    ensures { IfOk result (λ h. option_map moved h ≡ testing_in test holds facts to) }
{
    let copy = copy_of(alloc, &*facts.kept)?;
    let there = sided(copy, test, holds);
    let next = sided(facts, test, !holds);
    Ok(handed(to, there, next))
}
