// What each place of a body hands on.

ghost use Rattle.std.specs.Prelude.{◌≡◌, ◌<◌, length, option_map, IfOk};
ghost use Rattle.il_statics.specs.Types.{label_place};
ghost use Rattle.il_semantics.specs.Annotation.{acts_at};
ghost use Rattle.ranges_laws.specs.Found.{provided};
ghost use Rattle.ranges_laws.specs.Facts.{IsFine};
ghost use Rattle.ranges_laws.specs.Steps.{has_condition, is_bare, moves};
ghost use Rattle.ranges_transfer.specs.Tables.{moved};
ghost use Rattle.ranges_transfer.specs.Testing.{testing_in, test_jump_in, IsFineTest};

use crate::carried::Carried;
use crate::instructions::{hand_on_untested, has_condition};
use crate::pass::Handed;
use crate::scope::Scope;
use crate::testing::{VariableTest, test_at, tested};
use il_syntax::tree::{Condition, Instruction, Step};
use std::alloc::{AllocError, Global};

// Whether the result is TRUE where a jump acts.
fn acts_at(condition: Condition) -> bool
    ensures { result ≡ acts_at condition }
{
    !matches!(condition, Condition::WhenFalse)
}

// What a test's jump to a label hands on.
fn jumped<S: Scope>(
    alloc: Global,
    scope: &S,
    facts: Carried,
    test: VariableTest,
    condition: Condition,
    label: &str,
) -> Result<Option<Handed<Carried>>, AllocError>
    requires operands { IsFineTest facts.row test }
    ensures { IfOk result (λ h. option_map moved h
        ≡ provided (is_bare facts.deferred)
        (provided (has_condition condition facts.result)
        (testing_in test (acts_at condition) facts
        (label_place (S.names scope.now).unit.body label.now)))) }
{
    if facts.kept.deferred.as_slice().is_empty() && has_condition(condition, facts.kept.result) {
        tested(alloc, facts, test, acts_at(condition), scope.label(label))
    } else {
        Ok(None)
    }
}

// What the jump of a test hands on.
fn hand_on_tested<S: Scope>(
    alloc: Global,
    scope: &S,
    facts: Carried,
    test: VariableTest,
    instruction: &Instruction,
) -> Result<Option<Handed<Carried>>, AllocError>
    requires operands { IsFineTest facts.row test }
    ensures { IfOk result (λ h. option_map moved h
        ≡ test_jump_in (S.names scope.now) test facts instruction.now) }
{
    match instruction {
        Instruction::Jump { condition, label } => jumped(
            alloc,
            scope,
            facts,
            test,
            *condition,
            label.name.as_str(),
        ),
        _ => Ok(None),
    }
}

/// What the instruction of a place hands on, unless it is refused.
pub fn hand_on<S: Scope>(
    alloc: Global,
    scope: &S,
    facts: Carried,
    steps: &[Step],
    place: usize,
) -> Result<Option<Handed<Carried>>, AllocError>
    requires fine { IsFine (S.names scope.now) facts }
    requires steps { steps.now ≡ (S.names scope.now).unit.body.steps }
    requires inside { place < length steps.now }
    ensures { IfOk result (λ h. moves (S.names scope.now) (S.names scope.now).config
        (S.names scope.now).unit place facts ≡ option_map moved h) }
{
    let instruction = &steps[place].instruction;
    match test_at(scope, steps, place) {
        Some(test) => hand_on_tested(alloc, scope, facts, test, instruction),
        None => hand_on_untested(alloc, scope, facts, instruction),
    }
}
