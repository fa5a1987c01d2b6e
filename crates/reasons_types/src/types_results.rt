// The type of the current result at an instruction: one pass over its unit, up to it (IEC 61131-3:2003, 3.2.2).

ghost use Rattle.std.specs.Prelude.{◌≡◌, ◌<◌, ℕ, None, Some, Option, IfOk, IfSome, OnOk, length, slice_get, string_bytes};
ghost use Rattle.base_texts.specs.Puts.{Puts};
ghost use Rattle.il_syntax.specs.declared.tree.Step.{Step as StepOf};
ghost use Rattle.il_statics.specs.Types.{opener, IsResultAt, IsDeferredAt};
ghost use Rattle.reasons_types.specs.ResultReasons.{jumps_to, jump_among, jump_to, jump_line, jump_lines, no_result_line, result_line, aside_line, deferred_lines, tested_line, result_lines, IsResultOf, IsResultTold};

use crate::types_operands::type_word;
use il_syntax::tree::{Body, Condition, Elementary, Instruction, Operator, Step};
use load_scope::{Scoped, UnitScope};
use load_types::places::{fresh, innermost, pass_on, result_at, set_aside};
use load_types::scope::Scope;
use reasons_names::writing::put_three;
use std::alloc::{AllocError, Global};

// What types come to a place: of the current result, and of what waits for a `)`.
#[derive(Clone, Copy)]
struct Types {
    result: Option<Elementary>,
    deferred: Option<(Operator, Option<Elementary>)>,
}

// The types that come to a place.
fn types_at<S: Scope>(
    alloc: Global,
    scope: &S,
    body: &Body,
    place: usize,
) -> Result<Types, AllocError>
    requires body { (S.unit scope.now).body ≡ body.now }
    requires room { length body.now.steps < 4294967295 }
    requires stands { place < length body.now.steps }
    ensures result { IfOk result (λ t.
        IsResultAt (S.config scope.now) (S.unit scope.now) place t.result) }
    ensures waits { IfOk result (λ t. IsDeferredAt (S.config scope.now) (S.unit scope.now)
        (opener (S.unit scope.now).body place) t.deferred) }
{
    let steps = body.steps.as_slice();
    let mut table = fresh(alloc, steps.len())?;
    let mut waiting = Vec::new(alloc);
    for at in 0..place {
        let step = &steps[at];
        let arrival = table[at];
        let deferred = innermost(waiting.as_slice());
        pass_on(scope, at, &step.instruction, arrival, deferred, &mut table);
        set_aside(&mut waiting, &step.instruction, result_at(arrival))?;
    }
    let reached = table[place];
    let outer = innermost(waiting.as_slice());
    Ok(Types {
        result: result_at(reached),
        deferred: outer,
    })
}

// Whether an instruction is a JMP without condition to a place of its body.
fn jumps_to(scope: &UnitScope<'_>, place: usize, instruction: &Instruction) -> bool
    ensures { result ≡ jumps_to scope.now.unit.body place instruction.now }
{
    match instruction {
        Instruction::Jump {
            condition: Condition::Always,
            label,
        } => scope.label(label.name.as_str()) == Some(place),
        _ => false,
    }
}

// The line of the first such JMP.
fn jump_among(scope: &UnitScope<'_>, place: usize, steps: &[Step]) -> Option<u32>
    ensures { result ≡ jump_among scope.now.unit.body place steps.now }
{
    for step in steps {
        if jumps_to(scope, place, &step.instruction) {
            return Some(step.place.line);
        }
    }
    None
}

// That of the body.
fn jump_to(scope: &UnitScope<'_>, place: usize) -> Option<u32>
    ensures { result ≡ jump_to scope.now.unit.body place }
{
    jump_among(scope, place, scope.tree().body.steps.as_slice())
}

// `the JMP in line 6 leads here, and a JMP brings no current result`
#[tactic(auto, unfolding(crate::specs::ResultReasons::jump_line))]
fn put_jump_line(text: &mut String, line: u32) -> Result<(), AllocError>
    ensures { OnOk result (Puts text.old text.new (jump_line line)) }
{
    write!(text, "the JMP in line {}", line)?;
    text.push_str(" leads here, and a JMP brings no current result\n")
}

// That a JMP leads to the place, where one does.
fn put_jump(text: &mut String, jump: Option<u32>) -> Result<(), AllocError>
    ensures { OnOk result (Puts text.old text.new (jump_lines jump)) }
{
    match jump {
        Some(line) => put_jump_line(text, line),
        None => Ok(()),
    }
}

// That no one type comes to the place on all paths.
#[tactic(auto, unfolding(crate::specs::ResultReasons::no_result_line))]
fn put_no_result(text: &mut String) -> Result<(), AllocError>
    ensures { OnOk result (Puts text.old text.new no_result_line) }
{
    text.push_str(
        "there is no current result of one type on all paths: none is there at the start, after a CAL, and where a JMP without condition comes from\n",
    )
}

// `the current result is INT`
fn put_result(
    text: &mut String,
    jump: Option<u32>,
    found: Option<Elementary>,
) -> Result<(), AllocError>
    ensures { OnOk result (Puts text.old text.new (result_line jump found)) }
{
    match found {
        Some(found) => put_three(text, "the current result is ", type_word(found), "\n"),
        None => {
            put_no_result(text)?;
            put_jump(text, jump)
        }
    }
}

// `the result before the parenthesis is INT`
fn put_aside(text: &mut String, found: Option<Elementary>) -> Result<(), AllocError>
    ensures { OnOk result (Puts text.old text.new (aside_line found)) }
{
    match found {
        Some(found) => put_three(
            text,
            "the result before the parenthesis is ",
            type_word(found),
            "\n",
        ),
        None => { text.push_str("before the parenthesis there is none of one type on all paths\n") }
    }
}

// What the result before the parenthesis is, where one was set aside.
fn put_deferred(
    text: &mut String,
    deferred: Option<(Operator, Option<Elementary>)>,
) -> Result<(), AllocError>
    ensures { OnOk result (Puts text.old text.new (deferred_lines deferred)) }
{
    match deferred {
        Some((_, found)) => put_aside(text, found),
        None => Ok(()),
    }
}

// The current result, where a condition tests it.
fn put_tested(
    text: &mut String,
    jump: Option<u32>,
    condition: Condition,
    found: Option<Elementary>,
) -> Result<(), AllocError>
    ensures { OnOk result (Puts text.old text.new (tested_line jump condition found)) }
{
    match condition {
        Condition::Always => Ok(()),
        _ => put_result(text, jump, found),
    }
}

// What an instruction takes of the current result.
fn put_taken(
    text: &mut String,
    jump: Option<u32>,
    instruction: &Instruction,
    types: Types,
) -> Result<(), AllocError>
    ensures { OnOk result (Puts text.old text.new
        (result_lines jump instruction.now types.result types.deferred)) }
{
    match instruction {
        Instruction::Load { .. } => Ok(()),
        Instruction::Evaluate => {
            put_result(text, jump, types.result)?;
            put_deferred(text, types.deferred)
        }
        Instruction::Jump { condition, .. } => put_tested(text, jump, *condition, types.result),
        Instruction::Return { condition } => put_tested(text, jump, *condition, types.result),
        Instruction::Call { condition, .. } => put_tested(text, jump, *condition, types.result),
        _ => put_result(text, jump, types.result),
    }
}

// What is reported of the instruction at a place.
fn told_at(
    alloc: Global,
    scope: &UnitScope<'_>,
    place: usize,
    instruction: &Instruction,
) -> Result<String, AllocError>
    requires room { length scope.now.unit.body.steps < 4294967295 }
    requires stands { place < length scope.now.unit.body.steps }
    ensures { IfOk result (λ t.
        IsResultOf scope.now.config scope.now.unit place instruction.now (string_bytes t)) }
{
    let types = types_at(alloc, scope, &scope.tree().body, place)?;
    let mut text = String::new(alloc);
    put_taken(&mut text, jump_to(scope, place), instruction, types)?;
    Ok(text)
}

// The place of the first instruction that follows so many bytes.
fn place_of(steps: &[Step], offset: u32) -> Option<usize>
    ensures some { IfSome result (λ at. (step : StepOf)
        × ((slice_get steps.now at ≡ Some step) × (step.place.offset ≡ offset))) }
    ensures none { result ≡ None → (at : ℕ) (step : StepOf) → slice_get steps.now at ≡ Some step
        → step.place.offset ≡ offset → ⊥ }
{
    'steps: for at in 0..steps.len() {
        if steps[at].place.offset == offset {
            return Some(at);
        }
    }
    None
}

/// What is reported of the current result at the instruction that follows so many bytes (own rule): its type, which all
/// control paths to it give, and at a `)` that of the result that was set aside.
pub fn result_told(alloc: Global, names: &Scoped, offset: u32) -> Result<String, AllocError>
    ensures { IfOk result (λ t. IsResultTold names.now offset (string_bytes t)) }
{
    let _few = names.written().tree();
    let units = names.config().units.as_slice();
    'units: for at in 0..units.len() {
        let unit = &units[at];
        let steps = unit.body.steps.as_slice();
        match place_of(steps, offset) {
            Some(place) => {
                let scope = UnitScope::of(names, at, unit);
                return told_at(alloc, &scope, place, &steps[place].instruction);
            }
            None => {}
        }
    }
    Ok(String::new(alloc))
}
