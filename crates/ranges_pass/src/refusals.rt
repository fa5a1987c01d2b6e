// The number of a refusal, by what is known at the place (own rules).

ghost use Rattle.std.specs.Prelude.{◌≡◌};
ghost use Rattle.il_statics.specs.Names.{standard_function};
ghost use Rattle.base_maps.specs.NameMap.{get};
ghost use Rattle.ranges_laws.specs.Facts.{variables_of, shown, IsRowOf, IsFineKnown, IsFineResult, IsFine};
ghost use Rattle.ranges_laws.specs.Numbers.{is_inside, unless_outside, divisor_fault, defer_fault, evaluate_fault, operands_fault, arguments_fault, invoke_fault};
ghost use Rattle.ranges_pass.specs.RangeFaults.{range_fault_number};
ghost use Rattle.ranges_pass.specs.Reasons.{operated_fault, operate_fault, fault_of};
ghost use Rattle.ranges_transfer.specs.Scopes.{denoted};
ghost use Rattle.ranges_pass.specs.Kinds.{is_division, is_argument_inside};

use crate::fault::RangeFault;
use il_semantics::known::{Known, KnownDeferred};
use il_syntax::tree::{Argument, Arithmetic, Instruction, Operand, Operator, Reference};
use ranges_laws::facts::Facts;
use ranges_rows::Row;
use ranges_transfer::{Scope, found_operated, is_inside, may_be_zero, right_inside};

// 42 where an index may lie outside of its array, otherwise this fault.
fn unless_outside<S: Scope>(
    scope: &S,
    row: &Row,
    reference: &Reference,
    fault: RangeFault,
) -> RangeFault
    ensures { range_fault_number result
        ≡ unless_outside (get (variables_of (S.names scope.now) row.now))
        (denoted (S.names scope.now) reference.now) (range_fault_number fault) }
{
    if is_inside(scope, row, reference) {
        fault
    } else {
        RangeFault::Index
    }
}

// Whether it divides.
fn is_division(operator: Operator) -> bool
    ensures { result ≡ is_division operator }
{
    matches!(
        operator,
        Operator::Arithmetic(Arithmetic::Div) | Operator::Arithmetic(Arithmetic::Mod)
    )
}

// 41 where the divisor may be 0, otherwise 40.
fn divisor_fault(operator: Operator, right: Option<Known>) -> RangeFault
    ensures { range_fault_number result ≡ divisor_fault operator right }
{
    match right {
        Some(Known::Ranged(_, divisor)) => {
            if is_division(operator) && may_be_zero(divisor) {
                RangeFault::ZeroDivisor
            } else {
                RangeFault::Overflow
            }
        }
        _ => RangeFault::Overflow,
    }
}

// Of an operation: its divisor or its result; where nothing is wrong with them, this fault.
fn operated_fault(
    operator: Operator,
    left: Known,
    right: Option<Known>,
    fault: RangeFault,
) -> RangeFault
    requires left { IsFineKnown left }
    requires right { IsFineResult right }
    ensures { range_fault_number result
        ≡ operated_fault operator left right (range_fault_number fault) }
{
    let Some(right) = right else {
        return RangeFault::Overflow;
    };
    match found_operated(operator, left, right) {
        Some(_) => fault,
        None => divisor_fault(operator, Some(right)),
    }
}

// Of an operator: by its operand, as if the index lay in the array, and then by the index.
fn operate_fault<S: Scope>(
    scope: &S,
    row: &Row,
    operator: Operator,
    reference: &Reference,
    left: Option<Known>,
) -> RangeFault
    requires row { IsRowOf (S.names scope.now) row.now }
    requires left { IsFineResult left }
    ensures { range_fault_number result
        ≡ operate_fault (get (variables_of (S.names scope.now) row.now)) operator
        (denoted (S.names scope.now) reference.now) left }
{
    match left {
        Some(left) => {
            let right = right_inside(scope, row, left, reference);
            let fault = unless_outside(scope, row, reference, RangeFault::Overflow);
            operated_fault(operator, left, right, fault)
        }
        None => RangeFault::Overflow,
    }
}

// Of a short form: its operand's index.
fn defer_fault<S: Scope>(scope: &S, row: &Row, first: &Option<Operand>) -> RangeFault
    ensures { range_fault_number result
        ≡ defer_fault (S.names scope.now).config (S.names scope.now).unit
        (get (variables_of (S.names scope.now) row.now)) first.now }
{
    match first {
        Some(operand) => unless_outside(scope, row, &operand.reference, RangeFault::Overflow),
        None => RangeFault::Overflow,
    }
}

// Of a `)`: the divisor of what was set aside.
fn evaluate_fault(deferred: &[KnownDeferred], right: Option<Known>) -> RangeFault
    ensures { range_fault_number result ≡ evaluate_fault deferred.now right }
{
    match deferred {
        [] => RangeFault::Overflow,
        [innermost, ..] => divisor_fault(innermost.operator, right),
    }
}

// Of a function's arguments: an index, otherwise this fault.
fn operands_fault<S: Scope>(
    scope: &S,
    row: &Row,
    operands: &[Operand],
    fault: RangeFault,
) -> RangeFault
    ensures { range_fault_number result
        ≡ operands_fault (S.names scope.now).config (S.names scope.now).unit
        (get (variables_of (S.names scope.now) row.now)) operands.now (range_fault_number fault) }
{
    for operand in operands {
        if !is_inside(scope, row, &operand.reference) {
            return RangeFault::Index;
        }
    }
    fault
}

// Whether an argument's index lies in its array.
fn is_argument_inside<S: Scope>(scope: &S, row: &Row, argument: &Argument) -> bool
    ensures { result ≡ is_argument_inside (S.names scope.now) row.now argument.now }
{
    match argument {
        Argument::Input { operand, .. } => is_inside(scope, row, &operand.reference),
        Argument::Output { .. } => true,
    }
}

// Of a block's arguments: an index, otherwise 44.
fn arguments_fault<S: Scope>(scope: &S, row: &Row, arguments: &[Argument]) -> RangeFault
    ensures { range_fault_number result
        ≡ arguments_fault (S.names scope.now).config (S.names scope.now).unit
        (get (variables_of (S.names scope.now) row.now)) arguments.now }
{
    for argument in arguments {
        if !is_argument_inside(scope, row, argument) {
            return RangeFault::Index;
        }
    }
    RangeFault::Argument
}

// Of a function: its arguments', which of an own function may lie outside of its inputs.
fn invoke_fault<S: Scope>(scope: &S, row: &Row, name: &str, operands: &[Operand]) -> RangeFault
    ensures { range_fault_number result
        ≡ invoke_fault (S.names scope.now).config (S.names scope.now).unit
        (get (variables_of (S.names scope.now) row.now)) (standard_function name.now) operands.now }
{
    match scope.standard_function(name) {
        Some(_) => operands_fault(scope, row, operands, RangeFault::Overflow),
        None => operands_fault(scope, row, operands, RangeFault::Argument),
    }
}

/// What an instruction breaks that is refused.
pub fn fault_of<S: Scope>(scope: &S, facts: &Facts, instruction: &Instruction) -> RangeFault
    requires { IsFine (S.names scope.now) facts.now }
    ensures { range_fault_number result
        ≡ fault_of (S.names scope.now).config (S.names scope.now).unit
        (shown (S.names scope.now) facts.now) instruction.now }
{
    let row = &facts.row;
    match instruction {
        Instruction::Load { operand, .. } => {
            unless_outside(scope, row, &operand.reference, RangeFault::Overflow)
        }
        Instruction::Store { target, .. } => {
            unless_outside(scope, row, &target.reference, RangeFault::Subrange)
        }
        Instruction::Operate { operator, operand } => {
            operate_fault(scope, row, *operator, &operand.reference, facts.result)
        }
        Instruction::Defer { first, .. } => defer_fault(scope, row, first),
        Instruction::Evaluate => evaluate_fault(facts.deferred.as_slice(), facts.result),
        Instruction::Call { arguments, .. } => { arguments_fault(scope, row, arguments.as_slice()) }
        Instruction::Invoke { function, operands } => {
            invoke_fault(scope, row, function.name.as_str(), operands.as_slice())
        }
        _ => RangeFault::Overflow,
    }
}
