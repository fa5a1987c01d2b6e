// What operands and operators give at a place.

ghost use Rattle.std.specs.Prelude.{◌≡◌, option_and_then};
ghost use Rattle.base_maps.specs.NameMap.{get};
ghost use Rattle.ranges_laws.specs.Facts.{variables_of, row_at, IsRowOf, IsFineKnown, IsFineResult};
ghost use Rattle.ranges_laws.specs.Found.{found_operand, found_loaded};
ghost use Rattle.ranges_laws.specs.Numbers.{is_inside, operand_inside};
ghost use Rattle.ranges_laws.specs.Steps.{loaded_operand, operated_by, context};
ghost use Rattle.ranges_transfer.specs.Scopes.{denoted, named};

use crate::known::{found_loaded, found_operated};
use crate::meant::{context_of, is_inside_in, natural_of, operand_in, operand_inside_in};
use crate::scope::Scope;
use il_semantics::known::Known;
use il_syntax::tree::{Elementary, Operator, Reference};
use ranges_rows::Row;

/// What is known of an operand, of a bare literal with the type that is given.
#[tactic(auto, using(crate::proofs::Resolved::operand_is, crate::proofs::Resolved::operand_fine))]
pub fn operand<S: Scope>(
    scope: &S,
    row: &Row,
    elementary: Elementary,
    reference: &Reference,
) -> Option<Known>
    requires { IsRowOf (S.names scope.now) row.now }
    ensures fine { IsFineResult result }
    ensures is { result ≡ found_operand (row_at (S.names scope.now) row.now) elementary
        (denoted (S.names scope.now) reference.now) }
{
    operand_in(row, elementary, scope.meant(reference))
}

/// The operand of LD and of a short form.
#[inline(always)]
pub fn loaded_operand<S: Scope>(scope: &S, row: &Row, reference: &Reference) -> Option<Known>
    requires { IsRowOf (S.names scope.now) row.now }
    ensures fine { IsFineResult result }
    ensures is { result ≡ loaded_operand (S.names scope.now) row.now
        (denoted (S.names scope.now) reference.now) }
{
    let meant = scope.meant(reference);
    operand_in(row, natural_of(meant), meant)
}

/// What LD and LDN leave.
pub fn loaded<S: Scope>(scope: &S, row: &Row, negated: bool, reference: &Reference) -> Option<Known>
    requires { IsRowOf (S.names scope.now) row.now }
    ensures { result ≡ option_and_then (found_loaded negated)
        (loaded_operand (S.names scope.now) row.now (denoted (S.names scope.now) reference.now)) }
{
    found_loaded(negated, loaded_operand(scope, row, reference)?)
}

/// The operand after an operator.
pub fn right_operand<S: Scope>(
    scope: &S,
    row: &Row,
    left: Known,
    reference: &Reference,
) -> Option<Known>
    requires { IsRowOf (S.names scope.now) row.now }
    ensures fine { IsFineResult result }
    ensures is { result ≡ found_operand (row_at (S.names scope.now) row.now)
        (context (denoted (S.names scope.now) reference.now) left)
        (denoted (S.names scope.now) reference.now) }
{
    let meant = scope.meant(reference);
    operand_in(row, context_of(meant, left), meant)
}

/// The operand after an operator, as if its index lay in its array.
pub fn right_inside<S: Scope>(
    scope: &S,
    row: &Row,
    left: Known,
    reference: &Reference,
) -> Option<Known>
    requires { IsRowOf (S.names scope.now) row.now }
    ensures fine { IsFineResult result }
    ensures is { result ≡ operand_inside (get (variables_of (S.names scope.now) row.now))
        (context (denoted (S.names scope.now) reference.now) left)
        (denoted (S.names scope.now) reference.now) }
{
    let meant = scope.meant(reference);
    operand_inside_in(row, context_of(meant, left), meant)
}

/// What an operator leaves.
pub fn operated<S: Scope>(
    scope: &S,
    row: &Row,
    left: Option<Known>,
    operator: Operator,
    reference: &Reference,
) -> Option<Known>
    requires row { IsRowOf (S.names scope.now) row.now }
    requires fine { IsFineResult left }
    ensures { result ≡ option_and_then
        (operated_by (S.names scope.now) row.now operator
        (denoted (S.names scope.now) reference.now)) left }
{
    let left = left?;
    found_operated(operator, left, right_operand(scope, row, left, reference)?)
}

/// Whether an operand's index lies in its array for all of its values.
pub fn is_inside<S: Scope>(scope: &S, row: &Row, reference: &Reference) -> bool
    ensures { result ≡ is_inside (get (variables_of (S.names scope.now) row.now))
        (denoted (S.names scope.now) reference.now) }
{
    is_inside_in(row, scope.meant(reference))
}
