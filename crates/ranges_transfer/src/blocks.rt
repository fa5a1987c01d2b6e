// Calls of blocks (IEC 61131-3:2003, 3.2.3).

ghost use Rattle.std.specs.Prelude.{◌≡◌, Option, Some, option_map, IfOk};
ghost use Rattle.il_syntax.specs.declared.tree.Form.{Form};
ghost use Rattle.il_syntax.specs.declared.tree.Form.TheVariants.{Block as BlockForm};
ghost use Rattle.base_maps.specs.NameMap.{Text};
ghost use Rattle.ranges_laws.specs.Facts.{IsRowOf, IsFine};
ghost use Rattle.ranges_laws.specs.Steps.{to_next, fits_output, output_row, fit_arguments, outputs_row, passed_row, called, has_condition, moves_of_call};
ghost use Rattle.ranges_laws.specs.Found.{provided};
ghost use Rattle.load_scope.specs.Units.{scalar_of};
ghost use Rattle.ranges_transfer.specs.Scopes.{named, form_in, argument_fits, row_after, argument_row, IsInstance};

use crate::calls::fits_input;
use crate::carried::Carried;
use crate::join::join_rows;
use crate::known::known_of;
use crate::meant::{store_in, target_fits};
use crate::scope::Scope;
use il_syntax::tree::{Argument, Condition, Scalar};
use ranges_rows::Row;
use std::alloc::{AllocError, Global};

// Whether a target takes all values of an output, if that is scalar.
fn fits_output<S: Scope>(scope: &S, row: &Row, output: Option<Scalar>, target: &str) -> bool
    ensures { (form : Option Form) → output ≡ scalar_of form → result
        ≡ fits_output (S.names scope.now) row.now (named (S.names scope.now) target.now) form }
{
    match output {
        Some(scalar) => target_fits(row, scope.variable(target), known_of(scalar)),
        None => false,
    }
}

// Whether an argument fits.
fn fits_argument<S: Scope>(scope: &S, row: &Row, instance: &str, argument: &Argument) -> bool
    requires { IsRowOf (S.names scope.now) row.now }
    ensures { (block : Text) → form_in (S.names scope.now) instance.now ≡ Some (BlockForm block)
        → result ≡ argument_fits (S.names scope.now) row.now block argument.now }
{
    match argument {
        Argument::Input { word, operand } => {
            let input = scope.input(instance, word.name.as_str());
            fits_input(scope, row, input, &operand.reference)
        }
        Argument::Output { word, target } => {
            let output = scope.output(instance, word.name.as_str());
            fits_output(scope, row, output, target.name.as_str())
        }
    }
}

// Whether all arguments fit.
fn fit_arguments<S: Scope>(scope: &S, row: &Row, instance: &str, arguments: &[Argument]) -> bool
    requires { IsRowOf (S.names scope.now) row.now }
    ensures { (block : Text) → form_in (S.names scope.now) instance.now ≡ Some (BlockForm block)
        → result ≡ fit_arguments (S.names scope.now) row.now (S.names scope.now).config
        (S.names scope.now).unit block arguments.now }
{
    for argument in arguments {
        if !fits_argument(scope, row, instance, argument) {
            return false;
        }
    }
    true
}

// Gives a target the declared range of an output.
fn copy_output<S: Scope>(scope: &S, row: &mut Row, output: Option<Scalar>, target: &str)
    ensures { (form : Option Form) → output ≡ scalar_of form → row.new
        ≡ output_row (S.names scope.now) form (named (S.names scope.now) target.now) row.old }
{
    if let Some(scalar) = output {
        store_in(row, scope.variable(target), known_of(scalar));
    }
}

// Gives the target of an argument the declared range of the output.
fn copy_argument<S: Scope>(scope: &S, row: &mut Row, instance: &str, argument: &Argument)
    ensures { (block : Text) → form_in (S.names scope.now) instance.now ≡ Some (BlockForm block)
        → row.new ≡ argument_row (S.names scope.now) block argument.now row.old }
{
    if let Argument::Output { word, target } = argument {
        let output = scope.output(instance, word.name.as_str());
        copy_output(scope, row, output, target.name.as_str());
    }
}

// Gives each target of an output its declared range.
fn copy_outputs<S: Scope>(scope: &S, row: &mut Row, instance: &str, arguments: &[Argument])
    ensures { (block : Text) → form_in (S.names scope.now) instance.now ≡ Some (BlockForm block)
        → row.new ≡ outputs_row (S.names scope.now) (S.names scope.now).config
        (S.names scope.now).unit block arguments.now row.old }
{
    for argument in arguments {
        copy_argument(scope, row, instance, argument);
    }
}

// The row after a call: of a conditional one both as it acts and as it passes.
fn passed_row<S: Scope>(
    alloc: Global,
    scope: &S,
    row: &mut Row,
    condition: Condition,
    instance: &str,
    arguments: &[Argument],
) -> Result<(), AllocError>
    requires { IsInstance (S.names scope.now) instance.now }
    ensures { IfOk result (λ _. (block : Text)
        → form_in (S.names scope.now) instance.now ≡ Some (BlockForm block)
        → row.new ≡ row_after (S.names scope.now) condition block arguments.now row.old) }
{
    if let Condition::Always = condition {
        copy_outputs(scope, row, instance, arguments);
        return Ok(());
    }
    let before = row.try_copy(alloc)?;
    copy_outputs(scope, row, instance, arguments);
    join_rows(row, &before);
    Ok(())
}

/// The facts after a call of a name, if it is that of an instance and the arguments fit.
pub fn called<S: Scope>(
    alloc: Global,
    scope: &S,
    facts: Carried,
    condition: Condition,
    instance: &str,
    arguments: &[Argument],
) -> Result<Option<Carried>, AllocError>
    requires { IsFine (S.names scope.now) facts }
    ensures { IfOk result (λ after. moves_of_call (S.names scope.now) (S.names scope.now).config
        (S.names scope.now).unit facts condition arguments.now
        (form_in (S.names scope.now) instance.now) ≡ option_map to_next after) }
{
    if !scope.is_instance(instance) {
        return Ok(None);
    }
    if !fit_arguments(scope, &facts.kept.row, instance, arguments) {
        return Ok(None);
    }
    let mut facts = facts;
    passed_row(
        alloc,
        scope,
        &mut facts.kept.row,
        condition,
        instance,
        arguments,
    )?;
    facts.kept.result = None;
    Ok(Some(facts))
}
