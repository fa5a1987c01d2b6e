// Units of each kind (IEC 61131-3:2003, 2.5).

ghost use Rattle.std.specs.Prelude.{IfOk, IfErr};
ghost use Rattle.load_lines.specs.Reads.{Reads, Refuses, RefusesBy, BreaksOff};
ghost use Rattle.load_tree.specs.Headings.{PlacedScalar, SpellsResultAt, SpellsProgram, SpellsBlock, SpellsFunction, SpellsProgramBy, SpellsBlockBy, SpellsFunctionBy};
ghost use Rattle.il_syntax_laws.specs.GoesOn.{quiet};
ghost use Rattle.il_syntax.specs.Grammar.{tight};
ghost use Rattle.load_lines.specs.declared.stop.SyntaxError.TheVariants.{Unexpected};
ghost use Rattle.load_tree.specs.Late.{LeavesWith};
ghost use Rattle.load_tree.specs.GoesOn.{BreaksWith, SpellsWholeProgram, SpellsWholeBlock, SpellsWholeFunction};

use crate::insides::{block_inside, function_inside, program_inside};
use base_lists::Items;
use il_syntax::keyword::Keyword;
use il_syntax::token::Sign;
use il_syntax::tree::{Body, Declaration, Named, Place, Scalar};
use load_lines::{Source, Stop, Tokens};

// A scalar type with its place.
fn placed_scalar(source: &Source, tokens: &mut Tokens) -> Result<(Place, Scalar), Stop>
    ensures reads { IfOk result (λ x. Reads (PlacedScalar source.now) tokens.old x tokens.new) }
    ensures refused { IfErr result (λ e. Refuses PlacedScalar source.now tokens.old e) }
    ensures begins { IfErr result (λ e. BreaksOff quiet PlacedScalar source.now tokens.old e) }
{
    let Some(place) = tokens.place() else {
        return Err(tokens.outside());
    };
    let scalar = source.scalar(tokens)?;
    Ok((place, scalar))
}

// The result of a function, with its place.
fn function_result(source: &Source, tokens: &mut Tokens) -> Result<(Place, Scalar), Stop>
    ensures reads { IfOk result (λ x. Reads (SpellsResultAt source.now) tokens.old x tokens.new) }
    ensures refused { IfErr result (λ e. Refuses SpellsResultAt source.now tokens.old e) }
    ensures begins { IfErr result (λ e. BreaksOff quiet SpellsResultAt source.now tokens.old e) }
{
    tokens.skip_lines();
    source.sign(tokens, Sign::Colon)?;
    tokens.skip_lines();
    Ok(placed_scalar(source, tokens)?)
}

/// A program, as its parts.
pub fn program(
    source: &Source,
    tokens: &mut Tokens,
) -> Result<(Place, Named, (Items<Declaration>, Items<Declaration>, Body)), Stop>
    ensures reads { IfOk result (λ x. Reads (SpellsProgram source.now) tokens.old x tokens.new) }
    ensures refused { IfErr result (λ e. RefusesBy SpellsProgramBy source.now tokens.old e) }
    ensures begins { IfErr result (λ e. BreaksWith tight (λ x. x.2.2) SpellsWholeProgram source.now
        tokens.old e) }
    ensures late { IfErr result (λ e. LeavesWith (λ x. x.2.2)
        (SpellsProgramBy Unexpected) source.now
        tokens.old e) }
{
    let place = source.placed_word(tokens, Keyword::Program)?;
    tokens.skip_lines();
    let name = source.named(tokens)?;
    let inside = program_inside(source, tokens)?;
    Ok((place, name, inside))
}

/// A function block, as its parts.
pub fn block(
    source: &Source,
    tokens: &mut Tokens,
) -> Result<
    (
        Place,
        Named,
        (
            Items<Declaration>,
            Items<Declaration>,
            Items<Declaration>,
            Body,
        ),
    ),
    Stop,
>
    ensures reads { IfOk result (λ x. Reads (SpellsBlock source.now) tokens.old x tokens.new) }
    ensures refused { IfErr result (λ e. RefusesBy SpellsBlockBy source.now tokens.old e) }
    ensures begins { IfErr result (λ e. BreaksWith tight (λ x. x.2.3) SpellsWholeBlock source.now
        tokens.old e) }
    ensures late { IfErr result (λ e. LeavesWith (λ x. x.2.3) (SpellsBlockBy Unexpected) source.now
        tokens.old e) }
{
    let place = source.placed_word(tokens, Keyword::FunctionBlock)?;
    tokens.skip_lines();
    let name = source.named(tokens)?;
    let inside = block_inside(source, tokens)?;
    Ok((place, name, inside))
}

/// A function, as its parts.
pub fn function(
    source: &Source,
    tokens: &mut Tokens,
) -> Result<
    (
        Place,
        Named,
        (Place, Scalar),
        (Items<Declaration>, Items<Declaration>, Body),
    ),
    Stop,
>
    ensures reads { IfOk result (λ x. Reads (SpellsFunction source.now) tokens.old x tokens.new) }
    ensures refused { IfErr result (λ e. RefusesBy SpellsFunctionBy source.now tokens.old e) }
    ensures begins { IfErr result (λ e. BreaksWith tight (λ x. x.3.2) SpellsWholeFunction source.now
        tokens.old e) }
    ensures late { IfErr result (λ e. LeavesWith (λ x. x.3.2)
        (SpellsFunctionBy Unexpected) source.now
        tokens.old e) }
{
    let place = source.placed_word(tokens, Keyword::Function)?;
    tokens.skip_lines();
    let name = source.named(tokens)?;
    let outcome = function_result(source, tokens)?;
    let inside = function_inside(source, tokens)?;
    Ok((place, name, outcome, inside))
}
