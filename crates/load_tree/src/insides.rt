// What follows the heading of a unit (IEC 61131-3:2003, 2.5).

ghost use Rattle.std.specs.Prelude.{IfOk, IfErr};
ghost use Rattle.load_lines.specs.Reads.{Reads, Refuses};
ghost use Rattle.load_tree.specs.Ahead.{RefusesAheadBy, RefusesAhead};
ghost use Rattle.load_tree.specs.Insides.{SpellsProgramInside, SpellsBlockInside, SpellsFunctionInside, SpellsProgramInsideBy, SpellsBlockInsideBy, SpellsFunctionInsideBy};
ghost use Rattle.il_syntax.specs.Grammar.{loose};
ghost use Rattle.load_lines.specs.declared.stop.SyntaxError.TheVariants.{Unexpected};
ghost use Rattle.load_tree.specs.Late.{LeavesWith};
ghost use Rattle.load_tree.specs.GoesOn.{BreaksWith, SpellsProgramRest, SpellsBlockRest, SpellsFunctionRest};

use crate::bodies::body;
use crate::variables::{externals, filled_list, full_list, no_list, optional_list};
use base_lists::Items;
use il_syntax::keyword::Keyword;
use il_syntax::tree::{Body, Declaration};
use load_lines::{Source, Stop, Tokens};

/// The variables and the externals of a program, and its body.
pub fn program_inside(
    source: &Source,
    tokens: &mut Tokens,
) -> Result<(Items<Declaration>, Items<Declaration>, Body), Stop>
    ensures reads { IfOk result (λ x. Reads (SpellsProgramInside source.now) tokens.old x
        tokens.new) }
    ensures refused { IfErr result (λ e. RefusesAheadBy SpellsProgramInsideBy source.now tokens.old
        e) }
    ensures begins { IfErr result (λ e. BreaksWith loose (λ x. x.2) SpellsProgramRest source.now
        tokens.old e) }
    ensures late { IfErr result (λ e. LeavesWith (λ x. x.2)
        (SpellsProgramInsideBy Unexpected) source.now tokens.old e) }
{
    no_list(source, tokens, Keyword::VarInput)?;
    no_list(source, tokens, Keyword::VarOutput)?;
    let variables = optional_list(source, tokens, Keyword::Var)?;
    let externals = externals(source, tokens)?;
    let body = body(source, tokens, Keyword::EndProgram)?;
    Ok((variables, externals, body))
}

/// The inputs, the outputs and the variables of a function block, and its body.
pub fn block_inside(
    source: &Source,
    tokens: &mut Tokens,
) -> Result<
    (
        Items<Declaration>,
        Items<Declaration>,
        Items<Declaration>,
        Body,
    ),
    Stop,
>
    ensures reads { IfOk result (λ x. Reads (SpellsBlockInside source.now) tokens.old x
        tokens.new) }
    ensures refused { IfErr result (λ e. RefusesAheadBy SpellsBlockInsideBy source.now tokens.old
        e) }
    ensures begins { IfErr result (λ e. BreaksWith loose (λ x. x.3) SpellsBlockRest source.now
        tokens.old e) }
    ensures late { IfErr result (λ e. LeavesWith (λ x. x.3)
        (SpellsBlockInsideBy Unexpected) source.now tokens.old e) }
{
    let inputs = filled_list(source, tokens, Keyword::VarInput)?;
    let outputs = filled_list(source, tokens, Keyword::VarOutput)?;
    let variables = optional_list(source, tokens, Keyword::Var)?;
    no_list(source, tokens, Keyword::VarExternal)?;
    let body = body(source, tokens, Keyword::EndFunctionBlock)?;
    Ok((inputs, outputs, variables, body))
}

/// The inputs and the variables of a function, and its body.
pub fn function_inside(
    source: &Source,
    tokens: &mut Tokens,
) -> Result<(Items<Declaration>, Items<Declaration>, Body), Stop>
    ensures reads { IfOk result (λ x. Reads (SpellsFunctionInside source.now) tokens.old x
        tokens.new) }
    ensures refused { IfErr result (λ e. RefusesAheadBy
        SpellsFunctionInsideBy source.now tokens.old e) }
    ensures begins { IfErr result (λ e. BreaksWith loose (λ x. x.2) SpellsFunctionRest source.now
        tokens.old e) }
    ensures late { IfErr result (λ e. LeavesWith (λ x. x.2)
        (SpellsFunctionInsideBy Unexpected) source.now tokens.old e) }
{
    let inputs = full_list(source, tokens, Keyword::VarInput)?;
    no_list(source, tokens, Keyword::VarOutput)?;
    let variables = optional_list(source, tokens, Keyword::Var)?;
    no_list(source, tokens, Keyword::VarExternal)?;
    let body = body(source, tokens, Keyword::EndFunction)?;
    Ok((inputs, variables, body))
}
