// Units (IEC 61131-3:2003, 2.5).

ghost use Rattle.std.specs.Prelude.{IfOk, IfErr};
ghost use Rattle.il_syntax.specs.declared.keyword.Keyword.TheVariants as word;
ghost use Rattle.load_lines.specs.Reads.{Reads, RefusesBy, Refuses};
ghost use Rattle.load_tree.specs.Units.{SpellsSmallUnit, SpellsUnitOf, SpellsUnitBy, SpellsUnitOfBy};
ghost use Rattle.il_syntax.specs.Grammar.{tight, SpellsUnit};
ghost use Rattle.load_lines.specs.declared.stop.SyntaxError.TheVariants.{Unexpected};
ghost use Rattle.load_tree.specs.Late.{LeavesWith};
ghost use Rattle.load_tree.specs.GoesOn.{BreaksWith};

use crate::headings::{block, function, program};
use base_lists::Items;
use il_syntax::keyword::Keyword;
use il_syntax::tree::{Unit, UnitKind};
use load_lines::{Source, Stop, Tokens};

// A program.
fn program_unit(source: &Source, tokens: &mut Tokens) -> Result<Unit, Stop>
    ensures reads { IfOk result (λ u. Reads (SpellsUnitOf source.now word.Program) tokens.old u
        tokens.new) }
    ensures refused { IfErr result (λ e. RefusesBy
        (SpellsUnitOfBy word.Program) source.now tokens.old e) }
    ensures begins { IfErr result (λ e. BreaksWith tight (λ u. u.body) SpellsUnit source.now
        tokens.old e) }
    ensures late { IfErr result (λ e. LeavesWith (λ u. u.body)
        (SpellsUnitOfBy word.Program Unexpected) source.now tokens.old e) }
{
    let (place, name, (variables, externals, body)) = program(source, tokens)?;
    Ok(Unit {
        place,
        kind: UnitKind::Program,
        name,
        inputs: Items::new(source.alloc()),
        outputs: Items::new(source.alloc()),
        variables,
        externals,
        body,
    })
}

// A function block.
fn block_unit(source: &Source, tokens: &mut Tokens) -> Result<Unit, Stop>
    ensures reads { IfOk result (λ u. Reads (SpellsUnitOf source.now word.FunctionBlock)
        tokens.old u tokens.new) }
    ensures refused { IfErr result (λ e. RefusesBy
        (SpellsUnitOfBy word.FunctionBlock) source.now tokens.old e) }
    ensures begins { IfErr result (λ e. BreaksWith tight (λ u. u.body) SpellsUnit source.now
        tokens.old e) }
    ensures late { IfErr result (λ e. LeavesWith (λ u. u.body)
        (SpellsUnitOfBy word.FunctionBlock Unexpected) source.now tokens.old e) }
{
    let (place, name, (inputs, outputs, variables, body)) = block(source, tokens)?;
    Ok(Unit {
        place,
        kind: UnitKind::FunctionBlock,
        name,
        inputs,
        outputs,
        variables,
        externals: Items::new(source.alloc()),
        body,
    })
}

// A function.
fn function_unit(source: &Source, tokens: &mut Tokens) -> Result<Unit, Stop>
    ensures reads { IfOk result (λ u. Reads (SpellsUnitOf source.now word.Function) tokens.old u
        tokens.new) }
    ensures refused { IfErr result (λ e. RefusesBy
        (SpellsUnitOfBy word.Function) source.now tokens.old e) }
    ensures begins { IfErr result (λ e. BreaksWith tight (λ u. u.body) SpellsUnit source.now
        tokens.old e) }
    ensures late { IfErr result (λ e. LeavesWith (λ u. u.body)
        (SpellsUnitOfBy word.Function Unexpected) source.now tokens.old e) }
{
    let (place, name, (result_place, scalar), (inputs, variables, body)) = function(
        source, tokens,
    )?;
    Ok(Unit {
        place,
        kind: UnitKind::Function(scalar, result_place),
        name,
        inputs,
        outputs: Items::new(source.alloc()),
        variables,
        externals: Items::new(source.alloc()),
        body,
    })
}

/// A unit of any kind.
pub fn unit(source: &Source, tokens: &mut Tokens) -> Result<Unit, Stop>
    ensures reads { IfOk result (λ u. Reads (SpellsSmallUnit source.now) tokens.old u tokens.new) }
    ensures refused { IfErr result (λ e. RefusesBy SpellsUnitBy source.now tokens.old e) }
    ensures begins { IfErr result (λ e. BreaksWith tight (λ u. u.body) SpellsUnit source.now
        tokens.old e) }
    ensures late { IfErr result (λ e. LeavesWith (λ u. u.body)
        (SpellsUnitBy Unexpected) source.now tokens.old e) }
{
    if source.word_stands(tokens, Keyword::Program) {
        return program_unit(source, tokens);
    }
    if source.word_stands(tokens, Keyword::FunctionBlock) {
        return block_unit(source, tokens);
    }
    function_unit(source, tokens)
}
