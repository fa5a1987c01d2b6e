// Arguments of calls, and operands of functions (IEC 61131-3:2003, 3.2.3).

ghost use Rattle.std.specs.Prelude.{◌<◌, IfOk, IfErr};
ghost use Rattle.il_syntax.specs.Grammar.{SpellsArguments, SpellsOperands};
ghost use Rattle.il_syntax_laws.specs.GoesOn.{always};
ghost use Rattle.load_lines.specs.Reads.{Reads, Refuses, SpellsCalled, SpellsInside, SpellsListed, SpellsOpened, BreaksOff, Shortens};

use crate::lead::Lead;
use crate::source::Source;
use crate::stop::Stop;
use crate::tokens::{Gap, Tokens};
use base_lists::Items;
use il_syntax::token::Sign;
use il_syntax::tree::{Argument, Named, Operand};

impl<'t> Source<'t> {
    /// Operands with commas between them, and the end of the line.
    pub fn some_operands(&self, tokens: &mut Tokens) -> Result<Items<Operand>, Stop>
        ensures reads { IfOk result (λ os. Reads (SpellsListed self.now) tokens.old os tokens.new) }
        ensures refused { IfErr result (λ e. Refuses SpellsListed self.now tokens.old e) }
        ensures begins { IfErr result (λ e. BreaksOff always SpellsListed self.now tokens.old e) }
        ensures shorter { Shortens tokens.old tokens.new result }
    {
        let mut operands = Items::new(self.alloc());
        'operands: loop {
            let operand = self.operand(tokens, Gap::Tight)?;
            operands.push(operand)?;
            if !self.eat_sign(tokens, Sign::Comma) {
                return self.ended(tokens, operands);
            }
        }
    }

    /// The operands of a function, which may be none, and the end of the line.
    #[tactic(auto, unfolding(crate::specs::Lead::lead_at))]
    pub fn operands(&self, tokens: &mut Tokens) -> Result<Items<Operand>, Stop>
        ensures reads { IfOk result (λ os. Reads (SpellsOperands self.now) tokens.old os
            tokens.new) }
        ensures refused { IfErr result (λ e. Refuses SpellsOperands self.now tokens.old e) }
        ensures begins { IfErr result (λ e. BreaksOff always SpellsOperands self.now tokens.old e) }
        ensures shorter { Shortens tokens.old tokens.new result }
    {
        if let Lead::LineEnd = self.lead(tokens) {
            tokens.advance();
            return Ok(Items::new(self.alloc()));
        }
        self.some_operands(tokens)
    }

    /// Arguments with commas between them, and the parenthesis that closes.
    pub fn some_arguments(&self, tokens: &mut Tokens) -> Result<Items<Argument>, Stop>
        ensures reads { IfOk result (λ xs. Reads (SpellsInside self.now) tokens.old xs tokens.new) }
        ensures refused { IfErr result (λ e. Refuses SpellsInside self.now tokens.old e) }
        ensures begins { IfErr result (λ e. BreaksOff always SpellsInside self.now tokens.old e) }
        ensures shorter { Shortens tokens.old tokens.new result }
    {
        let mut arguments = Items::new(self.alloc());
        'arguments: loop {
            let argument = self.argument(tokens)?;
            arguments.push(argument)?;
            tokens.skip_lines();
            if !self.eat_sign(tokens, Sign::Comma) {
                return self.closed(tokens, Sign::CloseParenthesis, arguments);
            }
            tokens.skip_lines();
        }
    }

    // The arguments after the parenthesis that opens, which may be none, the one that closes, and the end of the line.
    fn opened(&self, tokens: &mut Tokens) -> Result<Items<Argument>, Stop>
        ensures reads { IfOk result (λ xs. Reads (SpellsOpened self.now) tokens.old xs tokens.new) }
        ensures refused { IfErr result (λ e. Refuses SpellsOpened self.now tokens.old e) }
        ensures begins { IfErr result (λ e. BreaksOff always SpellsOpened self.now tokens.old e) }
        ensures shorter { Shortens tokens.old tokens.new result }
    {
        if self.eat_sign(tokens, Sign::CloseParenthesis) {
            self.line_end(tokens)?;
            return Ok(Items::new(self.alloc()));
        }
        let arguments = self.some_arguments(tokens)?;
        self.ended(tokens, arguments)
    }

    /// The arguments of a call, which may be none, with or without parentheses, and the end of the line.
    pub fn arguments(&self, tokens: &mut Tokens) -> Result<Items<Argument>, Stop>
        ensures reads { IfOk result (λ xs. Reads (SpellsArguments self.now) tokens.old xs
            tokens.new) }
        ensures refused { IfErr result (λ e. Refuses SpellsArguments self.now tokens.old e) }
        ensures begins { IfErr result (λ e. BreaksOff always SpellsArguments self.now tokens.old
            e) }
        ensures shorter { Shortens tokens.old tokens.new result }
    {
        if !self.eat_sign(tokens, Sign::OpenParenthesis) {
            self.line_end(tokens)?;
            return Ok(Items::new(self.alloc()));
        }
        tokens.skip_lines();
        self.opened(tokens)
    }

    /// The instance that is called, and its arguments.
    pub fn called(&self, tokens: &mut Tokens) -> Result<(Named, Items<Argument>), Stop>
        ensures reads { IfOk result (λ x. Reads (SpellsCalled self.now) tokens.old x tokens.new) }
        ensures refused { IfErr result (λ e. Refuses SpellsCalled self.now tokens.old e) }
        ensures begins { IfErr result (λ e. BreaksOff always SpellsCalled self.now tokens.old e) }
        ensures shorter { Shortens tokens.old tokens.new result }
    {
        let instance = self.named(tokens)?;
        let arguments = self.arguments(tokens)?;
        Ok((instance, arguments))
    }
}
