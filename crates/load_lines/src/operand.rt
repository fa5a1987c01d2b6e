// Operands (IEC 61131-3:2003, 2.4.1, 3.2.1 and 3.2.3).

ghost use Rattle.std.specs.Prelude.{◌≡◌, ◌<◌, ◌≤◌, length, IfOk, IfErr};
ghost use Rattle.il_syntax.specs.Grammar.{IsPlace, SpellsIndex, SpellsReference, SpellsOperand, SpellsArgument};
ghost use Rattle.load_lines.specs.declared.lead.Lead.TheVariants as lead;
ghost use Rattle.load_lines.specs.Lead.{lead_at};
ghost use Rattle.il_syntax_laws.specs.GoesOn.{always, settled};
ghost use Rattle.load_lines.specs.Reads.{Reads, Refuses, gap_of, SpellsLine, AnyNamed, BreaksOff, NamesFirst, test_of, Shortens};
ghost use Rattle.load_lines.specs.Operands.{SpellsElement, SpellsSelector, SpellsSelected, SpellsPassed, reference_of, argument_of};

use crate::lead::Lead;
use crate::source::Source;
use crate::stop::Stop;
use crate::tokens::{Gap, Tokens};
use il_syntax::name::Name;
use il_syntax::token::Sign;
use il_syntax::tree::{Argument, Index, Named, Operand, Reference};

/// What follows the name of a variable: nothing, an index or a member.
#[derive(Drop)]
pub enum Selector {
    Whole,
    Element(Index),
    Member(Name),
}

/// What an argument passes: an operand to an input, or an output to a variable.
#[derive(Drop)]
pub enum Passed {
    Input(Operand),
    Output(Named),
}

impl<'t> Source<'t> {
    /// An index of an array.
    #[tactic(auto, unfolding(crate::specs::Lead::lead_at))]
    pub fn index(&self, tokens: &mut Tokens) -> Result<Index, Stop>
        ensures reads { IfOk result (λ i. Reads (SpellsIndex self.now) tokens.old i tokens.new) }
        ensures refused { IfErr result (λ e. Refuses SpellsIndex self.now tokens.old e) }
        ensures first { IfErr result (λ e. NamesFirst tokens.old e) }
        ensures shorter { Shortens tokens.old tokens.new result }
    {
        match self.lead(tokens) {
            Lead::Number(value) => {
                tokens.advance();
                Ok(Index::Number(value))
            }
            _ => Ok(Index::Variable(self.name(tokens)?)),
        }
    }

    // An index, and the bracket that closes.
    fn element(&self, tokens: &mut Tokens, gap: Gap) -> Result<Index, Stop>
        ensures reads { IfOk result (λ i. Reads (SpellsElement self.now (gap_of gap)) tokens.old i
            tokens.new) }
        ensures refused { IfErr result (λ e. Refuses
            (λ text. SpellsElement text (gap_of gap)) self.now tokens.old e) }
        ensures begins { IfErr result (λ e. BreaksOff always (λ text. SpellsElement text (gap_of
            gap)) self.now tokens.old e) }
        ensures shorter { Shortens tokens.old tokens.new result }
    {
        let index = self.index(tokens)?;
        tokens.pass(gap);
        self.closed(tokens, Sign::CloseBracket, index)
    }

    // What follows the name of a variable.
    #[inline(always)]
    fn selector(&self, tokens: &mut Tokens, gap: Gap) -> Result<Selector, Stop>
        ensures reads { IfOk result (λ s. Reads (SpellsSelector self.now (gap_of gap)) tokens.old
            s tokens.new) }
        ensures refused { IfErr result (λ e. Refuses
            (λ text. SpellsSelector text (gap_of gap)) self.now tokens.old e) }
        ensures begins { IfErr result (λ e. BreaksOff (test_of gap) (λ text. SpellsSelector text
            (gap_of gap)) self.now tokens.old e) }
        ensures shorter { IfOk result (λ _. length tokens.new ≤ length tokens.old) }
    {
        if self.eat_sign(tokens, Sign::OpenBracket) {
            tokens.pass(gap);
            return Ok(Selector::Element(self.element(tokens, gap)?));
        }
        if self.eat_sign(tokens, Sign::Dot) {
            tokens.pass(gap);
            return Ok(Selector::Member(self.any_word(tokens)?));
        }
        Ok(Selector::Whole)
    }

    /// A variable, an element or a member, where a name is.
    #[inline(always)]
    pub fn selected(&self, tokens: &mut Tokens, gap: Gap) -> Result<Reference, Stop>
        requires { lead_at self.now tokens.old ≡ lead.Name }
        ensures place { IfOk result IsPlace }
        ensures reads { IfOk result (λ r. Reads (SpellsReference self.now (gap_of gap)) tokens.old
            r tokens.new) }
        ensures refused { IfErr result (λ e. Refuses
            (λ text. SpellsReference text (gap_of gap)) self.now tokens.old e) }
        ensures begins { IfErr result (λ e. BreaksOff (test_of gap) (λ text. SpellsSelected text
            (gap_of gap)) self.now tokens.old e) }
        ensures shorter { Shortens tokens.old tokens.new result }
    {
        let name = self.standing_name(tokens)?;
        tokens.pass(gap);
        let selector = self.selector(tokens, gap)?;
        Ok(reference_of(name, selector))
    }

    /// A literal, a variable, an element or a member.
    #[inline(always)]
    pub fn reference(&self, tokens: &mut Tokens, gap: Gap) -> Result<Reference, Stop>
        ensures reads { IfOk result (λ r. Reads (SpellsReference self.now (gap_of gap)) tokens.old
            r tokens.new) }
        ensures refused { IfErr result (λ e. Refuses
            (λ text. SpellsReference text (gap_of gap)) self.now tokens.old e) }
        ensures begins { IfErr result (λ e. BreaksOff (test_of gap) (λ text. SpellsReference text
            (gap_of gap)) self.now tokens.old e) }
        ensures shorter { Shortens tokens.old tokens.new result }
    {
        let Lead::Name = self.lead(tokens) else {
            return Ok(Reference::Literal(self.literal(tokens)?));
        };
        self.selected(tokens, gap)
    }

    /// An operand where it is written.
    #[inline(always)]
    pub fn operand(&self, tokens: &mut Tokens, gap: Gap) -> Result<Operand, Stop>
        ensures reads { IfOk result (λ o. Reads (SpellsOperand self.now (gap_of gap)) tokens.old o
            tokens.new) }
        ensures refused { IfErr result (λ e. Refuses
            (λ text. SpellsOperand text (gap_of gap)) self.now tokens.old e) }
        ensures begins { IfErr result (λ e. BreaksOff (test_of gap) (λ text. SpellsOperand text
            (gap_of gap)) self.now tokens.old e) }
        ensures shorter { Shortens tokens.old tokens.new result }
    {
        let Some(place) = tokens.place() else {
            return Err(tokens.outside());
        };
        let reference = self.reference(tokens, gap)?;
        Ok(Operand { place, reference })
    }

    /// An operand, and the end of its line.
    #[inline(always)]
    pub fn operand_line(&self, tokens: &mut Tokens) -> Result<Operand, Stop>
        ensures reads { IfOk result (λ o. Reads (SpellsLine self.now) tokens.old o tokens.new) }
        ensures refused { IfErr result (λ e. Refuses SpellsLine self.now tokens.old e) }
        ensures begins { IfErr result (λ e. BreaksOff always SpellsLine self.now tokens.old e) }
        ensures shorter { Shortens tokens.old tokens.new result }
    {
        let operand = self.operand(tokens, Gap::Tight)?;
        self.ended(tokens, operand)
    }

    /// A word with its place, reserved or not.
    pub fn any_named(&self, tokens: &mut Tokens) -> Result<Named, Stop>
        ensures reads { IfOk result (λ n. Reads (AnyNamed self.now) tokens.old n tokens.new) }
        ensures refused { IfErr result (λ e. Refuses AnyNamed self.now tokens.old e) }
        ensures first { IfErr result (λ e. NamesFirst tokens.old e) }
        ensures shorter { Shortens tokens.old tokens.new result }
    {
        let Some(place) = tokens.place() else {
            return Err(tokens.outside());
        };
        let name = self.any_word(tokens)?;
        Ok(Named { place, name })
    }

    // `:=` and an operand, or `=>` and a variable.
    fn passed(&self, tokens: &mut Tokens) -> Result<Passed, Stop>
        ensures reads { IfOk result (λ p. Reads (SpellsPassed self.now) tokens.old p tokens.new) }
        ensures refused { IfErr result (λ e. Refuses SpellsPassed self.now tokens.old e) }
        ensures begins { IfErr result (λ e. BreaksOff settled SpellsPassed self.now tokens.old e) }
        ensures shorter { Shortens tokens.old tokens.new result }
    {
        if self.eat_sign(tokens, Sign::Assign) {
            tokens.skip_lines();
            return Ok(Passed::Input(self.operand(tokens, Gap::Loose)?));
        }
        self.sign(tokens, Sign::Arrow)?;
        tokens.skip_lines();
        Ok(Passed::Output(self.named(tokens)?))
    }

    /// An argument of a CAL.
    pub fn argument(&self, tokens: &mut Tokens) -> Result<Argument, Stop>
        ensures reads { IfOk result (λ a. Reads (SpellsArgument self.now) tokens.old a tokens.new) }
        ensures refused { IfErr result (λ e. Refuses SpellsArgument self.now tokens.old e) }
        ensures begins { IfErr result (λ e. BreaksOff settled SpellsArgument self.now tokens.old
            e) }
        ensures shorter { Shortens tokens.old tokens.new result }
    {
        let word = self.any_named(tokens)?;
        tokens.skip_lines();
        let passed = self.passed(tokens)?;
        Ok(argument_of(word, passed))
    }
}

// The variable of this name, or a part of it.
#[inline(always)]
fn reference_of(name: Name, selector: Selector) -> Reference
    ensures { result ≡ reference_of name selector }
{
    match selector {
        Selector::Whole => Reference::Variable(name),
        Selector::Element(index) => Reference::Element(name, index),
        Selector::Member(member) => Reference::Member(name, member),
    }
}

// The argument of this word.
fn argument_of(word: Named, passed: Passed) -> Argument
    ensures { result ≡ argument_of word passed }
{
    match passed {
        Passed::Input(operand) => Argument::Input { word, operand },
        Passed::Output(target) => Argument::Output { word, target },
    }
}
