// Declarations (IEC 61131-3:2003, 2.3.3 and 2.4.3).

ghost use Rattle.std.specs.Prelude.{◌<◌, ◌≤◌, length, IfOk, IfErr};
ghost use Rattle.il_syntax.specs.Grammar.{◌⋯◌, loose, At, AfterLines, Repeats, Listed, TheSign, TheWord, TheName, ANumber, ALiteral, SpellsSubrange, SpellsScalar, SpellsForm, SpellsType, SpellsInitial, SpellsDeclaration, SpellsList};
ghost use Rattle.il_syntax.specs.declared.token.Sign.TheVariants.{Assign, Range, Colon, Semicolon, Comma, OpenParenthesis, CloseParenthesis};
ghost use Rattle.il_syntax.specs.declared.keyword.Keyword.TheVariants as word;
ghost use Rattle.il_syntax_laws.specs.GoesOn.{always, quiet};
ghost use Rattle.load_lines.specs.Reads.{Reads, Refuses, SpellsArray, SpellsRange, SpellsElementType, SpellsValue, SpellsTyped, BreaksOff, NamesFirst, Shortens};
ghost use Rattle.il_syntax.specs.declared.tree.Subrange.{Subrange};

use crate::lead::Lead;
use crate::source::Source;
use crate::stop::Stop;
use crate::tokens::Tokens;
use base_lists::Items;
use il_syntax::keyword::Keyword;
use il_syntax::token::Sign;
use il_syntax::tree::{
    Declaration, Form, Initial, Literal, Named, Place, Scalar, Subrange, WrittenType,
};

impl<'t> Source<'t> {
    /// Names with commas between them, and a colon.
    pub fn names(&self, tokens: &mut Tokens) -> Result<Items<Named>, Stop>
        ensures reads { IfOk result (λ ns. Reads
            (λ ns. Listed loose (TheName self.now) ns (TheSign Colon)) tokens.old ns tokens.new) }
        ensures refused { IfErr result (λ e. Refuses (λ text ns. Listed loose (TheName text) ns
            (TheSign Colon)) self.now tokens.old e) }
        ensures begins { IfErr result (λ e. BreaksOff always (λ text ns. Listed loose (TheName text)
            ns (TheSign Colon)) self.now tokens.old e) }
        ensures shorter { Shortens tokens.old tokens.new result }
    {
        let mut names = Items::new(self.alloc());
        'names: loop {
            let name = self.named(tokens)?;
            names.push(name)?;
            tokens.skip_lines();
            if !self.eat_sign(tokens, Sign::Comma) {
                return self.closed(tokens, Sign::Colon, names);
            }
            tokens.skip_lines();
        }
    }

    // Two numbers with `..` between them.
    fn range(&self, tokens: &mut Tokens) -> Result<Subrange, Stop>
        ensures reads { IfOk result (λ s. Reads SpellsRange tokens.old s tokens.new) }
        ensures refused { IfErr result (λ e. Refuses (λ text. SpellsRange) self.now tokens.old e) }
        ensures begins { IfErr result (λ e. BreaksOff always (λ text. SpellsRange) self.now
            tokens.old e) }
        ensures shorter { Shortens tokens.old tokens.new result }
    {
        let lower = self.number(tokens)?;
        tokens.skip_lines();
        self.sign(tokens, Sign::Range)?;
        tokens.skip_lines();
        let upper = self.number(tokens)?;
        Ok(Subrange { lower, upper })
    }

    /// The limits of a subrange, in parentheses.
    pub fn limits(&self, tokens: &mut Tokens) -> Result<Subrange, Stop>
        ensures reads { IfOk result (λ s. Reads (λ s.
            TheSign OpenParenthesis ⋯ ANumber s.lower ⋯ TheSign Range ⋯ ANumber s.upper ⋯ TheSign
            CloseParenthesis) tokens.old s tokens.new) }
        ensures refused { IfErr result (λ e. Refuses
            (λ text (s : Subrange). TheSign OpenParenthesis ⋯ ANumber s.lower ⋯ TheSign Range
            ⋯ ANumber s.upper ⋯ TheSign CloseParenthesis) self.now tokens.old e) }
        ensures begins { IfErr result (λ e. BreaksOff always (λ text (s : Subrange). TheSign
            OpenParenthesis ⋯ ANumber s.lower ⋯ TheSign Range ⋯ ANumber s.upper ⋯ TheSign
            CloseParenthesis) self.now tokens.old e) }
        ensures shorter { Shortens tokens.old tokens.new result }
    {
        self.sign(tokens, Sign::OpenParenthesis)?;
        tokens.skip_lines();
        let limits = self.range(tokens)?;
        tokens.skip_lines();
        self.closed(tokens, Sign::CloseParenthesis, limits)
    }

    /// A subrange, which may be missing.
    pub fn subrange(&self, tokens: &mut Tokens) -> Result<Option<Subrange>, Stop>
        ensures reads { IfOk result (λ s. Reads (SpellsSubrange self.now) tokens.old s tokens.new) }
        ensures refused { IfErr result (λ e. Refuses SpellsSubrange self.now tokens.old e) }
        ensures begins { IfErr result (λ e. BreaksOff quiet SpellsSubrange self.now tokens.old e) }
        ensures shorter { IfOk result (λ _. length tokens.new ≤ length tokens.old) }
    {
        if !self.sign_comes(tokens, Sign::OpenParenthesis) {
            return Ok(None);
        }
        tokens.skip_lines();
        Ok(Some(self.limits(tokens)?))
    }

    /// A type with a scalar's values.
    #[tactic(auto, unfolding(crate::specs::Lead::lead_at))]
    pub fn scalar(&self, tokens: &mut Tokens) -> Result<Scalar, Stop>
        ensures reads { IfOk result (λ s. Reads (SpellsScalar self.now) tokens.old s tokens.new) }
        ensures refused { IfErr result (λ e. Refuses SpellsScalar self.now tokens.old e) }
        ensures begins { IfErr result (λ e. BreaksOff quiet SpellsScalar self.now tokens.old e) }
        ensures shorter { Shortens tokens.old tokens.new result }
    {
        let Lead::Reserved(Keyword::Elementary(elementary)) = self.lead(tokens) else {
            return Err(tokens.outside());
        };
        tokens.advance();
        let subrange = self.subrange(tokens)?;
        Ok(Scalar {
            elementary,
            subrange,
        })
    }

    // The bracket after the bounds of an array, OF and the type of the elements.
    fn element_type(&self, tokens: &mut Tokens) -> Result<Scalar, Stop>
        ensures reads { IfOk result (λ s. Reads (SpellsElementType self.now) tokens.old s
            tokens.new) }
        ensures refused { IfErr result (λ e. Refuses SpellsElementType self.now tokens.old e) }
        ensures begins { IfErr result (λ e. BreaksOff quiet SpellsElementType self.now tokens.old
            e) }
        ensures shorter { Shortens tokens.old tokens.new result }
    {
        self.sign(tokens, Sign::CloseBracket)?;
        tokens.skip_lines();
        self.word(tokens, Keyword::Of)?;
        tokens.skip_lines();
        self.scalar(tokens)
    }

    /// ARRAY, its bounds, OF and a scalar type.
    pub fn array(&self, tokens: &mut Tokens) -> Result<(Subrange, Scalar), Stop>
        ensures reads { IfOk result (λ a. Reads (SpellsArray self.now) tokens.old a tokens.new) }
        ensures refused { IfErr result (λ e. Refuses SpellsArray self.now tokens.old e) }
        ensures begins { IfErr result (λ e. BreaksOff quiet SpellsArray self.now tokens.old e) }
        ensures shorter { Shortens tokens.old tokens.new result }
    {
        self.word(tokens, Keyword::Array)?;
        tokens.skip_lines();
        self.sign(tokens, Sign::OpenBracket)?;
        tokens.skip_lines();
        let bounds = self.range(tokens)?;
        tokens.skip_lines();
        let element = self.element_type(tokens)?;
        Ok((bounds, element))
    }

    /// What a type is.
    #[tactic(auto, unfolding(crate::specs::Lead::lead_at))]
    pub fn form(&self, tokens: &mut Tokens) -> Result<Form, Stop>
        ensures reads { IfOk result (λ f. Reads (SpellsForm self.now) tokens.old f tokens.new) }
        ensures refused { IfErr result (λ e. Refuses SpellsForm self.now tokens.old e) }
        ensures begins { IfErr result (λ e. BreaksOff quiet SpellsForm self.now tokens.old e) }
        ensures shorter { Shortens tokens.old tokens.new result }
    {
        match self.lead(tokens) {
            Lead::Reserved(Keyword::Elementary(_)) => Ok(Form::Scalar(self.scalar(tokens)?)),
            Lead::Reserved(Keyword::Array) => {
                let (bounds, element) = self.array(tokens)?;
                Ok(Form::Array { bounds, element })
            }
            Lead::Name => Ok(Form::Block(self.name(tokens)?)),
            _ => Err(tokens.outside()),
        }
    }

    /// A type where it is written.
    pub fn written_type(&self, tokens: &mut Tokens) -> Result<WrittenType, Stop>
        ensures reads { IfOk result (λ t. Reads (SpellsType self.now) tokens.old t tokens.new) }
        ensures refused { IfErr result (λ e. Refuses SpellsType self.now tokens.old e) }
        ensures begins { IfErr result (λ e. BreaksOff quiet SpellsType self.now tokens.old e) }
        ensures shorter { Shortens tokens.old tokens.new result }
    {
        let Some(place) = tokens.place() else {
            return Err(tokens.outside());
        };
        let form = self.form(tokens)?;
        Ok(WrittenType { place, form })
    }

    /// A literal.
    #[tactic(auto, unfolding(crate::specs::Lead::lead_at))]
    pub fn literal(&self, tokens: &mut Tokens) -> Result<Literal, Stop>
        ensures reads { IfOk result (λ l. Reads (ALiteral self.now) tokens.old l tokens.new) }
        ensures refused { IfErr result (λ e. Refuses ALiteral self.now tokens.old e) }
        ensures first { IfErr result (λ e. NamesFirst tokens.old e) }
        ensures shorter { Shortens tokens.old tokens.new result }
    {
        match self.lead(tokens) {
            Lead::Reserved(Keyword::Truth(truth)) => {
                tokens.advance();
                Ok(Literal::Truth(truth))
            }
            Lead::Number(value) => {
                tokens.advance();
                Ok(Literal::Bare(value))
            }
            Lead::Typed(Literal::Whole(elementary, value)) => {
                tokens.advance();
                Ok(Literal::Whole(elementary, value))
            }
            Lead::Typed(Literal::Time(value)) => {
                tokens.advance();
                Ok(Literal::Time(value))
            }
            _ => Err(tokens.outside()),
        }
    }

    // A literal with its place, and a semicolon.
    fn value(&self, tokens: &mut Tokens) -> Result<Initial, Stop>
        ensures reads { IfOk result (λ i. Reads (SpellsValue self.now) tokens.old i tokens.new) }
        ensures refused { IfErr result (λ e. Refuses SpellsValue self.now tokens.old e) }
        ensures begins { IfErr result (λ e. BreaksOff always SpellsValue self.now tokens.old e) }
        ensures shorter { Shortens tokens.old tokens.new result }
    {
        let Some(place) = tokens.place() else {
            return Err(tokens.outside());
        };
        let literal = self.literal(tokens)?;
        tokens.skip_lines();
        self.sign(tokens, Sign::Semicolon)?;
        Ok(Initial { place, literal })
    }

    /// An initial value, which may be missing, and a semicolon.
    pub fn initial(&self, tokens: &mut Tokens) -> Result<Option<Initial>, Stop>
        ensures reads { IfOk result (λ i. Reads (SpellsInitial self.now) tokens.old i tokens.new) }
        ensures refused { IfErr result (λ e. Refuses SpellsInitial self.now tokens.old e) }
        ensures begins { IfErr result (λ e. BreaksOff always SpellsInitial self.now tokens.old e) }
        ensures shorter { Shortens tokens.old tokens.new result }
    {
        if self.eat_sign(tokens, Sign::Semicolon) {
            return Ok(None);
        }
        self.sign(tokens, Sign::Assign)?;
        tokens.skip_lines();
        Ok(Some(self.value(tokens)?))
    }

    // A type and an initial value.
    fn typed(&self, tokens: &mut Tokens) -> Result<(WrittenType, Option<Initial>), Stop>
        ensures reads { IfOk result (λ x. Reads (SpellsTyped self.now) tokens.old x tokens.new) }
        ensures refused { IfErr result (λ e. Refuses SpellsTyped self.now tokens.old e) }
        ensures begins { IfErr result (λ e. BreaksOff always SpellsTyped self.now tokens.old e) }
        ensures shorter { Shortens tokens.old tokens.new result }
    {
        let declared = self.written_type(tokens)?;
        tokens.skip_lines();
        let initial = self.initial(tokens)?;
        Ok((declared, initial))
    }

    /// Names of variables, their type, and their initial value.
    pub fn declaration(&self, tokens: &mut Tokens) -> Result<Declaration, Stop>
        ensures reads { IfOk result (λ d. Reads (SpellsDeclaration self.now) tokens.old d
            tokens.new) }
        ensures refused { IfErr result (λ e. Refuses SpellsDeclaration self.now tokens.old e) }
        ensures begins { IfErr result (λ e. BreaksOff always SpellsDeclaration self.now tokens.old
            e) }
        ensures shorter { Shortens tokens.old tokens.new result }
    {
        let names = self.names(tokens)?;
        tokens.skip_lines();
        let (declared, initial) = self.typed(tokens)?;
        Ok(Declaration {
            names,
            declared,
            initial,
        })
    }

    /// Declarations, and END_VAR.
    pub fn declarations(&self, tokens: &mut Tokens) -> Result<Items<Declaration>, Stop>
        ensures reads { IfOk result (λ ds. Reads
            (λ ds. Repeats (SpellsDeclaration self.now) ds (TheWord self.now word.EndVar))
            tokens.old ds tokens.new) }
        ensures refused { IfErr result (λ e. Refuses
            (λ text ds. Repeats (SpellsDeclaration text) ds (TheWord text word.EndVar))
            self.now tokens.old e) }
        ensures begins { IfErr result (λ e. BreaksOff always (λ text ds. Repeats (SpellsDeclaration
            text) ds (TheWord text word.EndVar)) self.now tokens.old e) }
    {
        let mut declarations = Items::new(self.alloc());
        'declarations: while !self.eat_word(tokens, Keyword::EndVar) {
            let declaration = self.declaration(tokens)?;
            declarations.push(declaration)?;
            tokens.skip_lines();
        }
        Ok(declarations)
    }
}
