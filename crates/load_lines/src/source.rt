// The text that the tokens are of.

ghost use Rattle.std.specs.Prelude.{◌≡◌, ◌<◌, ◌≤◌, length, slice_range, bytes_eq, codes, IfOk, IfErr};
ghost use Rattle.std.specs.Str.{IsAscii};
ghost use Rattle.il_syntax.specs.Text.{name_of, upper_case};
ghost use Rattle.il_syntax.specs.Grammar.{TheSign, TheWord, TheLineEnd, ANumber, AWord, AName, TheName};
ghost use Rattle.load_lines.specs.declared.lead.Lead.TheVariants as lead;
ghost use Rattle.load_lines.specs.Lead.{lead_at};
ghost use Rattle.load_lines.specs.Reads.{Reads, Refuses, Stands, Misses, Eats, Comes, NamesFirst, Shortens};
ghost use Rattle.load_lines.specs.declared.stop.Stop.TheVariants.{Memory};

use crate::lead::Lead;
use crate::stop::Stop;
use crate::tokens::Tokens;
use crate::words::{keyword_number, keyword_of, sign_number};
use il_syntax::keyword::Keyword;
use il_syntax::name::Name;
use il_syntax::token::{Kind, Sign, Token};
use il_syntax::tree::Named;
use std::alloc::Global;
use std::marker::Model;

/// A text, the same in upper case, and where what is read of it is kept. Contracts see the bytes of the text.
#[derive(Drop)]
pub struct Source<'t> {
    alloc: Global,
    text: &'t [u8],
    upper: &'t [u8],
}

impl<'t> Model for Source<'t> {
    ghost use Rattle.std.specs.Prelude.{◌≡◌, List, ℕ};
    ghost use Rattle.std.specs.Str.{IsAscii};
    ghost use Rattle.il_syntax.specs.Text.{upper_case};

    ghost Value = { List ℕ };

    ghost view = { λ s. s.text.now };

    ghost invariant = { λ s. IsAscii s.upper.now × (s.upper.now ≡ upper_case s.text.now) };
}

impl<'t> Source<'t> {
    /// A text of ASCII bytes, and the same in upper case.
    pub fn new(alloc: Global, text: &'t [u8], upper: &'t [u8]) -> Source<'t>
        requires ascii { IsAscii upper.now }
        requires upper { upper.now ≡ upper_case text.now }
        ensures { result ≡ text.now }
    {
        Source { alloc, text, upper }
    }

    /// Where what is read is kept.
    pub fn alloc(&self) -> Global {
        self.alloc
    }

    /// The bytes of a token, as far as the text has them.
    pub fn bytes_of(&self, token: &Token) -> &[u8]
        ensures { result.now ≡ slice_range self.now token.now.start token.now.end }
    {
        part(self.text, token)
    }

    /// The word at a token, in upper case.
    pub fn spelling(&self, token: &Token) -> &str
        ensures { result.now ≡ name_of self.now token.now }
    {
        let bytes = part(self.upper, token);
        // These are ASCII, as the invariant keeps.
        unsafe { str::from_utf8_unchecked(bytes) }
    }

    /// Whether the word at a token is the letter N.
    pub fn is_n(&self, token: &Token) -> bool
        ensures { result ≡ bytes_eq (name_of self.now token.now) (codes "N") }
    {
        self.spelling(token) == "N"
    }

    /// What the tokens begin with.
    #[inline(always)]
    #[tactic(auto, unfolding(crate::specs::Lead::lead_at))]
    pub fn lead(&self, tokens: &Tokens) -> Lead
        ensures { result ≡ lead_at self.now tokens.now }
    {
        let Some(token) = tokens.first() else {
            return Lead::Nothing;
        };
        match token.kind {
            Kind::Word => match keyword_of(self.spelling(&token)) {
                Some(keyword) => Lead::Reserved(keyword),
                None => Lead::Name,
            },
            Kind::Number(value) => Lead::Number(value),
            Kind::Typed(literal) => Lead::Typed(literal),
            Kind::Sign(sign) => Lead::Sign(sign),
            Kind::LineEnd => Lead::LineEnd,
        }
    }

    /// Whether this word is at the front. It is taken if it does.
    pub fn eat_word(&self, tokens: &mut Tokens, keyword: Keyword) -> bool
        ensures eaten { Eats (TheWord self.now keyword) tokens.old result tokens.new }
        ensures shorter { length tokens.new ≤ length tokens.old }
    {
        let lead = self.lead(tokens);
        self.take_word(tokens, lead, keyword)
    }

    /// Takes this word where the tokens begin with it, and says whether they do.
    pub fn take_word(&self, tokens: &mut Tokens, lead: Lead, keyword: Keyword) -> bool
        requires { lead ≡ lead_at self.now tokens.old }
        ensures eaten { Eats (TheWord self.now keyword) tokens.old result tokens.new }
        ensures shorter { length tokens.new ≤ length tokens.old }
    {
        let Lead::Reserved(its) = lead else {
            return false;
        };
        if keyword_number(its) != keyword_number(keyword) {
            return false;
        }
        tokens.advance();
        true
    }

    /// The reserved word.
    pub fn word(&self, tokens: &mut Tokens, keyword: Keyword) -> Result<(), Stop>
        ensures reads { IfOk result (λ u. Stands (TheWord self.now keyword) tokens.old tokens.new) }
        ensures refused { IfErr result (λ e. Misses
            (λ text. TheWord text keyword) self.now tokens.old e) }
        ensures first { IfErr result (λ e. NamesFirst tokens.old e) }
        ensures shorter { Shortens tokens.old tokens.new result }
    {
        if self.eat_word(tokens, keyword) {
            Ok(())
        } else {
            Err(tokens.outside())
        }
    }

    /// Whether this sign is at the front. It is taken if it does.
    pub fn eat_sign(&self, tokens: &mut Tokens, sign: Sign) -> bool
        ensures eaten { Eats (TheSign sign) tokens.old result tokens.new }
        ensures shorter { length tokens.new ≤ length tokens.old }
    {
        let Some(token) = tokens.first() else {
            return false;
        };
        let Kind::Sign(its) = token.kind else {
            return false;
        };
        if sign_number(its) != sign_number(sign) {
            return false;
        }
        tokens.advance();
        true
    }

    /// The sign.
    pub fn sign(&self, tokens: &mut Tokens, sign: Sign) -> Result<(), Stop>
        ensures reads { IfOk result (λ u. Stands (TheSign sign) tokens.old tokens.new) }
        ensures refused { IfErr result (λ e. Misses (λ text. TheSign sign) self.now tokens.old e) }
        ensures first { IfErr result (λ e. NamesFirst tokens.old e) }
        ensures shorter { Shortens tokens.old tokens.new result }
    {
        if self.eat_sign(tokens, sign) {
            Ok(())
        } else {
            Err(tokens.outside())
        }
    }

    /// A number.
    #[tactic(auto, unfolding(crate::specs::Lead::lead_at))]
    pub fn number(&self, tokens: &mut Tokens) -> Result<i64, Stop>
        ensures reads { IfOk result (λ v. Reads ANumber tokens.old v tokens.new) }
        ensures refused { IfErr result (λ e. Refuses (λ text. ANumber) self.now tokens.old e) }
        ensures first { IfErr result (λ e. NamesFirst tokens.old e) }
        ensures shorter { Shortens tokens.old tokens.new result }
    {
        let Lead::Number(value) = self.lead(tokens) else {
            return Err(tokens.outside());
        };
        tokens.advance();
        Ok(value)
    }

    /// Whether the sign comes next, after any line ends.
    pub fn sign_comes(&self, tokens: &Tokens, sign: Sign) -> bool
        ensures comes { Comes (TheSign sign) tokens.now result }
    {
        let mut ahead = tokens.ahead();
        ahead.skip_lines();
        self.eat_sign(&mut ahead, sign)
    }

    /// The end of a line.
    #[inline(always)]
    #[tactic(auto, unfolding(crate::specs::Lead::lead_at))]
    pub fn line_end(&self, tokens: &mut Tokens) -> Result<(), Stop>
        ensures reads { IfOk result (λ u. Stands TheLineEnd tokens.old tokens.new) }
        ensures refused { IfErr result (λ e. Misses (λ text. TheLineEnd) self.now tokens.old e) }
        ensures first { IfErr result (λ e. NamesFirst tokens.old e) }
        ensures shorter { Shortens tokens.old tokens.new result }
    {
        let Lead::LineEnd = self.lead(tokens) else {
            return Err(tokens.outside());
        };
        tokens.advance();
        Ok(())
    }

    /// A value that was read, where the line ends after it.
    #[inline(always)]
    pub(crate) fn ended<T: Drop>(&self, tokens: &mut Tokens, value: T) -> Result<T, Stop>
        ensures value { IfOk result (λ v. v ≡ value) }
        ensures stands { IfOk result (λ v. Stands TheLineEnd tokens.old tokens.new) }
        ensures misses { IfErr result (λ e. Misses (λ text. TheLineEnd) self.now tokens.old e) }
        ensures first { IfErr result (λ e. NamesFirst tokens.old e) }
        ensures shorter { Shortens tokens.old tokens.new result }
    {
        self.line_end(tokens)?;
        Ok(value)
    }

    /// A value that was read, where this sign follows it.
    pub(crate) fn closed<T: Drop>(
        &self,
        tokens: &mut Tokens,
        sign: Sign,
        value: T,
    ) -> Result<T, Stop>
        ensures value { IfOk result (λ v. v ≡ value) }
        ensures stands { IfOk result (λ v. Stands (TheSign sign) tokens.old tokens.new) }
        ensures misses { IfErr result (λ e. Misses (λ text. TheSign sign) self.now tokens.old e) }
        ensures first { IfErr result (λ e. NamesFirst tokens.old e) }
        ensures shorter { Shortens tokens.old tokens.new result }
    {
        self.sign(tokens, sign)?;
        Ok(value)
    }

    /// A word, reserved or not.
    #[inline(always)]
    #[tactic(auto, unfolding(crate::specs::Lead::lead_at))]
    pub fn any_word(&self, tokens: &mut Tokens) -> Result<Name, Stop>
        ensures reads { IfOk result (λ n. Reads (AWord self.now) tokens.old n tokens.new) }
        ensures refused { IfErr result (λ e. Refuses AWord self.now tokens.old e) }
        ensures first { IfErr result (λ e. NamesFirst tokens.old e) }
        ensures shorter { Shortens tokens.old tokens.new result }
    {
        let Some(token) = tokens.first() else {
            return Err(tokens.outside());
        };
        let Kind::Word = token.kind else {
            return Err(tokens.outside());
        };
        let name = Name::of(self.alloc, self.spelling(&token))?;
        tokens.advance();
        Ok(name)
    }

    /// A name.
    #[tactic(auto, unfolding(crate::specs::Lead::lead_at))]
    pub fn name(&self, tokens: &mut Tokens) -> Result<Name, Stop>
        ensures reads { IfOk result (λ n. Reads (AName self.now) tokens.old n tokens.new) }
        ensures refused { IfErr result (λ e. Refuses AName self.now tokens.old e) }
        ensures first { IfErr result (λ e. NamesFirst tokens.old e) }
        ensures shorter { Shortens tokens.old tokens.new result }
    {
        let Lead::Name = self.lead(tokens) else {
            return Err(tokens.outside());
        };
        self.standing_name(tokens)
    }

    // A name, where one is.
    #[inline(always)]
    pub(crate) fn standing_name(&self, tokens: &mut Tokens) -> Result<Name, Stop>
        requires { lead_at self.now tokens.old ≡ lead.Name }
        ensures reads { IfOk result (λ n. Reads (AName self.now) tokens.old n tokens.new) }
        ensures refused { IfErr result (λ e. Refuses AName self.now tokens.old e) }
        ensures first { IfErr result (λ e. NamesFirst tokens.old e) }
        ensures shorter { Shortens tokens.old tokens.new result }
    {
        Ok(self.any_word(tokens)?)
    }

    /// A name with its place.
    pub fn named(&self, tokens: &mut Tokens) -> Result<Named, Stop>
        ensures reads { IfOk result (λ n. Reads (TheName self.now) tokens.old n tokens.new) }
        ensures refused { IfErr result (λ e. Refuses TheName self.now tokens.old e) }
        ensures first { IfErr result (λ e. NamesFirst tokens.old e) }
        ensures shorter { Shortens tokens.old tokens.new result }
    {
        let Some(place) = tokens.place() else {
            return Err(tokens.outside());
        };
        let name = self.name(tokens)?;
        Ok(Named { place, name })
    }
}

// The bytes of a token, as far as there are any.
fn part<'t>(bytes: &'t [u8], token: &Token) -> &'t [u8]
    ensures bytes { result.now ≡ slice_range bytes.now token.now.start token.now.end }
    ensures ascii { IsAscii bytes.now → IsAscii result.now }
{
    let end = bytes.len().min(token.end as usize);
    let start = end.min(token.start as usize);
    &bytes[start..end]
}
