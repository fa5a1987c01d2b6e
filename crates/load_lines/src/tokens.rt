// The tokens that are left.

ghost use Rattle.std.specs.Prelude.{◌≡◌, ◌<◌, ◌≤◌, ◌∷◌, List, [], length, drop, MatchOption};
ghost use Rattle.il_syntax.specs.declared.token.Token.{Token};
ghost use Rattle.il_syntax.specs.Grammar.{skip_line_ends};
ghost use Rattle.load_lines.specs.declared.stop.SyntaxError.TheVariants.{Unexpected};
ghost use Rattle.load_lines.specs.Reads.{IsPlaceOf, fault_at, gap_of};

use crate::stop::{Stop, SyntaxError};
use il_syntax::token::{Kind, Token};
use il_syntax::tree::Place;
use std::marker::Model;

/// What may be between two symbols: nothing, or any number of line ends.
#[derive(Clone, Copy)]
pub enum Gap {
    Tight,
    Loose,
}

/// A cursor over tokens. Contracts see the list of the tokens left.
#[derive(Drop)]
pub struct Tokens<'a> {
    left: &'a [Token],
}

impl<'a> Model for Tokens<'a> {
    ghost use Rattle.std.specs.Prelude.{List};
    ghost use Rattle.il_syntax.specs.declared.token.Token.{Token};

    ghost Value = { List Token };

    ghost view = { λ t. t.left.now };
}

impl<'a> Tokens<'a> {
    /// A cursor at the front.
    pub fn new(left: &'a [Token]) -> Tokens<'a>
        ensures { result ≡ left.now }
    {
        Tokens { left }
    }

    /// The first token that is left.
    pub fn first(&self) -> Option<Token>
        ensures { MatchOption result (self.now ≡ [])
            (λ t. (rest : List Token) × (self.now ≡ t ∷ rest)) }
    {
        match self.left.split_first() {
            Some((token, _)) => Some(*token),
            None => None,
        }
    }

    /// A cursor at the same token.
    pub fn ahead(&self) -> Tokens<'a>
        ensures { result ≡ self.now }
    {
        Tokens { left: self.left }
    }

    /// The place of the first token.
    pub fn place(&self) -> Option<Place>
        ensures { MatchOption result (self.now ≡ []) (λ p. IsPlaceOf p self.now) }
    {
        match self.left.split_first() {
            Some((token, _)) => Some(Place {
                offset: token.start,
                line: token.line,
            }),
            None => None,
        }
    }

    /// Goes after the first token.
    pub fn advance(&mut self)
        ensures rest { self.new ≡ drop 1 self.old }
        ensures shorter { length self.new ≤ length self.old }
    {
        if let Some((_, rest)) = self.left.split_first() {
            self.left = rest;
        }
    }

    /// Goes after the line ends at the front.
    pub fn skip_lines(&mut self)
        ensures rest { self.new ≡ skip_line_ends self.old }
        ensures shorter { length self.new ≤ length self.old }
    {
        self.left = skip_lines(self.left);
    }

    /// Goes after what may be between two symbols.
    pub fn pass(&mut self, gap: Gap)
        ensures rest { self.new ≡ gap_of gap self.old }
        ensures shorter { length self.new ≤ length self.old }
    {
        if let Gap::Loose = gap {
            self.skip_lines();
        }
    }

    /// The syntax error at the first token.
    #[tactic(auto, unfolding(crate::specs::Reads::fault_at))]
    pub fn fault(&self, error: SyntaxError) -> Stop
        ensures { result ≡ fault_at error self.now }
    {
        match self.left.split_first() {
            Some((token, _)) => Stop::Fault {
                error,
                place: Some(Place {
                    offset: token.start,
                    line: token.line,
                }),
            },
            None => Stop::Fault { error, place: None },
        }
    }

    /// The fault that no text goes on with the first token.
    pub fn outside(&self) -> Stop
        ensures { result ≡ fault_at Unexpected self.now }
    {
        self.fault(SyntaxError::Unexpected)
    }
}

// The tokens after the line ends at the front.
fn skip_lines(tokens: &[Token]) -> &[Token]
    ensures rest { result.now ≡ skip_line_ends tokens.now }
    ensures shorter { length result.now ≤ length tokens.now }
{
    let mut rest = tokens;
    'lines: while let Some((token, after)) = rest.split_first() {
        let Kind::LineEnd = token.kind else {
            return rest;
        };
        rest = after;
    }
    rest
}
