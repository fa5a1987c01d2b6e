// What the tokens that are left begin with.

use il_syntax::keyword::Keyword;
use il_syntax::token::Sign;
use il_syntax::tree::Literal;

/// What tokens begin with, for a word also which reserved word it is.
#[derive(Clone, Copy)]
pub enum Lead {
    Nothing,
    Reserved(Keyword),
    Name,
    Number(i64),
    Typed(Literal),
    Sign(Sign),
    LineEnd,
}
