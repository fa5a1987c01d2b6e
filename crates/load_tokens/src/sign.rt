// Signs (IEC 61131-3:2003, 2.1.1).

ghost use Rattle.std.specs.Prelude.{◌≡◌, [], ◌∷◌, length, IfSome, IfNone};
ghost use Rattle.il_syntax.specs.declared.token.Sign.{Sign};
ghost use Rattle.il_syntax.specs.Text.{sign_bytes};
ghost use Rattle.load_tokens.specs.Pieces.{StandsAt};

use il_syntax::token::Sign;

// The sign of one byte.
fn short_sign(byte: u8) -> Option<Sign>
    ensures found { IfSome result (λ s. sign_bytes s ≡ byte ∷ []) }
    ensures none { IfNone result ((s : Sign) → sign_bytes s ≡ byte ∷ [] → ⊥) }
{
    match byte {
        b':' => Some(Sign::Colon),
        b';' => Some(Sign::Semicolon),
        b',' => Some(Sign::Comma),
        b'(' => Some(Sign::OpenParenthesis),
        b')' => Some(Sign::CloseParenthesis),
        b'[' => Some(Sign::OpenBracket),
        b']' => Some(Sign::CloseBracket),
        b'.' => Some(Sign::Dot),
        b'&' => Some(Sign::Ampersand),
        _ => None,
    }
}

/// The sign that these two bytes begin with, and its length.
pub(crate) fn sign_of(first: u8, second: u8) -> Option<(Sign, usize)>
    ensures found { IfSome result (λ r. StandsAt first second r.0) }
    ensures size { IfSome result (λ r. r.1 ≡ length (sign_bytes r.0)) }
    ensures none { IfNone result ((s : Sign) → StandsAt first second s → ⊥) }
{
    match (first, second) {
        (b':', b'=') => Some((Sign::Assign, 2)),
        (b'=', b'>') => Some((Sign::Arrow, 2)),
        (b'.', b'.') => Some((Sign::Range, 2)),
        (b'(', b'*') => None,
        _ => {
            let sign = short_sign(first)?;
            Some((sign, 1))
        }
    }
}
