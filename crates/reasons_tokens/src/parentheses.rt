// The parenthesis that is open at a token.

ghost use Rattle.std.specs.Prelude.{◌≡◌, ◌++◌, ◌-◌, length, slice_get, take, IfOk, OnOk};
ghost use Rattle.reasons_tokens.specs.Parentheses.{open_at, open_after, last_of, open_line, open_by, open_lines};

use il_syntax::token::{Kind, Sign, Token};
use il_syntax::tree::Place;
use std::alloc::{AllocError, Global};

/// The innermost parenthesis that is open before the token at a place.
pub(crate) fn open_at(
    alloc: Global,
    tokens: &[Token],
    offset: u32,
) -> Result<Option<Token>, AllocError>
    ensures { IfOk result (λ found. found ≡ open_at offset tokens.now) }
{
    let mut stack = Vec::new(alloc);
    'tokens: for token in tokens {
        if offset <= token.start {
            return Ok(last_of(&stack));
        }
        follow(&mut stack, token)?;
    }
    Ok(last_of(&stack))
}

// The parentheses that are open after a token.
fn follow(stack: &mut Vec<Token>, token: &Token) -> Result<(), AllocError>
    ensures { OnOk result (stack.new.items ≡ open_after stack.old.items token.now) }
{
    match token.kind {
        Kind::Sign(Sign::OpenParenthesis) => {
            stack.push(*token)?;
            Ok(())
        }
        Kind::Sign(Sign::CloseParenthesis) => {
            stack.truncate(stack.len().saturating_sub(1));
            Ok(())
        }
        _ => Ok(()),
    }
}

fn last_of(stack: &[Token]) -> Option<Token>
    ensures { result ≡ last_of stack.now }
{
    stack.get(stack.len().saturating_sub(1)).copied()
}

/// Of a parenthesis that is open at a place, and began in an earlier line.
pub(crate) fn put_open(
    alloc: Global,
    lines: &mut Vec<u8>,
    tokens: &[Token],
    place: Place,
) -> Result<(), AllocError>
    ensures { OnOk result (lines.new.items ≡ lines.old.items ++ open_lines tokens.now place) }
{
    let found = open_at(alloc, tokens, place.offset)?;
    put_open_by(alloc, lines, place.line, found)
}

fn put_open_by(
    alloc: Global,
    lines: &mut Vec<u8>,
    line: u32,
    found: Option<Token>,
) -> Result<(), AllocError>
    ensures { OnOk result (lines.new.items ≡ lines.old.items ++ open_by line found) }
{
    let Some(token) = found else {
        return Ok(());
    };
    if token.line < line {
        put_open_line(alloc, lines, token.line)
    } else {
        Ok(())
    }
}

#[tactic(auto, unfolding(crate::specs::Parentheses::open_line))]
fn put_open_line(alloc: Global, lines: &mut Vec<u8>, line: u32) -> Result<(), AllocError>
    ensures { OnOk result (lines.new.items ≡ lines.old.items ++ open_line line) }
{
    let text = format!(in alloc; "the parenthesis of line {} is open\n", line)?;
    lines.extend_from_slice(text.as_bytes())
}
