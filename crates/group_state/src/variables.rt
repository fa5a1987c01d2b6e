// The line of a variable.

ghost use Rattle.std.specs.Prelude.{◌≡◌, ◌↔◌, ℕ, List, IsTrue, Option, Some, MatchOption, IfSome, IfNone, IfOk, IfErr};
ghost use Rattle.trace_text.specs.Reading.{Without};
ghost use Rattle.group_state.specs.Parts.{IsSplit, IsOwner, owner_prefix, path_by};
ghost use Rattle.group_state.specs.Variables.{IsOfVariable, IsAbsent, TakesVariable, RefusesVariable, TakesEnd, RefusesEnd};

use crate::fault::StateFault;
use crate::lines::{behind, next_line};
use crate::values::{is_same, value_of};
use group_spec::MOST_CARS;
use scan_task::{Cell, Value};

/// What comes before a path: nothing for a global, and the name of its task and a point for a variable of a task.
pub fn owner_prefix(owner: Option<u8>) -> &'static str
    requires { IsOwner owner }
    ensures { result.now ≡ owner_prefix owner }
{
    let Some(task) = owner else {
        return "";
    };
    match task {
        0 => "GROUP.",
        1 => "CAR1.",
        2 => "CAR2.",
        3 => "CAR3.",
        4 => "CAR4.",
        5 => "CAR5.",
        6 => "CAR6.",
        7 => "CAR7.",
        _ => "CAR8.",
    }
}

// Whether there is no space in a text.
fn is_one_word(text: &[u8]) -> bool
    ensures { IsTrue result ↔ Without 32 text.now }
{
    'bytes: for byte in text {
        if *byte == b' ' {
            return false;
        }
    }
    true
}

// The word after the path, where the line is one of this variable.
#[tactic(auto, unfolding(crate::specs::Text::variable_line))]
fn word_of<'a>(owner: Option<u8>, path: &str, line: &'a [u8]) -> Option<&'a [u8]>
    requires { IsOwner owner }
    ensures found { IfSome result
        (λ word. IsOfVariable (path_by owner path.now) line.now word.now) }
    ensures none { IfNone result ((word : List ℕ)
        → IsOfVariable (path_by owner path.now) line.now word → ⊥) }
{
    let text = behind(b"VAR ", line)?;
    let text = behind(owner_prefix(owner).as_bytes(), text)?;
    let text = behind(path.as_bytes(), text)?;
    let word = behind(b" ", text)?;
    if !is_one_word(word) {
        return None;
    }
    Some(word)
}

/// The value that the next line gives a variable, which isn't its initial one, and what follows the line; none where
/// the next line is none of the variable. The next line is passed with what follows it, if there is one.
pub fn take_variable<'a>(
    owner: Option<u8>,
    cell: &Cell,
    initial: Value,
    text: &'a [u8],
    next: Option<(&'a [u8], &'a [u8])>,
) -> Result<Option<(Value, &'a [u8])>, StateFault>
    requires owner { IsOwner owner }
    requires split { IsSplit text.now next }
    ensures found { IfOk result (λ o. MatchOption o
        (IsAbsent (path_by owner cell.now.path) text.now)
        (λ p. TakesVariable (path_by owner cell.now.path) cell.now.scalar (Some initial) text.now
        p.0 p.1.now)) }
    ensures wrong { IfErr result (λ fault. RefusesVariable (path_by owner cell.now.path)
        cell.now.scalar (Some initial) text.now fault) }
{
    let Some((line, rest)) = next else {
        return Ok(None);
    };
    let Some(word) = word_of(owner, cell.path.as_str(), line) else {
        return Ok(None);
    };
    let Some(value) = value_of(cell.scalar, word) else {
        return Err(StateFault::OutsideRange);
    };
    if is_same(initial, value) {
        return Err(StateFault::NoVariable);
    }
    Ok(Some((value, rest)))
}

/// What follows the last line of a state, with which a text begins.
pub fn take_end(text: &[u8]) -> Result<&[u8], StateFault>
    ensures found { IfOk result (λ rest. TakesEnd text.now rest.now) }
    ensures wrong { IfErr result (λ fault. RefusesEnd text.now fault) }
{
    let (line, rest) = next_line(text)?;
    if line == b"EVENTS".as_slice() {
        return Ok(rest);
    }
    match behind(b"VAR ", line) {
        Some(_) => Err(StateFault::NoVariable),
        None => Err(StateFault::BadLine),
    }
}
