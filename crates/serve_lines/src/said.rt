// What a line that comes in says.

ghost use Rattle.std.specs.Prelude.{◌≡◌, ◌↔◌, ◌∷◌, ℕ, List, IsTrue, IfOk, IfErr, IfSome, IfNone, codes};
ghost use Rattle.group_spec.specs.Image.{sizes_of};
ghost use Rattle.serve_lines.specs.Saying.{IsSpelled, IsTaken, said_line, Says, SaysNothing, is_call, AsksFor};
ghost use Rattle.serve_lines.specs.declared.said.Said.{Said as SaidOf};

use group_spec::calls::Call;
use group_spec::trace::TraceEvent;
use group_spec::{Fields, Sizes, in_range, is_floor};
use group_world::World;
use trace_text::event::event;
use trace_text::format::Format;

/// What a line says: a round under these fields, a press, or the end.
#[derive(Drop)]
pub enum Said {
    Round(Fields),
    Press(Call),
    End,
}

/// Why a line says nothing to the group.
#[derive(Clone, Copy, Debug)]
pub enum WrongLine {
    /// It is none of the three.
    NoLine,
    /// The fields of its round are out of range.
    OutOfRange,
}

/// Whether a press is of two floors of the group; another is refused.
pub(crate) fn is_call(call: Call, sizes: Sizes) -> bool
    ensures { result ≡ is_call sizes call }
{
    is_floor(call.from, sizes) && is_floor(call.to, sizes) && call.from != call.to
}

// Whether the fields of a round lie in their ranges.
fn is_taken(world: &World, said: &Said) -> bool
    ensures { IsTrue result ↔ IsTaken world.now.program.config said.now }
{
    match said {
        Said::Round(fields) => in_range(fields, world.sizes()),
        Said::Press(_) | Said::End => true,
    }
}

/// What a line, without its line feed, says to the group.
pub fn read_said(world: &World, line: &[u8]) -> Result<Said, WrongLine>
    ensures found { IfOk result (λ said. Says world.now.program.config line.now said) }
    ensures wrong { IfErr result (λ why. SaysNothing world.now.program.config line.now why) }
{
    let Some(said) = spelled(world, line) else {
        return Err(WrongLine::NoLine);
    };
    if !is_taken(world, &said) {
        return Err(WrongLine::OutOfRange);
    }
    Ok(said)
}

// What follows a byte, which is the first.
fn behind(text: &[u8], byte: u8) -> Option<&[u8]>
    ensures found { IfSome result (λ rest. text.now ≡ byte ∷ rest.now) }
    ensures none { IfNone result ((rest : List ℕ) → text.now ≡ byte ∷ rest → ⊥) }
{
    match text.split_first() {
        Some((first, rest)) if *first == byte => Some(rest),
        _ => None,
    }
}

/// The name of the trace that a line asks for: `K NAME`.
pub fn asked_name(line: &[u8]) -> Option<&str>
    ensures found { IfSome result (λ name. AsksFor line.now name.now) }
    ensures none { IfNone result ((name : List ℕ) → AsksFor line.now name → ⊥) }
{
    let name = behind(behind(line, b'K')?, b' ')?;
    if name.is_empty() {
        return None;
    }
    str::from_utf8(name).ok()
}

fn is_end(line: &[u8]) -> bool
    ensures { IsTrue result ↔ (line.now ≡ codes "E") }
{
    line == b"E".as_slice()
}

// What a line spells, whether or not its fields are in range.
fn spelled(world: &World, line: &[u8]) -> Option<Said>
    ensures found { IfSome result (λ said. IsSpelled world.now.program.config said
        × (line.now ≡ said_line said)) }
    ensures none { IfNone result ((said : SaidOf) → IsSpelled world.now.program.config said
        → line.now ≡ said_line said → ⊥) }
{
    if is_end(line) {
        return Some(Said::End);
    }
    match event(Format::Two, world.sizes().cars, line)? {
        TraceEvent::Refresh(fields) => Some(Said::Round(fields)),
        TraceEvent::Press(call) => Some(Said::Press(call)),
        _ => None,
    }
}
