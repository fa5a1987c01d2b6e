// The lines of a path of the greatest cost.

ghost use Rattle.std.specs.Prelude.{◌≡◌, IfOk, map, length, Some};
ghost use Rattle.load_budgets.specs.Rounds.{line_at, followed};

use crate::table::{Rest, rest_up};
use base_lists::Items;
use il_syntax::tree::Body;
use std::alloc::{AllocError, Global};

/// The lines of the path that begins at the first place.
pub fn path(alloc: Global, body: &Body, rests: &[Rest]) -> Result<Items<u32>, AllocError>
    ensures { IfOk result (λ lines. lines
        ≡ map (line_at body.now) (followed (length rests.now) rests.now (Some 0))) }
{
    let mut lines = Items::new(alloc);
    let mut at = Some(0);
    'places: for _passed in 0..rests.len() {
        match at {
            Some(place) => {
                lines.push(line_at(body, place))?;
                at = rest_up(rests, place).next;
            }
            None => return Ok(lines),
        }
    }
    Ok(lines)
}

// The line of a place: after the last instruction that of the END word.
fn line_at(body: &Body, place: usize) -> u32
    ensures { result ≡ line_at body.now place }
{
    match body.steps.as_slice().get(place) {
        Some(step) => step.place.line,
        None => body.end.line,
    }
}
