// What is kept of a scan before a step.

ghost use Rattle.std.specs.Prelude.{◌≡◌, IfOk, option_map};
ghost use Rattle.show_scan.specs.Stands.{of_stand};
ghost use Rattle.show_scan.specs.Lines.{place_at, seen_of, of_before};

use crate::view::{Stand, View};
use il_semantics::value::Content;
use il_syntax::tree::Place;
use std::alloc::{AllocError, Global};

/// What is kept of a scan before a step.
#[derive(Drop)]
pub struct Before {
    /// The body that runs.
    pub stand: Stand,
    /// The one that called it.
    pub caller: Option<Stand>,
    /// How many run or have called.
    pub depth: usize,
    /// The current result.
    pub result: Option<Content>,
    /// Where the step is in the text.
    pub place: Place,
}

/// What is kept of a scan before its next step, if it has one.
pub fn next_step(alloc: Global, view: &View<'_>) -> Result<Option<Before>, AllocError>
    ensures { IfOk result (λ o. option_map of_before o ≡ seen_of view.now.config view.now.state) }
{
    let Some(stand) = view.stand(alloc, 0)? else {
        return Ok(None);
    };
    let Some(place) = place_at(view, &stand) else {
        return Ok(None);
    };
    Ok(Some(Before {
        stand,
        caller: view.stand(alloc, 1)?,
        depth: view.depth(),
        result: view.result(),
        place,
    }))
}

// Where a body is in the text; at the implicit RET, that of the END word.
fn place_at(view: &View<'_>, stand: &Stand) -> Option<Place>
    ensures { result ≡ place_at view.now.config (of_stand stand.now) }
{
    let unit = view.unit(stand.unit.as_str())?;
    match unit.body.steps.as_slice().get(stand.place) {
        Some(step) => Some(step.place),
        None => Some(unit.body.end),
    }
}
