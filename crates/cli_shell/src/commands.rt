// What the program does with a text.

ghost use Rattle.std.specs.Prelude.{◌≡◌, ◌≢◌, ℕ, List, Err, IfOk, true, false};
ghost use Rattle.std.specs.Thread.{IsSync};
ghost use Rattle.il_syntax.specs.declared.tree.Place.{Place as PlaceOf};
ghost use Rattle.cli_host.specs.declared.files.Reading.{Reading};
ghost use Rattle.cli_host.specs.declared.request.Request.{Request};
ghost use Rattle.cli_host.specs.declared.status.Fault.TheVariants.{CannotWrite};
ghost use Rattle.cli_shell.specs.Runs.{runs};
ghost use Rattle.cli_shell.specs.declared.commands.OtherFault.{OtherFault as OtherFaultOf};
ghost use Rattle.cli_messages.specs.Outputs.{Outcome};

use cli_host::files::Reading;
use cli_host::request::{Request, Simulating};
use cli_host::status::Fault;
use cli_messages::output::Output;
use il_syntax::tree::Place;
use std::alloc::{AllocError, Global};
use std::sync::Wait;
use std::thread::Threads;

/// A fault of a text beside the one that it is refused for: the first one of another unit.
#[derive(Clone, Copy)]
pub struct OtherFault {
    /// Its number.
    pub number: u16,
    /// Where it is.
    pub place: Place,
}

/// The commands of a program, each over the text of its file; some follow a trace, and simulations may have a file with their presses. Commands read and write nothing
/// themselves.
pub trait Commands {
    // What a request may give of a text, where this was read of its trace or of its file of `--calls`.
    ghost gives: { Self → Request → List ℕ → Reading → Outcome → Type 0 };

    // What may be reported of the refusal of a text with a number at a place.
    ghost reasons: { Self → List ℕ → ℕ → PlaceOf → List ℕ → Type 0 };

    // What may be the first faults of the other units of a text that is refused with a number at a place.
    ghost others: { Self → List ℕ → ℕ → PlaceOf → List OtherFaultOf → Type 0 };

    /// What a request prints that isn't `run`, or why it prints nothing; of a request that names no other file `trace` is empty.
    fn outcome(
        &self,
        alloc: Global,
        request: Request<'_>,
        text: &[u8],
        trace: &Reading,
    ) -> Result<Output, Fault>
        requires { runs request ≡ false }
        ensures gives { gives self.now request.entry text.now trace.now result }
        ensures unwritten { result ≢ Err CannotWrite };

    /// What `run` prints, or why it prints nothing. It starts threads and waits for them by `rt`.
    fn run<R: Threads + Wait + Sync>(
        &self,
        rt: &R,
        alloc: Global,
        request: Request<'_>,
        text: &[u8],
        trace: &Reading,
    ) -> Result<Output, Fault>
        requires sync { IsSync R.row }
        requires run { runs request ≡ true }
        ensures gives { gives self.now request.entry text.now trace.now result }
        ensures unwritten { result ≢ Err CannotWrite };

    /// What is reported of the refusal of a text with a number at a place: lines, or none.
    fn reason(
        &self,
        alloc: Global,
        text: &[u8],
        number: u16,
        place: Place,
    ) -> Result<Vec<u8>, AllocError>
        ensures { IfOk result (λ lines. reasons self.now text.now number place lines.items) };

    /// The first faults of the other units of a text that is refused with a number at a place, in the order of the units.
    fn others(
        &self,
        alloc: Global,
        text: &[u8],
        number: u16,
        place: Place,
    ) -> Result<Vec<OtherFault>, AllocError>
        ensures { IfOk result (λ faults. others self.now text.now number place faults.items) };
}

/// Whether a request is `run`.
pub fn runs(request: Request<'_>) -> bool
    ensures { result ≡ runs request.entry }
{
    matches!(request, Request::Rounds(Simulating::Run, _))
}
