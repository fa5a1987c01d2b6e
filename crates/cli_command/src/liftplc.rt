// What the commands of `liftplc` do with a text.

ghost use Rattle.std.specs.Prelude.{◌≡◌, ◌≢◌, ℕ, List, Some, Ok, Err, true, false};
ghost use Rattle.reasons_faults.specs.Reasons.{IsReason};
ghost use Rattle.cli_command.specs.Loaded.{IsLoaded};
ghost use Rattle.cli_command.specs.Others.{AreOthers};
ghost use Rattle.cli_command.specs.Runs.{IsKnown, IsRefusedOutcome, IsTextOutcome};
ghost use Rattle.cli_output.specs.Outcomes.{AreWarned, IsProgramOutcome};
ghost use Rattle.cli_shell.specs.Runs.{runs};

use crate::others::others;
use base_json::form::Form;
use cli_host::files::Reading;
use cli_host::request::{Request, Showing, Shown, Simulating};
use cli_host::status::Fault;
use cli_messages::output::Output;
use cli_output::outcome::{outcome, ran};
use cli_shell::commands::{Commands, OtherFault};
use il_syntax::fault::Refusal;
use il_syntax::tree::Place;
use load_text::{load, unbroken};
use reasons_faults::reason;
use scan_task::Verified;
use show_names::ranges_in;
use std::alloc::{AllocError, Global};
use std::sync::Wait;
use std::thread::Threads;

/// The commands of `liftplc`, over its verifier.
#[derive(Clone, Copy)]
pub struct Liftplc;

impl Commands for Liftplc {
    ghost gives = { λ _. IsTextOutcome };

    ghost reasons = { λ _. IsReason };

    ghost others = { λ _. AreOthers };

    fn outcome(
        &self,
        alloc: Global,
        request: Request<'_>,
        text: &[u8],
        trace: &Reading,
    ) -> Result<Output, Fault> {
        text_outcome(alloc, request, text, trace)
    }

    fn run<R: Threads + Wait + Sync>(
        &self,
        rt: &R,
        alloc: Global,
        request: Request<'_>,
        text: &[u8],
        trace: &Reading,
    ) -> Result<Output, Fault> {
        match loaded(alloc, text) {
            Ok(verified) => run_verified(rt, alloc, request, verified, trace),
            Err(refusal) => refused(alloc, request, text, refusal),
        }
    }

    fn reason(
        &self,
        alloc: Global,
        text: &[u8],
        number: u16,
        place: Place,
    ) -> Result<Vec<u8>, AllocError> {
        reason(alloc, text, number, place)
    }

    fn others(
        &self,
        alloc: Global,
        text: &[u8],
        number: u16,
        place: Place,
    ) -> Result<Vec<OtherFault>, AllocError> {
        others(alloc, text, number, place)
    }
}

// What a request that isn't `run` gives of a text.
fn text_outcome(
    alloc: Global,
    request: Request<'_>,
    text: &[u8],
    trace: &Reading,
) -> Result<Output, Fault>
    requires { runs request ≡ false }
    ensures gives { IsTextOutcome request.entry text.now trace.now result }
    ensures unwritten { result ≢ Err Fault.CannotWrite }
{
    match loaded(alloc, text) {
        Ok(verified) => outcome(alloc, request, verified, text, trace),
        Err(refusal) => refused(alloc, request, text, refusal),
    }
}

// What `run` gives of a verified configuration, with what was read of its file after `--calls`.
fn run_verified<R: Threads + Wait + Sync>(
    rt: &R,
    alloc: Global,
    request: Request<'_>,
    verified: Verified,
    calls: &Reading,
) -> Result<Output, Fault>
    requires { runs request ≡ true }
    ensures is { (source : List ℕ)
        → IsProgramOutcome request.entry verified source calls.now result }
    ensures warned { AreWarned request.entry verified result }
    ensures unwritten { result ≢ Err Fault.CannotWrite }
{
    match request {
        Request::Rounds(Simulating::Run, asked) => ran(rt, alloc, verified, asked, calls),
        _ => unreachable!(),
    }
}

// What a request gives of a refused text.
fn refused(
    alloc: Global,
    request: Request<'_>,
    text: &[u8],
    refusal: Refusal,
) -> Result<Output, Fault>
    ensures is { IsRefusedOutcome request.entry text.now refusal result }
    ensures unwritten { result ≢ Err Fault.CannotWrite }
{
    match request {
        Request::Show(Showing::Ranges, asked) => known(alloc, asked, text, refusal),
        Request::Show(Showing::Xref, _)
        | Request::Check(_)
        | Request::Rounds(_, _)
        | Request::Trace(_, _) => Err(refusal.into()),
    }
}

// The ranges of a refused text, where no rule of its declarations, types and order is broken.
fn known(alloc: Global, asked: Shown<'_>, text: &[u8], refusal: Refusal) -> Result<Output, Fault>
    ensures is { IsKnown asked.entry text.now refusal result }
    ensures unwritten { result ≢ Err Fault.CannotWrite }
{
    match unbroken(alloc, text) {
        Ok(ordered) => {
            let form = Form::of(asked.json);
            let names = ordered.names();
            Ok(Output::Text(ranges_in(alloc, names, form, asked.text, text)?))
        }
        Err(Refusal::Memory) => Err(Fault::NoMemory),
        Err(Refusal::Fault { .. }) => Err(refusal.into()),
    }
}

/// The configuration that a text spells, verified.
pub(crate) fn loaded(alloc: Global, text: &[u8]) -> Result<Verified, Refusal>
    ensures { IsLoaded text.now result }
{
    load(alloc, text)
}
