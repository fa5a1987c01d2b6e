// What is reported of a refused text below its refusal.

ghost use Rattle.std.specs.Prelude.{◌≡◌, ◌++◌, ◌||◌, ℕ, List, IfOk, OnOk};
ghost use Rattle.cli_host.specs.Requests.{name_of};
ghost use Rattle.cli_shell.specs.Also.{also_line, AreAlsoTold};
ghost use Rattle.cli_shell.specs.Runs.{asks_all, asks_json, explains_text, AreOthersTold, IsRefusedBelow, IsTextBelow, IsTextTold};

use crate::commands::{Commands, OtherFault};
use cli_host::request::Request;
use cli_messages::place::text_below;
use il_syntax::tree::Place;
use itoa::Buffer;
use show_refusal::refusal::refusal_line;
use std::alloc::{AllocError, Global};

/// What is below a refusal of FILE: what is reported of it, where faults are explained, and then the first faults of the other units, where those
/// are asked for.
pub fn refused_below<C: Commands>(
    alloc: Global,
    request: Request<'_>,
    text: &[u8],
    commands: &C,
    number: u16,
    place: Place,
    explained: bool,
) -> Result<Vec<u8>, AllocError>
    ensures { IfOk result (λ below. IsRefusedBelow (C.reasons commands.now) (C.others commands.now)
        explained request.entry text.now number place below.items) }
{
    let mut below = text_told(alloc, request, text, commands, number, place, explained)?;
    let also = others_told(alloc, request, text, commands, number, place, explained)?;
    below.extend_from_slice(&also)?;
    Ok(below)
}

// What is reported of a fault of FILE, where faults are explained.
fn text_told<C: Commands>(
    alloc: Global,
    request: Request<'_>,
    text: &[u8],
    commands: &C,
    number: u16,
    place: Place,
    explained: bool,
) -> Result<Vec<u8>, AllocError>
    ensures { IfOk result (λ told. IsTextTold (C.reasons commands.now) explained request.entry
        text.now number place told.items) }
{
    if explained {
        reasoned_below(alloc, request, text, commands, number, place)
    } else {
        Ok(Vec::new(alloc))
    }
}

// The place of a refusal of FILE in what was read, what its number means, and what is reported of it.
fn reasoned_below<C: Commands>(
    alloc: Global,
    request: Request<'_>,
    text: &[u8],
    commands: &C,
    number: u16,
    place: Place,
) -> Result<Vec<u8>, AllocError>
    ensures { IfOk result (λ below. (reason : List ℕ)
        × C.reasons commands.now text.now number place reason
        × IsTextBelow (asks_json request.entry) (name_of request.entry) text.now number place
        reason below.items) }
{
    let reason = commands.reason(alloc, text, number, place)?;
    if asks_json(request) {
        refusal_line(alloc, request.file(), text, number, place, &reason)
    } else {
        text_below(alloc, request.file(), text, number, place, &reason)
    }
}

// The first faults of the other units, where those are asked for.
fn others_told<C: Commands>(
    alloc: Global,
    request: Request<'_>,
    text: &[u8],
    commands: &C,
    number: u16,
    place: Place,
    explained: bool,
) -> Result<Vec<u8>, AllocError>
    ensures { IfOk result (λ told. AreOthersTold (C.others commands.now)
        (IsTextTold (C.reasons commands.now) explained request.entry text.now)
        (asks_all request.entry) text.now number place told.items) }
{
    if !asks_all(request) {
        return Ok(Vec::new(alloc));
    }
    let faults = commands.others(alloc, text, number, place)?;
    faults_told(alloc, request, text, commands, &faults, explained)
}

// Faults of other units, each with what is reported of it.
fn faults_told<C: Commands>(
    alloc: Global,
    request: Request<'_>,
    text: &[u8],
    commands: &C,
    faults: &[OtherFault],
    explained: bool,
) -> Result<Vec<u8>, AllocError>
    ensures { IfOk result (λ told. AreAlsoTold
        (IsTextTold (C.reasons commands.now) explained request.entry text.now) faults.now
        told.items) }
{
    let mut told = Vec::new(alloc);
    'faults: for fault in faults {
        put_fault(alloc, request, text, commands, fault, explained, &mut told)?;
    }
    Ok(told)
}

// Adds a fault of another unit, with what is reported of it.
fn put_fault<C: Commands>(
    alloc: Global,
    request: Request<'_>,
    text: &[u8],
    commands: &C,
    fault: &OtherFault,
    explained: bool,
    told: &mut Vec<u8>,
) -> Result<(), AllocError>
    ensures { OnOk result ((own : List ℕ) × IsTextTold (C.reasons commands.now) explained
        request.entry text.now fault.now.number fault.now.place own
        × (told.new.items ≡ told.old.items ++ (also_line fault.now ++ own))) }
{
    put_also(told, *fault)?;
    let own = text_told(
        alloc,
        request,
        text,
        commands,
        fault.number,
        fault.place,
        explained,
    )?;
    told.extend_from_slice(&own)?;
    Ok(())
}

// Adds the line of a fault of another unit.
fn put_also(told: &mut Vec<u8>, fault: OtherFault) -> Result<(), AllocError>
    ensures { OnOk result (told.new.items ≡ told.old.items ++ also_line fault) }
{
    let mut numbers = Buffer::new();
    let mut lines = Buffer::new();
    told.extend_from_slice(b"also ")?;
    told.extend_from_slice(numbers.format(fault.number).as_bytes())?;
    told.extend_from_slice(b" at line ")?;
    told.extend_from_slice(lines.format(fault.place.line).as_bytes())?;
    told.extend_from_slice(b"\n")
}

/// Whether faults of FILE are explained: where faults are to be, and with `--json`.
pub fn explains_text(wanted: bool, request: Request<'_>) -> bool
    ensures { result ≡ explains_text wanted request.entry }
{
    wanted || asks_json(request)
}

/// Whether a request asks for JSON.
pub fn asks_json(request: Request<'_>) -> bool
    ensures { result ≡ asks_json request.entry }
{
    match request {
        Request::Check(checked) => checked.json,
        Request::Show(_, shown) => shown.json,
        Request::Rounds(_, rounds) => rounds.json,
        Request::Trace(_, traced) => traced.json,
    }
}

/// Whether a request asks for the first fault of each unit.
pub fn asks_all(request: Request<'_>) -> bool
    ensures { result ≡ asks_all request.entry }
{
    match request {
        Request::Check(checked) => checked.all,
        _ => false,
    }
}
