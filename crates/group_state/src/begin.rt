// How a trace begins, in any format, and what is in it.

ghost use Rattle.std.specs.Prelude.{◌≡◌, ◌≢◌, ◌≤◌, ◌<◌, ◌+◌, ◌-◌, ◌^◌, ℕ, List, length, option_map, Option, IfOk, IfErr, IfSome, IfNone};
ghost use Rattle.cli_host.specs.declared.status.Fault.TheVariants.{NoMemory};
ghost use Rattle.cli_host.specs.Messages.{line_fault_number};
ghost use Rattle.group_laws.specs.Runs.{Begins};
ghost use Rattle.group_spec.specs.Image.{sizes_of};
ghost use Rattle.group_spec.specs.World.{opening};
ghost use Rattle.trace_text.specs.Reading.{ReadsFront, greatest_trace};
ghost use Rattle.group_world.specs.Setting.{IsSeated, resting};
ghost use Rattle.group_state.specs.Beginnings.{events_text, line_behind, HasNoState, BeginsTrace, IsUnbegun};
ghost use Rattle.group_state.specs.Following.{IsStateOf, IsEventless, fault_line, fault_behind, error_line, error_fault};

use crate::fault::StateError;
use crate::lines::behind;
use crate::read::{Begun, read_state};
use cli_host::status::{Fault, LineFault};
use group_world::{Core, Refusal, Verified, World};
use sha2::{Digest, Sha256};
use std::alloc::Global;
use trace_text::fault::TraceFault;
use trace_text::format::Format;
use trace_text::read::{Front, GREATEST_TRACE, read_events, read_front};
use trace_text::trace::Trace;

/// How a trace begins and what is in it.
pub struct Beginning<'t> {
    /// The world from which the events lead: the opening, or in format 3 that of the state.
    pub world: World,
    pub events: Trace<'t>,
    /// How many lines come before the first event: 1, or those of the state and the first line.
    pub lines: u32,
    /// In which line the text is cut off, if it isn't whole.
    pub cut: Option<u32>,
}

// The state in a text of format 3, and what follows it; none where the text is of another format, too long, or nothing but its first line.
fn state_of(text: &[u8]) -> Option<&[u8]>
    ensures found { IfSome result (λ state. IsStateOf text.now state.now) }
    ensures none { IfNone result (HasNoState text.now) }
{
    if text.len() > GREATEST_TRACE {
        return None;
    }
    let Some(state) = behind(b"LIFTTRACE 3\n", text) else {
        return None;
    };
    if state.is_empty() {
        return None;
    }
    Some(state)
}

// A line of a file that is refused.
fn refused(why: LineFault, line: u32) -> Fault
    ensures { result ≡ Fault.Refused (line_fault_number why) line }
{
    Fault::Refused {
        number: why.number(),
        line,
    }
}

// What is wrong with a trace, where so many lines come before its text.
fn fault_of(fault: TraceFault, before: u32) -> Fault
    requires read { fault ≢ TraceFault.Write }
    requires room { fault_line fault + before < 2 ^ 32 }
    ensures { result ≡ fault_behind before fault }
{
    match fault {
        TraceFault::BadLine { line } => refused(LineFault::BadLine, line + before),
        TraceFault::Truncated { line } => refused(LineFault::Truncated, line + before),
        TraceFault::Write => unreachable!(),
        TraceFault::Memory => Fault::NoMemory,
    }
}

// What is wrong with a state.
fn fault_of_state(error: StateError) -> Fault
    requires { error_line error < 2 ^ 32 }
    ensures { result ≡ error_fault error }
{
    match error {
        StateError::Unread(wrong) => Fault::Refused {
            number: u16::from(wrong.fault.number()),
            line: wrong.line as u32,
        },
        StateError::Memory => Fault::NoMemory,
    }
}

// A trace of events after the opening.
fn opened<'t>(alloc: Global, verified: Verified, front: Front<'t>) -> Result<Beginning<'t>, Fault>
    ensures world { IfOk result (λ b. b.world.world ≡ opening verified.config) }
    ensures same { IfOk result (λ b. b.world.program ≡ verified) }
    ensures events { IfOk result (λ b. b.events ≡ front.entry.events) }
    ensures lines { IfOk result (λ b. b.lines ≡ 1) }
    ensures cut { IfOk result (λ b. b.cut ≡ front.entry.cut) }
    ensures memory { IfErr result (λ fault. fault ≡ NoMemory) }
{
    let Front { events, cut } = front;
    let world = World::new(alloc, verified)?;
    Ok(Beginning {
        world,
        events,
        lines: 1,
        cut,
    })
}

// A trace of format 1 or 2, from the opening.
fn open<'t>(alloc: Global, verified: Verified, text: &'t [u8]) -> Result<Beginning<'t>, Fault>
    requires { HasNoState text.now }
    ensures begins { (source : List ℕ) → IfOk result (λ b. BeginsTrace verified.config source
        text.now b.world.world b.events b.lines b.cut) }
    ensures same { IfOk result (λ b. b.world.program ≡ verified) }
    ensures few { IfOk result (λ b. b.lines + length b.events ≤ greatest_trace) }
    ensures rests { IfOk result (λ b. Begins verified.config b.world.world) }
    ensures fault { (source : List ℕ)
        → IfErr result (IsUnbegun verified.config source text.now) }
{
    match read_front(text, verified.sizes().cars) {
        Ok(front) => opened(alloc, verified, front),
        Err(fault) => {
            verified.release();
            Err(fault_of(fault, 0))
        }
    }
}

// The world of a group that was read.
fn resumed(alloc: Global, verified: Verified, core: Core) -> Result<World, Refusal>
    requires program { core.config ≡ verified.config }
    requires seated { IsSeated core.config core.group }
    ensures world { IfOk result (λ w. w.world ≡ resting verified.config core.group) }
    ensures same { IfOk result (λ w. w.program ≡ verified) }
    ensures rests { IfOk result (λ w. Begins verified.config w.world) }
    ensures memory { IfErr result (λ e. e ≡ Refusal.Memory) }
{
    let _config = verified.config();
    let world = World::resume(alloc, verified, core)?;
    let _image = world.image();
    Ok(world)
}

// In which line a trace is cut off, where so many lines come before its text.
fn moved(cut: Option<u32>, lines: u32) -> Option<u32>
    requires lines { 1 ≤ lines }
    requires room { IfSome cut (λ line. line_behind lines line < 2 ^ 32) }
    ensures { result ≡ option_map (line_behind lines) cut }
{
    match cut {
        Some(line) => Some(line + (lines - 1)),
        None => None,
    }
}

// A trace of events after a state.
fn follow<'t>(alloc: Global, verified: Verified, begun: Begun<'t>) -> Result<Beginning<'t>, Fault>
    requires program { begun.core.config ≡ verified.config }
    requires seated { IsSeated begun.core.config begun.core.group }
    requires lines { 1 ≤ begun.lines }
    requires room { begun.lines + length begun.rest.now + 11 ≤ greatest_trace }
    ensures world { IfOk result
        (λ b. b.world.world ≡ resting verified.config begun.entry.core.group) }
    ensures same { IfOk result (λ b. b.world.program ≡ verified) }
    ensures lines { IfOk result (λ b. b.lines ≡ begun.entry.lines) }
    ensures events { IfOk result (λ b. (place : Option ℕ)
        × ReadsFront (sizes_of verified.config).cars (events_text begun.entry.rest.now)
        b.events place × (b.cut ≡ option_map (line_behind b.lines) place)) }
    ensures few { IfOk result (λ b. b.lines + length b.events ≤ greatest_trace) }
    ensures rests { IfOk result (λ b. Begins verified.config b.world.world) }
    ensures fault { IfErr result
        (IsEventless (sizes_of verified.config).cars begun.entry.lines begun.entry.rest.now) }
{
    let Begun { core, rest, lines } = begun;
    let lines = lines as u32;
    match read_events(Format::Two, verified.sizes().cars, rest) {
        Ok(Front { events, cut }) => {
            let world = resumed(alloc, verified, core)?;
            Ok(Beginning {
                world,
                events,
                lines,
                cut: moved(cut, lines),
            })
        }
        Err(fault) => {
            verified.release();
            Err(fault_of(fault, lines - 1))
        }
    }
}

// A trace of format 3, from its state.
fn go_on<'t>(
    alloc: Global,
    verified: Verified,
    source: &[u8],
    text: &[u8],
    state: &'t [u8],
) -> Result<Beginning<'t>, Fault>
    requires { IsStateOf text.now state.now }
    ensures begins { IfOk result (λ b. BeginsTrace verified.config source.now text.now
        b.world.world b.events b.lines b.cut) }
    ensures same { IfOk result (λ b. b.world.program ≡ verified) }
    ensures few { IfOk result (λ b. b.lines + length b.events ≤ greatest_trace) }
    ensures rests { IfOk result (λ b. Begins verified.config b.world.world) }
    ensures fault { IfErr result (IsUnbegun verified.config source.now text.now) }
{
    let _config = verified.config();
    let digest = Sha256::digest(source);
    match read_state(alloc, &verified, &digest, state) {
        Ok(begun) => follow(alloc, verified, begun),
        Err(error) => {
            verified.release();
            Err(fault_of_state(error))
        }
    }
}

/// Reads a trace, in any format, of the configuration whose text is `source`: the world from which its events lead, the events, and
/// after how many lines they are. The text may be cut off after its first line, in format 3 after the lines of its state. A fault
/// has number and line of the first wrong line: 80 or 81 of a trace, or a number of a state ([`crate::fault::StateFault`]). A state of
/// another text is 85 (own rule). The events stay in the text; reading takes a time that grows with it, and memory for the state alone.
pub fn begin<'t>(
    alloc: Global,
    verified: Verified,
    source: &[u8],
    text: &'t [u8],
) -> Result<Beginning<'t>, Fault>
    ensures begins { IfOk result (λ b. BeginsTrace verified.config source.now text.now
        b.world.world b.events b.lines b.cut) }
    ensures same { IfOk result (λ b. b.world.program ≡ verified) }
    ensures few { IfOk result (λ b. b.lines + length b.events ≤ greatest_trace) }
    ensures rests { IfOk result (λ b. Begins verified.config b.world.world) }
    ensures fault { IfErr result (IsUnbegun verified.config source.now text.now) }
{
    match state_of(text) {
        Some(state) => go_on(alloc, verified, source, text, state),
        None => open(alloc, verified, text),
    }
}
