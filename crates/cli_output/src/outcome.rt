// What a request prints over a verified configuration.

ghost use Rattle.std.specs.Prelude.{◌≡◌, ◌≢◌, ◌≤◌, ◌+◌, ◌++◌, All, Option, None, option_map, length, Ok, Err, IfOk, IfErr, OnOk, map, string_bytes};
ghost use Rattle.base_json.specs.Forms.{form_of};
ghost use Rattle.group_spec.specs.Image.{sizes_of};
ghost use Rattle.group_spec.specs.World.{opening};
ghost use Rattle.group_state.specs.Beginnings.{BeginsTrace};
ghost use Rattle.trace_text.specs.Reading.{greatest_trace};
ghost use Rattle.cli_output.specs.Outcomes.{IsCheckOutcome, check_shown, IsShowOutcome, HasWarnings, asked_warnings, AreWarned, AreRoundsWarned, left_line, told_left, IsFire, IsNoFire, calls_word, fire_settings, AreOfFile, AreOfReading, HasBadCalls, IsBadReading, AreDriven, IsUndriven, IsSimOutcome, IsRunOutcome, IsDenialsOutcome, IsWatchOutcome, IsRoundsOutcome, IsCallsText, IsFollowed, IsTraceOutcome, IsToldOutcome, IsProgramOutcome};
ghost use Rattle.cli_output.specs.Tellings.{telling_of};
ghost use Rattle.cli_output.specs.Parts.{fault_of_calls, IsTraceUnread, IsBadText, AreFollowed, AreValued, IsShownText, IsWatched};
ghost use Rattle.group_rounds.specs.Driven.{ArePressed, AreSettings, switches_in};
ghost use Rattle.cli_host.specs.CallsFile.{AreCallsOf};
ghost use Rattle.cli_host.specs.Requests.{command_of, words_of};
ghost use Rattle.cli_host.specs.Messages.{line_fault_number};
ghost use Rattle.cli_host.specs.declared.status.Fault.TheVariants.{Refused as RefusedLine};
ghost use Rattle.show_values.specs.Words.{meant};
ghost use Rattle.group_spec.specs.EventFaults.{event_fault_number};
ghost use Rattle.threads_workers.specs.Panels.{IsPressAt};
ghost use Rattle.threads_workers.specs.Ran.{IsRun};
ghost use Rattle.cli_messages.specs.Outputs.{bytes_of, warnings_of};
ghost use Rattle.trace_text.specs.Written.{text_of_entries};

use crate::busy::put_busy;
use crate::check::check_text;
use crate::image::image_text;
use crate::limits::put_limits;
use crate::scan::scan_outcome;
use crate::span::span_of;
use crate::telling::Telling;
use base_json::form::Form;
use base_lists::Items;
use cli_host::calls::{CallsFault, CallsFile, read_calls};
use cli_host::files::Reading;
use cli_host::press::{Press, Set, Setting, fire_round, presses};
use cli_host::request::{
    Checked, Following, Name, Named, Request, Rounds, Showing, Shown, Simulating, Traced, Words,
};
use cli_host::status::{Fault, LineFault};
use cli_messages::output;
use cli_messages::output::{Output, Warned};
use group_rounds::along;
use group_rounds::replay::{Refused, replay};
use group_rounds::sim::{Drive, simulate, simulate_before, simulate_on};
use group_spec::Sizes;
use group_state::begin::{Beginning, begin};
use group_world::World;
use scan_task::Verified;
use show_calls::lines::lines_in;
use show_calls::log::Log;
use show_calls::summary::summary_text;
use show_names::{ranges_in, warnings_text, xref_in};
use show_picture::{Stop, drawing};
use show_values::calls::call_log;
use show_values::changes::shown_text;
use show_values::denials::Denials;
use show_values::following::{denied_in, rows_along};
use show_values::watch::Watch;
use show_values::words::meant;
use std::alloc::{AllocError, Global};
use std::sync::Wait;
use std::thread::Threads;
use threads_desk::DeskClosed;
use threads_workers::RunFault;
use threads_workers::gate::{Open, Together};
use threads_workers::run::{Plan, Ran, run};
use trace_text::trace::Trace;

/// What a request that isn't `run` prints over the verified configuration of a text, `source`, with what was read of its trace or its file after
/// `--calls`, or why it prints nothing. A trace of another text is refused, 85, where it has a state (own rule). With `--json` each row is an object.
pub fn outcome(
    alloc: Global,
    request: Request<'_>,
    verified: Verified,
    source: &[u8],
    other: &Reading,
) -> Result<Output, Fault>
    requires { command_of request ≢ Name.Rounds Simulating.Run }
    ensures is { IsProgramOutcome request.entry verified source.now other.now result }
    ensures warned { AreWarned request.entry verified result }
    ensures unwritten { result ≢ Err Fault.CannotWrite }
{
    match request {
        Request::Check(asked) => check_outcome(alloc, verified, asked, source.len()),
        Request::Show(command, asked) => shown(alloc, verified, command, asked, source),
        Request::Rounds(command, asked) => rounds_outcome(alloc, verified, command, asked, other),
        Request::Trace(command, traced) => {
            told_outcome(alloc, verified, command, traced, source, other)
        }
    }
}

// What a command over a trace reports of the whole of it, or the scan that it shows of it.
fn told_outcome(
    alloc: Global,
    verified: Verified,
    command: Following,
    traced: Traced<'_>,
    source: &[u8],
    trace: &Reading,
) -> Result<Output, Fault>
    ensures is { IsToldOutcome (telling_of command traced.entry) traced.entry verified source.now
        trace.now result }
    ensures unwritten { result ≢ Err Fault.CannotWrite }
    ensures warned { HasWarnings None result }
{
    match Telling::of(command, traced) {
        Some(telling) => trace_outcome(alloc, verified, telling, source, trace),
        None => scan_outcome(alloc, verified, traced, source, trace),
    }
}

// What a simulation in one thread is asked for.
fn rounds_outcome(
    alloc: Global,
    verified: Verified,
    command: Simulating,
    asked: Rounds<'_>,
    calls: &Reading,
) -> Result<Output, Fault>
    requires { command ≢ Simulating.Run }
    ensures is { IsRoundsOutcome command verified asked.entry calls.now result }
    ensures unwritten { result ≢ Err Fault.CannotWrite }
    ensures warned { AreRoundsWarned command result }
{
    match command {
        Simulating::Sim => simulated(alloc, verified, asked, calls),
        Simulating::Run => unreachable!(),
        Simulating::Denials => denied(alloc, verified, asked, calls),
        Simulating::Watch => watched(alloc, verified, asked, calls),
    }
}

fn check_outcome(
    alloc: Global,
    verified: Verified,
    asked: Checked<'_>,
    bytes: usize,
) -> Result<Output, Fault>
    ensures is { IsCheckOutcome asked.entry verified bytes result }
    ensures warned { HasWarnings (asked_warnings asked.entry.warns verified) result }
    ensures unwritten { result ≢ Err Fault.CannotWrite }
{
    let output = listed(alloc, &verified, asked, bytes);
    verified.release();
    output
}

// The tasks and units of a verified configuration, with limits and with what is in vain in it, where that is asked for.
fn listed(
    alloc: Global,
    verified: &Verified,
    asked: Checked<'_>,
    bytes: usize,
) -> Result<Output, Fault>
    ensures is { IsCheckOutcome asked.entry verified.now bytes result }
    ensures warned { HasWarnings (asked_warnings asked.entry.warns verified.now) result }
    ensures unwritten { result ≢ Err Fault.CannotWrite }
{
    let text = check_shown(alloc, verified, asked, bytes)?;
    if !asked.warns {
        return Ok(Output::Text(text));
    }
    let mut warnings = warnings_text(alloc, verified.config())?;
    put_busy(alloc, &mut warnings, verified.names())?;
    Ok(Output::Warned(Warned { text, warnings }))
}

// The tasks and units of a verified configuration, and after them limits, where they are asked for.
fn check_shown(
    alloc: Global,
    verified: &Verified,
    asked: Checked<'_>,
    bytes: usize,
) -> Result<String, AllocError>
    ensures { IfOk result (λ text. string_bytes text
        ≡ check_shown (form_of asked.entry.json) asked.entry.paths asked.entry.limits verified.now
        bytes) }
{
    let form = Form::of(asked.json);
    let mut text = check_text(alloc, form, verified, asked.paths)?;
    if !asked.limits {
        return Ok(text);
    }
    put_limits(alloc, &mut text, form, verified, bytes)?;
    Ok(text)
}

// What a command shows of the verified configuration of a text, `source`.
fn shown(
    alloc: Global,
    verified: Verified,
    command: Showing,
    asked: Shown<'_>,
    source: &[u8],
) -> Result<Output, Fault>
    ensures is { IsShowOutcome command asked.entry source.now verified result }
    ensures warned { HasWarnings None result }
    ensures unwritten { result ≢ Err Fault.CannotWrite }
{
    let form = Form::of(asked.json);
    let text = match command {
        Showing::Ranges => ranges_in(alloc, verified.names(), form, asked.text, source),
        Showing::Xref => xref_in(alloc, form, verified.config()),
    };
    verified.release();
    Ok(Output::Text(text?))
}

// What drives a simulation.
#[derive(Drop)]
struct Driven {
    presses: Items<Press>,
    settings: Items<Setting>,
}

// The round that a word spells from which on FIRE holds.
fn fire_of(alloc: Global, word: Option<&str>, rounds: u16) -> Result<Option<u16>, Fault>
    ensures ok { IfOk result (IsFire rounds (option_map (λ w. w.now) word.entry)) }
    ensures err { IfErr result (IsNoFire rounds (option_map (λ w. w.now) word.entry)) }
{
    match word {
        None => Ok(None),
        Some(word) => match fire_round(word, rounds) {
            Some(first) => Ok(Some(first)),
            None => Err(Fault::BadFire(String::from_str(alloc, word)?)),
        },
    }
}

// A line of a file that is refused.
fn refused(why: LineFault, line: u32) -> Fault
    ensures { result ≡ RefusedLine (line_fault_number why) line }
{
    Fault::Refused {
        number: why.number(),
        line,
    }
}

// What is wrong with a file of presses and settings.
fn fault_of_calls(fault: CallsFault) -> Fault
    ensures { result ≡ fault_of_calls fault }
{
    match fault {
        CallsFault::BadLine { line } => refused(LineFault::BadCall, line),
        CallsFault::TooMany { line } => refused(LineFault::TooManyCalls, line),
        CallsFault::Memory => Fault::NoMemory,
    }
}

// The presses and settings of the file after `--calls`; without it there are none.
fn file_of(
    alloc: Global,
    asked: Rounds<'_>,
    sizes: Sizes,
    calls: &Reading,
) -> Result<CallsFile, Fault>
    ensures ok { IfOk result (λ file. AreOfFile sizes asked.entry.rounds (calls_word asked.entry)
        calls.now file.presses file.settings) }
    ensures err { IfErr result (HasBadCalls sizes asked.entry.rounds (calls_word asked.entry)
        calls.now) }
{
    match asked.calls {
        None => Ok(CallsFile {
            presses: Items::new(alloc),
            settings: Items::new(alloc),
        }),
        Some(_) => read_of(alloc, calls, asked.rounds, sizes),
    }
}

// The presses and settings of what was read.
fn read_of(alloc: Global, calls: &Reading, rounds: u16, sizes: Sizes) -> Result<CallsFile, Fault>
    ensures ok { IfOk result (λ file. AreOfReading sizes rounds calls.now file.presses
        file.settings) }
    ensures err { IfErr result (IsBadReading sizes rounds calls.now) }
{
    match calls {
        Reading::Text(text) => read_file(alloc, text, rounds, sizes),
        Reading::Failed(why) => Err((*why).into()),
    }
}

// The presses and settings of a file's text.
fn read_file(alloc: Global, text: &[u8], rounds: u16, sizes: Sizes) -> Result<CallsFile, Fault>
    ensures ok { IfOk result (λ file. AreCallsOf rounds sizes.floors sizes.cars text.now
        file.presses file.settings) }
    ensures err { IfErr result (IsBadText sizes rounds text.now) }
{
    match read_calls(alloc, text, rounds, u16::from(sizes.floors), sizes.cars) {
        Ok(file) => Ok(file),
        Err(fault) => Err(fault_of_calls(fault)),
    }
}

// Puts more after items.
fn append<T: Copy>(items: &mut Items<T>, more: &[T]) -> Result<(), AllocError>
    ensures { OnOk result (items.new ≡ items.old ++ more.now) }
{
    'more: for item in more {
        items.push(*item)?;
    }
    Ok(())
}

// The setting of FIRE from a round on, and after it others.
fn settings_of(
    alloc: Global,
    first: Option<u16>,
    others: &[Setting],
) -> Result<Items<Setting>, AllocError>
    ensures { IfOk result (λ settings. settings ≡ fire_settings first ++ others.now) }
{
    let mut settings = Items::new(alloc);
    if let Some(round) = first {
        settings.push(Setting {
            round,
            set: Set::Fire(true),
        })?;
    }
    append(&mut settings, others)?;
    Ok(settings)
}

// The presses and the settings of the words and of the file, for a group of these sizes.
fn drive_of(
    alloc: Global,
    asked: Rounds<'_>,
    sizes: Sizes,
    calls: &Reading,
) -> Result<Driven, Fault>
    ensures ok { IfOk result (λ d. AreDriven sizes asked.entry calls.now d.presses d.settings) }
    ensures calls { IfOk result (λ d. ArePressed sizes d.presses) }
    ensures placed { IfOk result (λ d. All (λ press. IsPressAt sizes.floors press) d.presses) }
    ensures settings { IfOk result (λ d. AreSettings sizes.cars d.settings) }
    ensures err { IfErr result (IsUndriven sizes asked.entry calls.now) }
{
    let mut presses = presses(alloc, asked.presses, asked.rounds, u16::from(sizes.floors))?;
    let first = fire_of(alloc, asked.fire, asked.rounds)?;
    let file = file_of(alloc, asked, sizes, calls)?;
    append(&mut presses, file.presses.as_slice())?;
    let settings = settings_of(alloc, first, file.settings.as_slice())?;
    Ok(Driven { presses, settings })
}

impl Driven {
    // What a simulation is driven by.
    fn drive(&self) -> Drive<'_>
        ensures presses { result.presses.now ≡ self.now.presses }
        ensures settings { result.settings.now ≡ self.now.settings }
    {
        Drive {
            presses: self.presses.as_slice(),
            settings: self.settings.as_slice(),
        }
    }
}

fn simulated(
    alloc: Global,
    verified: Verified,
    asked: Rounds<'_>,
    calls: &Reading,
) -> Result<Output, Fault>
    ensures is { IsSimOutcome verified asked.entry calls.now result }
    ensures unwritten { result ≢ Err Fault.CannotWrite }
    ensures warned { HasWarnings None result }
{
    match drive_of(alloc, asked, verified.sizes(), calls) {
        Ok(driven) => {
            let drive = driven.drive();
            Ok(Output::Trace(simulate(alloc, verified, drive, asked.rounds)?))
        }
        Err(fault) => {
            verified.release();
            Err(fault)
        }
    }
}

fn denied(
    alloc: Global,
    verified: Verified,
    asked: Rounds<'_>,
    calls: &Reading,
) -> Result<Output, Fault>
    ensures is { IsDenialsOutcome verified asked.entry calls.now result }
    ensures unwritten { result ≢ Err Fault.CannotWrite }
    ensures warned { HasWarnings None result }
{
    match drive_of(alloc, asked, verified.sizes(), calls) {
        Ok(driven) => {
            let drive = driven.drive();
            let mut denials = Denials::in_form(alloc, Form::of(asked.json), asked.flag);
            simulate_before(alloc, verified, drive, asked.rounds, &mut denials)?;
            Ok(Output::Text(denials.text))
        }
        Err(fault) => {
            verified.release();
            Err(fault)
        }
    }
}

fn watched(
    alloc: Global,
    verified: Verified,
    asked: Rounds<'_>,
    calls: &Reading,
) -> Result<Output, Fault>
    ensures is { IsWatchOutcome verified asked.entry calls.now result }
    ensures unwritten { result ≢ Err Fault.CannotWrite }
    ensures warned { HasWarnings None result }
{
    let Named { names, presses } = asked.presses.names_first();
    match drive_of(alloc, Rounds { presses, ..asked }, verified.sizes(), calls) {
        Ok(driven) => {
            let drive = driven.drive();
            let mut world = World::new(alloc, verified)?;
            let output = watched_names(alloc, &mut world, names, drive, asked.rounds, asked.flag);
            world.release();
            output
        }
        Err(fault) => {
            verified.release();
            Err(fault)
        }
    }
}

// The values of the names that words mean, after each of so many rounds of a world that opens; with `--changes` only those that change.
fn watched_names(
    alloc: Global,
    world: &mut World,
    names: Words<'_>,
    drive: Drive<'_>,
    rounds: u16,
    changes: bool,
) -> Result<Output, Fault>
    requires opening { world.old.world ≡ opening world.old.program.config }
    requires calls { ArePressed (sizes_of world.old.program.config) drive.presses.now }
    requires settings { AreSettings (sizes_of world.old.program.config).cars drive.settings.now }
    ensures is { IsWatched world.old.program.config
        (meant world.old.program.config (words_of names.entry))
        drive.entry.presses.now drive.entry.settings.now rounds changes result }
    ensures warned { HasWarnings None result }
{
    let names = meant(alloc, world, names)?;
    watched_world(alloc, world, &names, drive, rounds, changes)
}

// The values of names after each of so many rounds of a world that opens.
fn watched_world(
    alloc: Global,
    world: &mut World,
    names: &[String],
    drive: Drive<'_>,
    rounds: u16,
    changes: bool,
) -> Result<Output, Fault>
    requires opening { world.old.world ≡ opening world.old.program.config }
    requires calls { ArePressed (sizes_of world.old.program.config) drive.presses.now }
    requires settings { AreSettings (sizes_of world.old.program.config).cars drive.settings.now }
    ensures is { IsWatched world.old.program.config (map string_bytes names.now)
        drive.entry.presses.now drive.entry.settings.now rounds changes result }
    ensures warned { HasWarnings None result }
{
    let mut watch = Watch::of(alloc, world, names)?;
    simulate_on(alloc, world, drive, rounds, &mut watch)?;
    shown_output(alloc, changes, watch.text)
}

// Lines of values, all of them or with `--changes` those that change.
fn shown_output(alloc: Global, changes: bool, text: String) -> Result<Output, Fault>
    ensures is { IsShownText changes (string_bytes text) result }
    ensures warned { HasWarnings None result }
{
    Ok(Output::Text(shown_text(alloc, changes, text)?))
}

// How many tasks the group has.
fn tasks_of(verified: &Verified) -> u8 {
    verified
        .sizes()
        .cars
        .saturating_add(u8::from(verified.has_task(0)))
}

// What a run in threads leaves, whose rounds end for all before the next begins, or pass one another.
fn run_in_threads<R: Threads + Wait + Sync>(
    rt: &R,
    alloc: Global,
    verified: Verified,
    plan: Plan<'_>,
    together: bool,
) -> Result<Ran, RunFault>
    requires presses { All (λ press. IsPressAt (sizes_of verified.config).floors press)
        plan.presses.now }
    requires settings { AreSettings (sizes_of verified.config).cars plan.settings.now }
    ensures { IfOk result (λ ran. IsRun verified.config
        (switches_in (sizes_of verified.config).cars plan.entry.settings.now) plan.entry.rounds
        plan.entry.presses.now ran.journal.items ran.left) }
{
    if together {
        let gate = Together::new(tasks_of(&verified));
        run(rt, alloc, verified, &gate, plan)
    } else {
        run(rt, alloc, verified, &Open, plan)
    }
}

// How many calls a run left.
fn left_text(alloc: Global, left: &DeskClosed) -> Result<String, AllocError>
    ensures { IfOk result (λ text. string_bytes text ≡ left_line left.now) }
{
    let in_hand = left.hand().len();
    let on_desk = left.desk().len();
    format!(in alloc; "left in hand {}, on desk {}\n", in_hand, on_desk)
}

// What is printed of a run, and of the calls that it left, where that is asked for.
fn ran_output(alloc: Global, ran: Ran, left: bool) -> Result<Output, Fault>
    ensures trace { IfOk result (λ output. bytes_of output ≡ text_of_entries ran.journal.items) }
    ensures left { IfOk result (λ output. warnings_of output ≡ told_left left ran.left) }
    ensures memory { IfErr result (λ why. why ≡ Fault.NoMemory) }
{
    if !left {
        return Ok(Output::Trace(ran.journal));
    }
    let Ran { journal, left } = ran;
    Ok(Output::Ran(output::Ran {
        entries: journal,
        left: left_text(alloc, &left)?,
    }))
}

/// What `run` prints over a verified configuration, with what was read of its file after `--calls`, or why it prints nothing. It starts
/// threads and waits for them.
pub fn ran<R: Threads + Wait + Sync>(
    rt: &R,
    alloc: Global,
    verified: Verified,
    asked: Rounds<'_>,
    calls: &Reading,
) -> Result<Output, Fault>
    ensures is { IsRunOutcome verified asked.entry calls.now result }
    ensures unwritten { result ≢ Err Fault.CannotWrite }
{
    match drive_of(alloc, asked, verified.sizes(), calls) {
        Ok(driven) => {
            let plan = Plan {
                presses: driven.presses.as_slice(),
                rounds: asked.rounds,
                settings: driven.settings.as_slice(),
            };
            match run_in_threads(rt, alloc, verified, plan, asked.flag) {
                Ok(ran) => ran_output(alloc, ran, asked.left),
                // No memory, or no room.
                Err(_) => Err(Fault::NoMemory),
            }
        }
        Err(fault) => {
            verified.release();
            Err(fault)
        }
    }
}

// A whole trace: the world from which its events lead, and how many lines come before the first of them.
pub(crate) struct Whole<'t> {
    pub world: World,
    pub events: Trace<'t>,
    pub lines: u32,
}

// The whole trace of a text. One that is cut off is refused.
pub(crate) fn whole_of<'t>(
    alloc: Global,
    verified: Verified,
    source: &[u8],
    text: &'t [u8],
) -> Result<Whole<'t>, Fault>
    ensures begins { IfOk result (λ whole. BeginsTrace verified.config source.now text.now
        whole.world.world whole.events whole.lines None) }
    ensures same { IfOk result (λ whole. whole.world.program ≡ verified) }
    ensures few { IfOk result (λ whole. whole.lines + length whole.events
        ≤ greatest_trace) }
    ensures err { IfErr result (IsTraceUnread verified source.now text.now) }
{
    let Beginning {
        world,
        events,
        lines,
        cut,
    } = begin(alloc, verified, source, text)?;
    match cut {
        None => Ok(Whole {
            world,
            events,
            lines,
        }),
        Some(line) => {
            world.release();
            Err(refused(LineFault::Truncated, line))
        }
    }
}

// What is reported of events, from a world on. So many lines come before the first of them.
fn told_of(
    alloc: Global,
    world: &mut World,
    telling: Telling<'_>,
    events: &Trace<'_>,
    lines: u32,
) -> Result<Output, Fault>
    requires few { lines + length events.now ≤ greatest_trace }
    ensures is { AreFollowed telling.entry world.old.program world.old.world events.now lines
        result }
    ensures warned { HasWarnings None result }
{
    match telling {
        Telling::Image => image_after(alloc, world, events, lines),
        Telling::Picture(span) => picture_of(alloc, world, events, lines, span),
        Telling::Calls(form, summary) => calls_of(alloc, world, events, lines, form, summary),
        Telling::Denials(form, all) => denials_along(alloc, world, events, lines, form, all),
        Telling::Values(names, changes) => {
            values_along(alloc, world, events, lines, names, changes)
        }
    }
}

// The image after events.
fn image_after(
    alloc: Global,
    world: &mut World,
    events: &Trace<'_>,
    lines: u32,
) -> Result<Output, Fault>
    requires few { lines + length events.now ≤ greatest_trace }
    ensures is { AreFollowed Telling.Image world.old.program world.old.world events.now lines
        result }
    ensures warned { HasWarnings None result }
{
    match replay(world, events) {
        Ok(()) => Ok(Output::Text(image_text(alloc, world)?)),
        Err(refused) => Err(fault_of_event(refused, lines)),
    }
}

// The picture of the rounds of events that a word says.
fn picture_of(
    alloc: Global,
    world: &mut World,
    events: &Trace<'_>,
    lines: u32,
    span: Option<&str>,
) -> Result<Output, Fault>
    requires few { lines + length events.now ≤ greatest_trace }
    ensures is { AreFollowed (Telling.Picture span.entry) world.old.program world.old.world
        events.now lines result }
    ensures warned { HasWarnings None result }
{
    let span = span_of(alloc, span)?;
    match drawing(alloc, world, events, span) {
        Ok(picture) => Ok(Output::Text(picture)),
        Err(Stop::Refused(refused)) => Err(fault_of_event(refused, lines)),
        Err(Stop::Memory) => Err(Fault::NoMemory),
    }
}

// What the interlock denied along events.
fn denials_along(
    alloc: Global,
    world: &mut World,
    events: &Trace<'_>,
    lines: u32,
    form: Form,
    all: bool,
) -> Result<Output, Fault>
    requires few { lines + length events.now ≤ greatest_trace }
    ensures is { AreFollowed (Telling.Denials form all) world.old.program world.old.world events.now
        lines result }
    ensures warned { HasWarnings None result }
{
    match denied_in(alloc, world, events, form, all) {
        Ok(text) => Ok(Output::Text(text)),
        Err(along::Stop::Refused(refused)) => Err(fault_of_event(refused, lines)),
        Err(along::Stop::Memory) => Err(Fault::NoMemory),
    }
}

// The values of the names that words mean, after each round of events.
fn values_along(
    alloc: Global,
    world: &mut World,
    events: &Trace<'_>,
    lines: u32,
    names: Words<'_>,
    changes: bool,
) -> Result<Output, Fault>
    requires few { lines + length events.now ≤ greatest_trace }
    ensures is { AreFollowed (Telling.Values names.entry changes) world.old.program
        world.old.world events.now lines result }
    ensures warned { HasWarnings None result }
{
    let names = meant(alloc, world, names)?;
    values_of(alloc, world, events, lines, &names, changes)
}

// The values of names after each round of events.
fn values_of(
    alloc: Global,
    world: &mut World,
    events: &Trace<'_>,
    lines: u32,
    names: &[String],
    changes: bool,
) -> Result<Output, Fault>
    requires few { lines + length events.now ≤ greatest_trace }
    ensures is { AreValued (map string_bytes names.now) changes world.old.program world.old.world
        events.now lines result }
    ensures warned { HasWarnings None result }
{
    let Watch {
        watched,
        mut text,
        ..
    } = Watch::of(alloc, world, names)?;
    match rows_along(world, events, watched.as_slice(), &mut text) {
        Ok(()) => shown_output(alloc, changes, text),
        Err(along::Stop::Refused(refused)) => Err(fault_of_event(refused, lines)),
        Err(along::Stop::Memory) => Err(Fault::NoMemory),
    }
}

// The calls of events: a row of each in a form, or a summary.
fn calls_of(
    alloc: Global,
    world: &mut World,
    events: &Trace<'_>,
    lines: u32,
    form: Form,
    summary: bool,
) -> Result<Output, Fault>
    requires few { lines + length events.now ≤ greatest_trace }
    ensures is { AreFollowed (Telling.Calls form summary) world.old.program world.old.world events.now
        lines result }
    ensures warned { HasWarnings None result }
{
    match call_log(alloc, world, events) {
        Ok(log) => Ok(Output::Text(calls_text(alloc, form, &log, summary)?)),
        Err(along::Stop::Refused(refused)) => Err(fault_of_event(refused, lines)),
        Err(along::Stop::Memory) => Err(Fault::NoMemory),
    }
}

// What is printed of what is known of calls.
fn calls_text(alloc: Global, form: Form, log: &Log, summary: bool) -> Result<String, AllocError>
    ensures { IfOk result (λ text. IsCallsText form summary log.now (string_bytes text)) }
{
    let journeys = log.journeys.as_slice();
    if summary {
        summary_text(alloc, log.pressed, journeys)
    } else {
        lines_in(alloc, form, journeys)
    }
}

// The fault of an event that was refused, where so many lines come before the first event.
pub(crate) fn fault_of_event(refused: Refused, lines: u32) -> Fault
    requires few { lines + refused.index ≤ greatest_trace }
    ensures { result
        ≡ Fault.Refused (event_fault_number refused.fault) (lines + 1 + refused.index) }
{
    Fault::Refused {
        number: u16::from(refused.fault.number()),
        line: lines + 1 + refused.index as u32,
    }
}

// The outcome of a trace's text.
fn followed_text(
    alloc: Global,
    verified: Verified,
    telling: Telling<'_>,
    source: &[u8],
    text: &[u8],
) -> Result<Output, Fault>
    ensures is { IsFollowed telling.entry verified source.now text.now result }
    ensures warned { HasWarnings None result }
{
    let whole = whole_of(alloc, verified, source, text)?;
    followed_events(alloc, whole, telling)
}

// What is reported of a whole trace.
fn followed_events(alloc: Global, whole: Whole<'_>, telling: Telling<'_>) -> Result<Output, Fault>
    requires few { whole.lines + length whole.events ≤ greatest_trace }
    ensures is { AreFollowed telling.entry whole.entry.world.program whole.entry.world.world
        whole.entry.events whole.entry.lines result }
    ensures warned { HasWarnings None result }
{
    let Whole {
        mut world,
        events,
        lines,
    } = whole;
    let output = told_of(alloc, &mut world, telling, &events, lines);
    world.release();
    output
}

fn trace_outcome(
    alloc: Global,
    verified: Verified,
    telling: Telling<'_>,
    source: &[u8],
    trace: &Reading,
) -> Result<Output, Fault>
    ensures is { IsTraceOutcome telling.entry verified source.now trace.now result }
    ensures unwritten { result ≢ Err Fault.CannotWrite }
    ensures warned { HasWarnings None result }
{
    match trace {
        Reading::Text(text) => followed_text(alloc, verified, telling, source, text),
        Reading::Failed(why) => {
            verified.release();
            Err((*why).into())
        }
    }
}
