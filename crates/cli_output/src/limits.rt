// How much of each limit a configuration uses.

ghost use Rattle.std.specs.Prelude.{◌≡◌, ◌≤◌, ◌<◌, ◌+◌, ◌++◌, IfOk, OnOk, None, Some, false, length, map, option_map};
ghost use Rattle.base_json.specs.Forms.{row_in};
ghost use Rattle.base_texts.specs.Puts.{Puts};
ghost use Rattle.il_syntax.specs.Grammar.{depth_after, greatest_depth};
ghost use Rattle.scan_task.specs.Listing.{unit_lines};
ghost use Rattle.load_order.specs.Counted.{number_at};
ghost use Rattle.load_order.specs.Related.{tabulate};
ghost use Rattle.load_order.specs.Used.{uses};
ghost use Rattle.group_spec.specs.Image.{sizes_of};
ghost use Rattle.group_spec.specs.Snapshot.{program_of, task_name};
ghost use Rattle.cli_output.specs.Limits.{chain_from, chain_through, chains, cost_use, limit_line, limit_line_in, limit_members, limit_members_in, limit_row, limit_row_in, limit_words, limits_rows, longest_chain, longest_of, run_limits, measured, most_row, most_of, slots_rows, slots_row, task_slots, text_limits, body_limits, unit_limits, unit_use, use_shown, with_more, work_use, work_line, work_members, work_rows};
ghost use Rattle.il_work_laws.specs.Work.{most_work};
ghost use Rattle.load_work.specs.Sizes.{capped};
ghost use Rattle.il_statics.specs.declared.limits.TheConstants.{LONGEST_CHAIN};

use base_json::form::Form;
use base_json::object::Object;
use base_lists::Items;
use il_statics::limits::{LONGEST_CHAIN, MOST_TASK_SLOTS};
use il_syntax::limits::{LONGEST_TEXT, MOST_INSTRUCTIONS, MOST_OPEN, MOST_UNITS};
use il_syntax::tree::{Config, Instruction, Step, Unit};
use load_order::relation::{Relation, holds};
use load_order::uses::uses;
use load_scope::Scoped;
use load_work::works;
use scan_task::Verified;
use std::alloc::{AllocError, Global};

const MOST_COST: usize = 1_000_000;

/// A unit, and how much of a limit it uses.
#[derive(Clone, Copy)]
struct Usage<'v> {
    name: &'v str,
    used: usize,
}

/// What is counted of a unit.
#[derive(Clone, Copy)]
enum Measure {
    Instructions,
    /// Parentheses that are open at once.
    Nesting,
}

/// Writes how much a configuration uses of each limit, where its text has so many bytes: a row of each, of what is
/// counted by unit the first that uses the most, and of slots each task. The last row has the most work of a unit.
pub fn put_limits(
    alloc: Global,
    text: &mut String,
    form: Form,
    verified: &Verified,
    bytes: usize,
) -> Result<(), AllocError>
    ensures { OnOk result (Puts text.old text.new (limits_rows form verified.now bytes)) }
{
    put_unit_limits(alloc, text, form, verified.config(), bytes)?;
    put_run_limits(alloc, text, form, verified)?;
    put_work(alloc, text, form, verified.names())
}

// Of a text of so many bytes, and of its units.
fn put_unit_limits(
    alloc: Global,
    text: &mut String,
    form: Form,
    config: &Config,
    bytes: usize,
) -> Result<(), AllocError>
    ensures { OnOk result (Puts text.old text.new (unit_limits form config.now bytes)) }
{
    put_text_limits(alloc, text, form, config, bytes)?;
    put_body_limits(alloc, text, form, config)
}

#[tactic(auto, unfolding(crate::specs::Limits::text_limits))]
fn put_text_limits(
    alloc: Global,
    text: &mut String,
    form: Form,
    config: &Config,
    bytes: usize,
) -> Result<(), AllocError>
    ensures { OnOk result (Puts text.old text.new (text_limits form config.now bytes)) }
{
    let units = config.units.as_slice();
    put_limit(alloc, text, form, "bytes", bytes, LONGEST_TEXT)?;
    put_limit(alloc, text, form, "units", units.len(), MOST_UNITS)
}

#[tactic(auto, unfolding(crate::specs::Limits::body_limits))]
fn put_body_limits(
    alloc: Global,
    text: &mut String,
    form: Form,
    config: &Config,
) -> Result<(), AllocError>
    ensures { OnOk result (Puts text.old text.new (body_limits form config.now)) }
{
    let units = config.units.as_slice();
    let instructions = greatest(units, Measure::Instructions);
    put_most(
        alloc,
        text,
        form,
        "instructions",
        instructions,
        MOST_INSTRUCTIONS,
    )?;
    let nesting = greatest(units, Measure::Nesting);
    put_most(alloc, text, form, "nesting", nesting, MOST_OPEN)
}

// Of chains, slots and costs.
#[tactic(auto, unfolding(crate::specs::Limits::run_limits))]
fn put_run_limits(
    alloc: Global,
    text: &mut String,
    form: Form,
    verified: &Verified,
) -> Result<(), AllocError>
    ensures { OnOk result (Puts text.old text.new (run_limits form verified.now)) }
{
    let chain = longest_chain(alloc, verified.names())?;
    put_limit(alloc, text, form, "chain", chain, LONGEST_CHAIN)?;
    put_slots(alloc, text, form, verified)?;
    put_limit(
        alloc,
        text,
        form,
        "globals",
        verified.globals().len(),
        MOST_TASK_SLOTS,
    )?;
    put_most(alloc, text, form, "cost", most_costly(verified), MOST_COST)
}

// `limit NAME used N of N`.
fn put_words(text: &mut String, name: &str, used: usize, most: usize) -> Result<(), AllocError>
    ensures { OnOk result (Puts text.old text.new (limit_words name.now used most)) }
{
    write!(text, "limit {} used {} of {}", name, used, most)
}

fn put_limit(
    alloc: Global,
    text: &mut String,
    form: Form,
    name: &str,
    used: usize,
    most: usize,
) -> Result<(), AllocError>
    ensures { OnOk result (Puts text.old text.new (limit_row form name.now used most)) }
{
    match form {
        Form::Plain => put_limit_line(text, name, used, most),
        Form::Json => {
            let mut object = Object::begin(alloc)?;
            add_limit(&mut object, name, used, most)?;
            object.put_line(text)
        }
    }
}

#[tactic(auto, unfolding(crate::specs::Limits::limit_line))]
fn put_limit_line(text: &mut String, name: &str, used: usize, most: usize) -> Result<(), AllocError>
    ensures { OnOk result (Puts text.old text.new (limit_line name.now used most)) }
{
    put_words(text, name, used, most)?;
    text.push_str("\n")
}

#[tactic(auto, unfolding(crate::specs::Limits::limit_members))]
fn add_limit(object: &mut Object, name: &str, used: usize, most: usize) -> Result<(), AllocError>
    ensures { OnOk result (object.new ≡ object.old ++ limit_members name.now used most) }
{
    object.text_member("limit", name)?;
    object.number_member("used", used as u64)?;
    object.number_member("of", most as u64)
}

// A limit of a unit or a task.
fn put_limit_in(
    alloc: Global,
    text: &mut String,
    form: Form,
    name: &str,
    used: usize,
    most: usize,
    holder: &str,
) -> Result<(), AllocError>
    ensures { OnOk result (Puts text.old text.new
        (limit_row_in form name.now used most holder.now)) }
{
    match form {
        Form::Plain => put_limit_line_in(text, name, used, most, holder),
        Form::Json => {
            let mut object = Object::begin(alloc)?;
            add_limit(&mut object, name, used, most)?;
            object.text_member("in", holder)?;
            object.put_line(text)
        }
    }
}

#[tactic(auto, unfolding(crate::specs::Limits::limit_line_in))]
fn put_limit_line_in(
    text: &mut String,
    name: &str,
    used: usize,
    most: usize,
    holder: &str,
) -> Result<(), AllocError>
    ensures { OnOk result (Puts text.old text.new
        (limit_line_in name.now used most holder.now)) }
{
    put_words(text, name, used, most)?;
    writeln!(text, " in {}", holder)
}

fn put_most(
    alloc: Global,
    text: &mut String,
    form: Form,
    name: &str,
    unit: Option<Usage<'_>>,
    most: usize,
) -> Result<(), AllocError>
    ensures { OnOk result (Puts text.old text.new
        (most_row form name.now (option_map use_shown unit.entry) most)) }
{
    match unit {
        Some(unit) => put_limit_in(alloc, text, form, name, unit.used, most, unit.name),
        None => Ok(()),
    }
}

// The one of two that uses more; of two that use as much the first.
fn with_more<'v>(best: Option<Usage<'v>>, next: Usage<'v>) -> Usage<'v>
    ensures { use_shown result ≡ with_more (option_map use_shown best.entry)
        (use_shown next.entry) }
{
    match best {
        Some(best) => if best.used < next.used { next } else { best },
        None => next,
    }
}

// The first unit of the most that is counted.
fn greatest(units: &[Unit], measure: Measure) -> Option<Usage<'_>>
    ensures { option_map use_shown result ≡ most_of None (map (unit_use measure) units.now) }
{
    let mut best = None;
    'units: for unit in units {
        let usage = Usage {
            name: unit.name.name.as_str(),
            used: measure.of(unit),
        };
        best = Some(with_more(best, usage));
    }
    best
}

impl Measure {
    fn of(self, unit: &Unit) -> usize
        ensures { result ≡ measured self unit.now }
    {
        match self {
            Measure::Instructions => unit.body.steps.as_slice().len(),
            Measure::Nesting => greatest_depth(unit.body.steps.as_slice()),
        }
    }
}

// How many parentheses are open at once at most.
fn greatest_depth(steps: &[Step]) -> usize
    ensures { result ≡ greatest_depth 0 steps.now }
{
    let mut depth = 0;
    let mut greatest: usize = 0;
    'steps: for step in steps {
        greatest = greatest.max(depth);
        depth = depth_after(depth, &step.instruction);
    }
    greatest.max(depth)
}

// How many parentheses are open after an instruction.
fn depth_after(depth: usize, instruction: &Instruction) -> usize
    requires { depth < 18446744073709551615 }
    ensures is { result ≡ depth_after depth instruction.now }
    ensures few { result ≤ depth + 1 }
{
    match instruction {
        Instruction::Defer { .. } => depth + 1,
        Instruction::Evaluate => depth.saturating_sub(1),
        _ => depth,
    }
}

// The first unit that costs the most.
fn most_costly(verified: &Verified) -> Option<Usage<'_>>
    ensures { option_map use_shown result ≡ most_of None (map cost_use
        (unit_lines verified.now.config.units verified.now.costs)) }
{
    let mut best = None;
    'units: for unit in verified.units() {
        let usage = Usage {
            name: unit.name,
            used: unit.cost as usize,
        };
        best = Some(with_more(best, usage));
    }
    best
}

// Which unit does the most work.
fn put_work(alloc: Global, text: &mut String, form: Form, names: &Scoped) -> Result<(), AllocError>
    ensures { OnOk result (Puts text.old text.new (work_rows form names.now)) }
{
    let works = works(alloc, names)?;
    match busiest(names.config(), &works) {
        Some(unit) => put_work_row(alloc, text, form, unit.used, unit.name),
        None => Ok(()),
    }
}

fn put_work_row(
    alloc: Global,
    text: &mut String,
    form: Form,
    used: usize,
    name: &str,
) -> Result<(), AllocError>
    ensures { OnOk result (Puts text.old text.new
        (row_in form (work_line used name.now) (work_members used name.now))) }
{
    match form {
        Form::Plain => put_work_line(text, used, name),
        Form::Json => {
            let mut object = Object::begin(alloc)?;
            object.number_member("work", used as u64)?;
            object.text_member("in", name)?;
            object.put_line(text)
        }
    }
}

// `work N in UNIT`.
#[tactic(auto, unfolding(crate::specs::Limits::work_line))]
fn put_work_line(text: &mut String, used: usize, name: &str) -> Result<(), AllocError>
    ensures { OnOk result (Puts text.old text.new (work_line used name.now)) }
{
    writeln!(text, "work {} in {}", used, name)
}

// The first unit that does the most work, by the work of each.
fn busiest<'c>(config: &'c Config, works: &Items<usize>) -> Option<Usage<'c>>
    requires { works.now ≡ map (λ u. capped (most_work config.now u)) config.now.units }
    ensures { option_map use_shown result
        ≡ most_of None (map (work_use config.now) config.now.units) }
{
    let units = config.units.as_slice();
    let mut best = None;
    'units: for at in 0..units.len() {
        let usage = Usage {
            name: units[at].name.name.as_str(),
            used: number_at(works, at),
        };
        best = Some(with_more(best, usage));
    }
    best
}

// The units of the longest chain of uses.
fn longest_chain(alloc: Global, names: &Scoped) -> Result<usize, AllocError>
    ensures { IfOk result (λ most. most
        ≡ longest_chain (uses names.now false) (length names.now.units)) }
{
    let count = names.config().units.as_slice().len();
    let used = uses(alloc, names, false)?;
    let lengths = chains(alloc, &used, count)?;
    Ok(longest_of(&lengths, count))
}

// The greatest of so many numbers.
#[tactic(auto, unfolding(crate::specs::Limits::longest_of))]
fn longest_of(lengths: &Items<usize>, count: usize) -> usize
    ensures { result ≡ longest_of lengths.now count }
{
    let mut longest: usize = 0;
    'units: for from in 0..count {
        longest = longest.max(number_at(lengths, from));
    }
    longest
}

// The longest chains from each unit on.
#[tactic(auto, unfolding(crate::specs::Limits::chains))]
fn chains(alloc: Global, used: &Relation, count: usize) -> Result<Items<usize>, AllocError>
    ensures { IfOk result (λ lengths. lengths ≡ chains used.now count LONGEST_CHAIN) }
{
    let mut lengths = Items::new(alloc);
    'rounds: for _round in 0..LONGEST_CHAIN {
        lengths = longer(alloc, used, &lengths, count)?;
    }
    Ok(lengths)
}

// The longest chains of one unit more, from each unit on.
fn longer(
    alloc: Global,
    used: &Relation,
    lengths: &Items<usize>,
    count: usize,
) -> Result<Items<usize>, AllocError>
    ensures { IfOk result (λ longer. longer
        ≡ tabulate count (λ from. chain_from used.now lengths.now count from)) }
{
    let mut longer = Items::new(alloc);
    'units: for from in 0..count {
        longer.push(chain_from(used, lengths, count, from))?;
    }
    Ok(longer)
}

// A unit, and after it the longest chain that goes on at one that it uses.
fn chain_from(used: &Relation, lengths: &Items<usize>, count: usize, from: usize) -> usize
    ensures { result ≡ chain_from used.now lengths.now count from }
{
    let mut behind: usize = 0;
    'units: for to in 0..count {
        behind = behind.max(chain_through(used, lengths, from, to));
    }
    behind.saturating_add(1).min(LONGEST_CHAIN)
}

// The longest chain that goes on at a unit, if it is used.
fn chain_through(used: &Relation, lengths: &Items<usize>, from: usize, to: usize) -> usize
    ensures { result ≡ chain_through used.now lengths.now from to }
{
    if holds(used, from, to) {
        number_at(lengths, to)
    } else {
        0
    }
}

// A number of a list.
pub(crate) fn number_at(numbers: &Items<usize>, at: usize) -> usize
    ensures { result ≡ number_at numbers.now at }
{
    match numbers.as_slice().get(at) {
        Some(number) => *number,
        None => 0,
    }
}

// The slots of each task.
fn put_slots(
    alloc: Global,
    text: &mut String,
    form: Form,
    verified: &Verified,
) -> Result<(), AllocError>
    ensures { OnOk result (Puts text.old text.new (slots_rows form verified.now.config)) }
{
    'cars: for before in 0..verified.sizes().cars {
        put_task_slots(alloc, text, form, verified, before + 1)?;
    }
    put_task_slots(alloc, text, form, verified, 0)
}

// The slots of a task, if the group has it.
fn put_task_slots(
    alloc: Global,
    text: &mut String,
    form: Form,
    verified: &Verified,
    task: u8,
) -> Result<(), AllocError>
    requires { task ≤ (sizes_of verified.now.config).cars }
    ensures { OnOk result (Puts text.old text.new (task_slots form verified.now.config task)) }
{
    let _config = verified.config();
    if !verified.has_task(task) {
        return Ok(());
    }
    let slots = verified.opening_variables(task).numbers().len();
    put_slots_row(alloc, text, form, task, slots)
}

fn put_slots_row(
    alloc: Global,
    text: &mut String,
    form: Form,
    task: u8,
    slots: usize,
) -> Result<(), AllocError>
    ensures { OnOk result (Puts text.old text.new (slots_row form task slots)) }
{
    let mut name = String::new(alloc);
    put_task(&mut name, task)?;
    put_limit_in(alloc, text, form, "slots", slots, MOST_TASK_SLOTS, &name)
}

// The name of a task: 0 is GROUP, k is CARk.
fn put_task(text: &mut String, task: u8) -> Result<(), AllocError>
    ensures { OnOk result (Puts text.old text.new (task_name task)) }
{
    match task {
        0 => text.push_str("GROUP"),
        car => write!(text, "CAR{}", car),
    }
}
