// What is reported of a unit that costs too much (50): what its most expensive path runs.

ghost use Rattle.std.specs.Prelude.{◌≡◌, ◌==◌, ◌++◌, [], if◌then◌else◌, flat_map, map, slice_get, IfOk, OnOk};
ghost use Rattle.base_texts.specs.Puts.{Puts};
ghost use Rattle.load_budgets.specs.Rounds.{unit_ways, line_at};
ghost use Rattle.reasons_faults.specs.CostReasons.{costs_of, places_by, is_callee, is_run_by, run_at, runs_of, costs_text, once_text, often_text, run_line, runs_lines, own_line, most_lines, heading_lines, AreToldOfCosts};

use base_lists::Items;
use il_syntax::tree::{Body, Place, Unit};
use load_budgets::costs::{all_ways, longest};
use load_budgets::table::{MOST, Rest, number_at, rest_up, rests};
use load_budgets::ways::Way;
use load_scope::Scoped;
use reasons_names::writing::put_two;
use std::alloc::{AllocError, Global};

/// What is reported of the unit at a heading (own rule): of each own unit that its most expensive path runs what it costs, how often
/// it is run and the line of the first time; and how many instructions of its own are on the path.
pub(crate) fn told(alloc: Global, names: &Scoped, place: Place) -> Result<Vec<u8>, AllocError>
    ensures { IfOk result (λ lines. AreToldOfCosts names.now place lines.items) }
{
    let all = all_ways(alloc, names)?;
    let costs = longest(alloc, &all)?;
    let mut text = String::new(alloc);
    put_units(alloc, &mut text, names, &all, &costs, place.offset)?;
    Ok(text.into_bytes())
}

// Of the unit whose heading follows so many bytes.
fn put_units(
    alloc: Global,
    text: &mut String,
    names: &Scoped,
    all: &Items<Items<Way>>,
    costs: &Items<u32>,
    offset: u32,
) -> Result<(), AllocError>
    requires ways { all.now ≡ map (unit_ways names.now) names.now.units }
    requires costs { costs.now ≡ costs_of names.now }
    ensures { OnOk result (Puts text.old text.new
        (flat_map (heading_lines names.now offset) names.now.units)) }
{
    let units = names.config().units.as_slice();
    let all = all.as_slice();
    'units: for at in 0..units.len() {
        put_heading(alloc, text, units, costs, &units[at], &all[at], offset)?;
    }
    Ok(())
}

// A unit, if its heading is there.
fn put_heading(
    alloc: Global,
    text: &mut String,
    units: &[Unit],
    costs: &Items<u32>,
    unit: &Unit,
    ways: &Items<Way>,
    offset: u32,
) -> Result<(), AllocError>
    ensures { OnOk result (Puts text.old text.new
        (if unit.now.place.offset == offset then most_lines units.now costs.now unit.now ways.now
        else [])) }
{
    if unit.place.offset == offset {
        put_most(alloc, text, units, costs, unit, ways)
    } else {
        Ok(())
    }
}

// What the most expensive path of a unit runs.
fn put_most(
    alloc: Global,
    text: &mut String,
    units: &[Unit],
    costs: &Items<u32>,
    unit: &Unit,
    ways: &Items<Way>,
) -> Result<(), AllocError>
    ensures { OnOk result (Puts text.old text.new
        (most_lines units.now costs.now unit.now ways.now)) }
{
    let rests = rests(alloc, ways.as_slice(), costs.as_slice())?;
    let places = places(alloc, rests.as_slice())?;
    let path = Path {
        body: &unit.body,
        ways: ways.as_slice(),
        places: places.as_slice(),
    };
    put_runs(alloc, text, units, costs.as_slice(), path)?;
    put_own(text, unit.name.name.as_str(), places.as_slice().len())
}

// A path through a body.
#[derive(Clone, Copy)]
struct Path<'p> {
    body: &'p Body,
    ways: &'p [Way],
    places: &'p [usize],
}

// The places of the path that begins at the first.
fn places(alloc: Global, rests: &[Rest]) -> Result<Items<usize>, AllocError>
    ensures { IfOk result (λ places. places ≡ places_by rests.now) }
{
    let mut places = Items::new(alloc);
    let mut at = Some(0);
    'places: for _passed in 0..rests.len() {
        match at {
            Some(place) => {
                places.push(place)?;
                at = rest_up(rests, place).next;
            }
            None => return Ok(places),
        }
    }
    Ok(places)
}

// Each own unit that a path runs.
fn put_runs(
    alloc: Global,
    text: &mut String,
    units: &[Unit],
    costs: &[u32],
    path: Path<'_>,
) -> Result<(), AllocError>
    ensures { OnOk result (Puts text.old text.new
        (runs_lines costs.now path.entry.body.now path.entry.ways.now path.entry.places.now 0
        units.now)) }
{
    'units: for (number, unit) in units.iter().enumerate() {
        let runs = runs_of(alloc, path, number)?;
        let name = unit.name.name.as_str();
        put_run(
            text,
            path.body,
            name,
            number_at(costs, number),
            runs.as_slice(),
        )?;
    }
    Ok(())
}

// The places of a path that run the unit of a number.
fn runs_of(alloc: Global, path: Path<'_>, number: usize) -> Result<Vec<usize>, AllocError>
    ensures { IfOk result (λ runs. runs.items
        ≡ runs_of path.entry.ways.now path.entry.places.now number) }
{
    let mut runs = Vec::new(alloc);
    'places: for place in path.places {
        push_run(&mut runs, number, way_at(path.ways, *place), *place)?;
    }
    Ok(runs)
}

// The way of the instruction at a place, if there is one.
fn way_at(ways: &[Way], place: usize) -> Option<Way>
    ensures { result ≡ slice_get ways.now place }
{
    ways.get(place).copied()
}

// Adds a place whose instruction runs the unit of a number.
fn push_run(
    runs: &mut Vec<usize>,
    number: usize,
    way: Option<Way>,
    place: usize,
) -> Result<(), AllocError>
    ensures { OnOk result (runs.new.items ≡ runs.old.items ++ run_at number way place) }
{
    if !is_run_by(number, way) {
        return Ok(());
    }
    runs.push(place)?;
    Ok(())
}

// Whether an instruction runs the unit of a number.
fn is_run_by(number: usize, way: Option<Way>) -> bool
    ensures { result ≡ is_run_by number way }
{
    match way {
        Some(Way::Next { callee }) => is_callee(number, callee),
        _ => false,
    }
}

fn is_callee(number: usize, callee: Option<usize>) -> bool
    ensures { result ≡ is_callee number callee }
{
    match callee {
        Some(callee) => callee == number,
        None => false,
    }
}

// `F costs 500 and is run 2000 times, first in line 7`, by the places that run it.
fn put_run(
    text: &mut String,
    body: &Body,
    name: &str,
    cost: u32,
    runs: &[usize],
) -> Result<(), AllocError>
    ensures { OnOk result (Puts text.old text.new (run_line body.now name.now cost runs.now)) }
{
    match runs {
        [] => Ok(()),
        [first] => {
            put_costs(text, name, cost)?;
            put_once(text, line_at(body, *first))
        }
        [first, ..] => {
            put_costs(text, name, cost)?;
            put_often(text, runs.len(), line_at(body, *first))
        }
    }
}

// `F costs 500`
#[tactic(auto, unfolding(crate::specs::CostReasons::costs_text))]
fn put_costs(text: &mut String, name: &str, cost: u32) -> Result<(), AllocError>
    ensures { OnOk result (Puts text.old text.new (costs_text name.now cost)) }
{
    if cost > MOST {
        put_two(text, name, " costs more than 1000000")
    } else {
        write!(text, "{} costs {}", name, cost)
    }
}

// ` and is run once, in line 7`
#[tactic(auto, unfolding(crate::specs::CostReasons::once_text))]
fn put_once(text: &mut String, line: u32) -> Result<(), AllocError>
    ensures { OnOk result (Puts text.old text.new (once_text line)) }
{
    writeln!(text, " and is run once, in line {}", line)
}

// ` and is run 2000 times, first in line 7`
#[tactic(auto, unfolding(crate::specs::CostReasons::often_text))]
fn put_often(text: &mut String, times: usize, line: u32) -> Result<(), AllocError>
    ensures { OnOk result (Puts text.old text.new (often_text times line)) }
{
    writeln!(text, " and is run {} times, first in line {}", times, line)
}

// The line of a place: after the last instruction that of the END word.
fn line_at(body: &Body, place: usize) -> u32
    ensures { result ≡ line_at body.now place }
{
    match body.steps.as_slice().get(place) {
        Some(step) => step.place.line,
        None => body.end.line,
    }
}

// `instructions of C itself: 2003`
fn put_own(text: &mut String, name: &str, count: usize) -> Result<(), AllocError>
    ensures { OnOk result (Puts text.old text.new (own_line name.now count)) }
{
    writeln!(text, "instructions of {} itself: {}", name, count)
}
