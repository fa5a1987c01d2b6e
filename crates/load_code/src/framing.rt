// The frames of functions in a task.

ghost use Rattle.std.specs.Prelude.{◌≡◌, List, ◌++◌, ◌&&◌, [], Some, length, map, slice_get, IfOk, OnOk};
ghost use Rattle.il_syntax.specs.declared.tree.Unit.{Unit as ProgramUnit};
ghost use Rattle.il_statics.specs.Names.{is_function};
ghost use Rattle.il_semantics.specs.Meaning.{Entity, own_entities};
ghost use Rattle.load_slots.specs.Flattened.{function_entities};
ghost use Rattle.load_code.specs.Laying.{openings_to, openings_of, has_frame, with_frame, with_frames, no_frames, base_or};
ghost use Rattle.load_slots.specs.Making.{shown};

use crate::laying::{Blocks, Opening, add_variables};
use base_lists::Items;
use il_syntax::tree::{Unit, UnitKind};
use load_order::Ordered;
use load_slots::variables::{Variable, function_variables, own_variables};
use std::alloc::{AllocError, Global};

// How deep instances are in one another at most.
const DEPTH: usize = 16;

/// The slots of the functions that a task uses, and where the frame of each unit begins, if it has one.
#[derive(Drop)]
pub struct Frames {
    pub openings: Items<Opening>,
    pub bases: Items<Option<usize>>,
}

/// Adds the slots of variables of the body at a path, with those of instances so many deep.
pub fn add_openings(
    alloc: Global,
    blocks: &Blocks,
    openings: &mut Items<Opening>,
    depth: usize,
    path: &str,
    list: &[Variable],
) -> Result<(), AllocError>
    ensures { OnOk result ((es : List Entity) → list.now ≡ map (shown blocks.now.names.now) es
        → openings.new ≡ openings.old ++ openings_to depth blocks.now.names.now path.now es) }
{
    add_variables(alloc, blocks, openings, depth, path, list)
}

// Adds the slots of a function.
fn add_function(
    alloc: Global,
    blocks: &Blocks,
    openings: &mut Items<Opening>,
    unit: &Unit,
) -> Result<(), AllocError>
    ensures { OnOk result (openings.new ≡ openings.old
        ++ openings_of blocks.now.names.now unit.now.name.name (function_entities unit.now)) }
{
    let list = function_variables(alloc, blocks.names, unit)?;
    let path = unit.name.name.as_str();
    add_openings(alloc, blocks, openings, DEPTH, path, list.as_slice())
}

// Adds a unit, which has a frame or not.
fn add_frame(
    alloc: Global,
    blocks: &Blocks,
    frames: &mut Frames,
    unit: &Unit,
    framed: bool,
) -> Result<(), AllocError>
    ensures { OnOk result (frames.new ≡ with_frame blocks.now.names.now frames.old unit.now
        framed) }
{
    if !framed {
        return frames.bases.push(None);
    }
    let base = frames.openings.as_slice().len();
    frames.bases.push(Some(base))?;
    add_function(alloc, blocks, &mut frames.openings, unit)
}

// Whether a unit is a function, and used.
fn is_framed(unit: &Unit, used: bool) -> bool
    ensures { result ≡ (is_function unit.now && used) }
{
    match unit.kind {
        UnitKind::Function(..) => used,
        _ => false,
    }
}

// Whether a unit has a frame in the task of the program of a number: it is a function that the program uses (IEC 61131-3:2003, 2.5).
fn has_frame(ordered: &Ordered, program: usize, at: usize, unit: &Unit) -> bool
    requires { slice_get ordered.now.units at ≡ Some unit.now }
    ensures { (p : ProgramUnit) → slice_get ordered.now.units program ≡ Some p → result
        ≡ has_frame ordered.now p unit.now }
{
    let _config = ordered.config();
    is_framed(unit, ordered.needs(program, at))
}

/// The units that have a frame in the task of the program of a number.
pub fn framed_units(
    alloc: Global,
    ordered: &Ordered,
    program: usize,
) -> Result<Items<bool>, AllocError>
    ensures count { IfOk result (λ r. length r ≡ length ordered.now.units) }
    ensures framed { IfOk result (λ r. (p : ProgramUnit) → slice_get ordered.now.units program
        ≡ Some p → r ≡ map (has_frame ordered.now p) ordered.now.units) }
{
    let units = ordered.config().units.as_slice();
    let mut framed = Items::new(alloc);
    'units: for at in 0..units.len() {
        framed.push(has_frame(ordered, program, at, &units[at]))?;
    }
    Ok(framed)
}

/// The frames of the units that have one.
pub fn frames_of(alloc: Global, blocks: &Blocks, framed: &[bool]) -> Result<Frames, AllocError>
    requires { length framed.now ≡ length blocks.now.names.now.units }
    ensures { IfOk result (λ f. f ≡ with_frames blocks.now.names.now no_frames
        blocks.now.names.now.units framed.now) }
{
    let units = blocks.names.config().units.as_slice();
    let mut frames = Frames {
        openings: Items::new(alloc),
        bases: Items::new(alloc),
    };
    'units: for at in 0..units.len() {
        add_frame(alloc, blocks, &mut frames, &units[at], framed[at])?;
    }
    Ok(frames)
}

/// The base of each unit; of one without a frame the end of all.
pub fn bases_of(
    alloc: Global,
    bases: &[Option<usize>],
    end: usize,
) -> Result<Items<usize>, AllocError>
    ensures { IfOk result (λ bs. bs ≡ map (base_or end) bases.now) }
{
    let mut all = Items::new(alloc);
    for base in bases {
        all.push(base_or(end, *base))?;
    }
    Ok(all)
}

// A base, or the end where there is none.
fn base_or(end: usize, base: Option<usize>) -> usize
    ensures { result ≡ base_or end base }
{
    match base {
        Some(base) => base,
        None => end,
    }
}

/// Adds the slots of a program's own variables.
pub fn add_own(
    alloc: Global,
    blocks: &Blocks,
    openings: &mut Items<Opening>,
    unit: &Unit,
) -> Result<(), AllocError>
    ensures { OnOk result (openings.new ≡ openings.old
        ++ openings_of blocks.now.names.now [] (own_entities unit.now)) }
{
    let list = own_variables(alloc, blocks.names, unit)?;
    add_openings(alloc, blocks, openings, DEPTH, "", list.as_slice())
}
