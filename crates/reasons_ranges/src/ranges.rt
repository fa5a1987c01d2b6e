// What is reported of faults of ranges.

ghost use Rattle.std.specs.Prelude.{◌≡◌, ◌≢◌, [], if◌then◌else◌, IfOk, IfSome, None, OnOk, Some, slice_get, string_bytes};
ghost use Rattle.base_texts.specs.Puts.{Puts};
ghost use Rattle.il_statics.specs.Faults.{BreaksDeclarations, Broken, Typing, HasNoFault};
ghost use Rattle.ranges_pass.specs.declared.fault.RangeFault.{RangeFault as FaultOf};
ghost use Rattle.ranges_pass.specs.RangeFaults.{range_fault_number};
ghost use Rattle.reasons_ranges.specs.RangeReasons.{fault_text, is_fault_at, IsUnitTold, AreUnitsTold, AreToldOfRanges};

use crate::range_arguments::put_arguments;
use crate::range_divisors::put_divisor;
use crate::range_indexes::put_indexes;
use crate::range_results::put_overflow;
use crate::range_stores::put_store;
use il_statics::{Found, PhaseFault};
use il_syntax::fault::Refusal;
use il_syntax::tree::{Instruction, Place, Step, Unit};
use load_order::Ordered;
use load_scope::{Scoped, UnitScope};
use load_text::unbroken;
use ranges_pass::{PlaceFacts, RangeFault, Witness, shown_unit};
use std::alloc::{AllocError, Global};

// Writes what is reported of the instruction at an offset, should it have a fault.
#[derive(Drop)]
struct Teller<'n> {
    unit: &'n UnitScope<'n>,
    fault: RangeFault,
    offset: u32,
    text: String,
}

impl Witness for Teller<'_> {
    ghost use Rattle.std.specs.Prelude.{string_bytes};
    ghost use Rattle.reasons_ranges.specs.RangeReasons.{told_step};

    ghost text = { λ t. string_bytes t.text };

    ghost shows = { λ t. told_step t.unit.now t.fault t.offset };

    fn reached(&mut self, step: &Step, known: &PlaceFacts) -> Result<(), AllocError> {
        if step.place.offset == self.offset {
            put_fault(
                &mut self.text,
                self.unit,
                self.fault,
                known,
                &step.instruction,
            )
        } else {
            Ok(())
        }
    }

    fn not_reached(&mut self, _step: &Step) -> Result<(), AllocError> {
        Ok(())
    }
}

// What is reported of an instruction that has a fault.
fn put_fault(
    text: &mut String,
    unit: &UnitScope,
    fault: RangeFault,
    known: &PlaceFacts,
    instruction: &Instruction,
) -> Result<(), AllocError>
    ensures { OnOk result (Puts text.old text.new
        (fault_text unit.now fault known.now instruction.now)) }
{
    match fault {
        RangeFault::Overflow => put_overflow(text, unit, known, instruction),
        RangeFault::ZeroDivisor => put_divisor(text, unit, known, instruction),
        RangeFault::Index => put_indexes(text, unit, known, instruction),
        RangeFault::Subrange => put_store(text, unit, known, instruction),
        RangeFault::Argument => put_arguments(text, unit, known, instruction),
    }
}

// Whether a fault has a number, and is at an offset.
fn is_fault_at(number: u16, offset: u32, found: &Option<Found<RangeFault>>) -> bool
    ensures { result ≡ is_fault_at number offset found.now }
{
    match found {
        Some(found) => found.number() == number && found.place().offset == offset,
        None => false,
    }
}

// A text, or nothing.
fn text_if(alloc: Global, there: bool, text: String) -> String
    ensures { string_bytes result ≡ (if there then string_bytes text else []) }
{
    if there { text } else { String::new(alloc) }
}

// What is reported of a unit.
fn unit_told(
    alloc: Global,
    names: &Scoped,
    at: usize,
    unit: &Unit,
    fault: RangeFault,
    place: Place,
) -> Result<String, AllocError>
    requires unit { slice_get names.now.units at ≡ Some unit.now }
    requires declared { HasNoFault (BreaksDeclarations names.now) }
    requires typed { HasNoFault (Broken Typing names.now) }
    ensures { IfOk result (λ t. IsUnitTold names.now unit.now fault place (string_bytes t)) }
{
    let scope = UnitScope::of(names, at, unit);
    let teller = Teller {
        unit: &scope,
        fault,
        offset: place.offset,
        text: String::new(alloc),
    };
    let (found, teller) = shown_unit(alloc, names, at, unit, teller)?;
    let Teller { text, .. } = teller;
    let there = is_fault_at(fault.number(), place.offset, &found);
    Ok(text_if(alloc, there, text))
}

// Adds a text.
fn append(text: &mut String, more: &String) -> Result<(), AllocError>
    ensures { OnOk result (Puts text.old text.new (string_bytes more.now)) }
{
    text.push_str(more.as_str())
}

// What is reported of all units.
fn units_told(
    alloc: Global,
    names: &Scoped,
    fault: RangeFault,
    place: Place,
) -> Result<String, AllocError>
    requires declared { HasNoFault (BreaksDeclarations names.now) }
    requires typed { HasNoFault (Broken Typing names.now) }
    ensures { IfOk result (λ t. AreUnitsTold names.now fault place names.now.units
        (string_bytes t)) }
{
    let units = names.config().units.as_slice();
    let mut text = String::new(alloc);
    'units: for at in 0..units.len() {
        let one = unit_told(alloc, names, at, &units[at], fault, place)?;
        append(&mut text, &one)?;
    }
    Ok(text)
}

// What is reported of a fault of ranges, in a configuration that breaks no earlier rule.
fn ordered_told(
    alloc: Global,
    ordered: &Ordered,
    fault: RangeFault,
    place: Place,
) -> Result<String, AllocError>
    ensures { IfOk result (λ t. AreUnitsTold ordered.now fault place ordered.now.units
        (string_bytes t)) }
{
    let _config = ordered.config();
    units_told(alloc, ordered.names(), fault, place)
}

// The fault of ranges with a number.
fn numbered(number: u16) -> Option<RangeFault>
    ensures some { IfSome result (λ fault. range_fault_number fault ≡ number) }
    ensures none { result ≡ None → (fault : FaultOf) → range_fault_number fault ≢ number }
{
    match number {
        40 => Some(RangeFault::Overflow),
        41 => Some(RangeFault::ZeroDivisor),
        42 => Some(RangeFault::Index),
        43 => Some(RangeFault::Subrange),
        44 => Some(RangeFault::Argument),
        _ => None,
    }
}

// What is reported of a text in which an instruction has a fault.
fn fault_told(
    alloc: Global,
    text: &[u8],
    fault: RangeFault,
    place: Place,
) -> Result<Vec<u8>, AllocError>
    ensures { IfOk result (λ lines.
        AreToldOfRanges text.now (range_fault_number fault) place lines.items) }
{
    match unbroken(alloc, text) {
        Ok(ordered) => {
            let told = ordered_told(alloc, &ordered, fault, place)?;
            Ok(told.into_bytes())
        }
        Err(Refusal::Memory) => Err(AllocError),
        Err(Refusal::Fault { .. }) => Ok(Vec::new(alloc)),
    }
}

/// What is reported of a text that was refused with a number at a place, by the ranges that are known there (own rule): of 40
/// both sides of an operator with what it gives, of 41 the divisor, of 42 each index that may lie outside with the array's
/// bounds, of 43 what is stored and the target with its type, of 44 each argument of an instance that may lie outside.
pub fn told(alloc: Global, text: &[u8], number: u16, place: Place) -> Result<Vec<u8>, AllocError>
    ensures { IfOk result (λ lines. AreToldOfRanges text.now number place lines.items) }
{
    match numbered(number) {
        Some(fault) => fault_told(alloc, text, fault, place),
        None => Ok(Vec::new(alloc)),
    }
}
