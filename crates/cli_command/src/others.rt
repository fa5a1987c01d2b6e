// The first faults of the other units of a refused text.

ghost use Rattle.std.specs.Prelude.{◌≡◌, flat_map, IfOk, OnOk, ◌++◌};
ghost use Rattle.cli_command.specs.Others.{AreOthers, is_named, unless_named};

use cli_shell::commands::OtherFault;
use il_syntax::tree::Place;
use load_text::{UnitFault, unit_faults};
use std::alloc::{AllocError, Global};

/// The first faults of the units of a text, but for the one that is named, in the order of the units.
pub fn others(
    alloc: Global,
    text: &[u8],
    number: u16,
    place: Place,
) -> Result<Vec<OtherFault>, AllocError>
    ensures { IfOk result (λ others. AreOthers text.now number place others.items) }
{
    let faults = unit_faults(alloc, text)?;
    unnamed(alloc, &faults, number, place)
}

// Faults without the one that is named.
fn unnamed(
    alloc: Global,
    faults: &[UnitFault],
    number: u16,
    place: Place,
) -> Result<Vec<OtherFault>, AllocError>
    ensures { IfOk result (λ others. others.items
        ≡ flat_map (unless_named number place) faults.now) }
{
    let mut others = Vec::new(alloc);
    'faults: for fault in faults {
        put_unnamed(&mut others, *fault, number, place)?;
    }
    Ok(others)
}

// Adds a fault, unless it is the one that is named.
fn put_unnamed(
    others: &mut Vec<OtherFault>,
    fault: UnitFault,
    number: u16,
    place: Place,
) -> Result<(), AllocError>
    ensures { OnOk result (others.new.items ≡ others.old.items ++ unless_named number place fault) }
{
    if !is_named(fault, number, place) {
        others.push(OtherFault {
            number: fault.number,
            place: fault.place,
        })?;
    }
    Ok(())
}

// Whether a fault is the one that is named.
fn is_named(fault: UnitFault, number: u16, place: Place) -> bool
    ensures { result ≡ is_named number place fault }
{
    fault.number == number && fault.place.offset == place.offset
}
