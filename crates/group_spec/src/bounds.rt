// The process image: what the plant reports, the outputs of the cars, and which fields are in range.

ghost use Rattle.std.specs.Prelude.{◌≡◌, ◌↔◌, IsTrue};
ghost use Rattle.group_spec.specs.declared.image.Sizes.{Sizes};
ghost use Rattle.group_spec.specs.declared.image.Fields.{Fields};
ghost use Rattle.group_spec.specs.Image.{is_floor, positions_in_range, fields_in_range, FieldsInRange};

use crate::image::{CarFields, CarOutputs, Fields, Image, Motor, Sizes};
use crate::outputs::Outputs;
use base_lists::Bounded;

// The greatest NOW, in milliseconds (own rule).
const LATEST: u32 = 2_147_483_647;

/// Whether a number is that of a floor of the group (own rule).
pub fn is_floor(floor: u8, sizes: Sizes) -> bool
    ensures { result ≡ is_floor sizes floor }
{
    1 <= floor && floor <= sizes.floors
}

// Whether each car stands at a floor of the group.
fn positions_in_range(cars: &[CarFields], sizes: Sizes) -> bool
    ensures { result ≡ positions_in_range sizes cars.now }
{
    for car in cars {
        if !is_floor(car.pos, sizes) {
            return false;
        }
    }
    true
}

/// Whether fields lie in their ranges in a group of these sizes: as many cars, each at a floor, NOW a TIME and
/// RUNLIMIT at most the number of cars (own rule). Fields outside are fault 60 of an event.
pub fn in_range(fields: &Fields, sizes: Sizes) -> bool
    ensures { result ≡ fields_in_range sizes fields.now }
{
    fields.cars.as_slice().len() == sizes.cars as usize
        && (positions_in_range(fields.cars.as_slice(), sizes)
            && (fields.time <= LATEST && fields.run_limit <= sizes.cars))
}

/// A law: the test of fields says whether they lie in their ranges.
#[tactic(auto, using(crate::proofs::Laws::range_test))]
pub fn range_is_tested()
    ensures { (sizes : Sizes) (fields : Fields) → IsTrue (fields_in_range sizes fields)
        ↔ FieldsInRange sizes fields }
{}
