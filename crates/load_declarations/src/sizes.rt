// The rules of the sizes of a group (own rule).

ghost use Rattle.std.specs.Prelude.{◌≡◌};
ghost use Rattle.load_declarations.specs.Sizes.{size_of, sizes_found};

use crate::fault::DeclareFault;
use il_statics::limits::{MOST_CARS, MOST_FLOORS, MOST_SLOTS};
use il_statics::{Found, earlier, fault_if};
use il_syntax::tree::{Config, Size};

/// The first size outside its limits.
pub fn sizes_fault(config: &Config) -> Option<Found<DeclareFault>>
    ensures { result ≡ sizes_found config.now }
{
    earlier(
        size_fault(config.cars, 1, i64::from(MOST_CARS)),
        earlier(
            size_fault(config.floors, 2, i64::from(MOST_FLOORS)),
            size_fault(config.slots, 1, i64::from(MOST_SLOTS)),
        ),
    )
}

// Where a size is outside these limits.
fn size_fault(size: Size, lower: i64, upper: i64) -> Option<Found<DeclareFault>>
    ensures { result ≡ size_of size lower upper }
{
    fault_if(
        !(lower..=upper).contains(&size.value),
        DeclareFault::InitOutOfRange,
        size.place,
    )
}
