// What the rules ask of one motor.

ghost use Rattle.std.specs.Prelude.{◌≡◌};
ghost use Rattle.group_spec.specs.Settle.{reverses, is_at_end, is_fire_up, granted};

use group_spec::report::Rule;
use group_spec::{CarFields, Motor};

/// From a committed motor to the opposite one.
pub fn reverses(committed: Motor, wish: Motor) -> bool
    ensures { result ≡ reverses committed wish }
{
    match (committed, wish) {
        (Motor::Up, Motor::Down) | (Motor::Down, Motor::Up) => true,
        _ => false,
    }
}

/// Up at the top, or down at the bottom.
pub fn is_at_end(car: CarFields, motor: Motor) -> bool
    ensures { result ≡ is_at_end car motor }
{
    match motor {
        Motor::Up => car.top,
        Motor::Down => car.bottom,
        Motor::Still => false,
    }
}

/// Up while FIRE holds.
pub fn is_fire_up(fire: bool, motor: Motor) -> bool
    ensures { result ≡ is_fire_up fire motor }
{
    match motor {
        Motor::Up => fire,
        Motor::Down | Motor::Still => false,
    }
}

/// The motor that is left of a wish: still where a rule denies it.
pub fn granted(wish: Motor, denial: Option<Rule>) -> Motor
    ensures { result ≡ granted wish denial }
{
    match denial {
        None => wish,
        Some(_) => Motor::Still,
    }
}
