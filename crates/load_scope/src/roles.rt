// The tasks of a group (own rule).

ghost use Rattle.std.specs.Prelude.{◌≡◌, pos, bytes_eq, codes, option_map};
ghost use Rattle.il_statics.specs.Names.{car_digits, task_role};
ghost use Rattle.load_scope.specs.Cars.{up_to, car_of};

use il_statics::names::Role;

/// The role of a task name in a group of so many cars; none where it names no task of the group.
pub fn task_role(cars: i64, name: &str) -> Option<Role>
    ensures { result ≡ task_role cars name.now }
{
    if is_group(name) {
        Some(Role::Group)
    } else if car_number(cars, name).is_some() {
        Some(Role::Car)
    } else {
        None
    }
}

// Whether a task name is the group's.
fn is_group(name: &str) -> bool
    ensures { result ≡ bytes_eq name.now (codes "GROUP") }
{
    name == "GROUP"
}

/// The number k of a task name CARk, if a group of so many cars has that car.
#[tactic(auto, unfolding(crate::specs::Cars::car_of))]
pub fn car_number(cars: i64, name: &str) -> Option<u64>
    ensures { result ≡ car_of cars name.now }
{
    let Ok(limit) = u64::try_from(cars) else {
        return None;
    };
    match name.as_bytes() {
        [b'C', b'A', b'R', digits @ ..] => number_of(digits, limit),
        _ => None,
    }
}

// The number of at most `limit` that has these digits, without a leading zero.
fn number_of(digits: &[u8], limit: u64) -> Option<u64>
    ensures { result ≡ up_to (pos limit) (car_digits digits.now) }
{
    if digits.is_empty() || digits[0] == b'0' {
        return None;
    }
    let mut total: u128 = 0;
    for digit in digits {
        if !digit.is_ascii_digit() {
            return None;
        }
        total = total * 10 + u128::from(*digit - b'0');
        if total > u128::from(limit) {
            return None;
        }
    }
    Some(total as u64)
}
