// What the building sets of the plant.

ghost use Rattle.std.specs.Prelude.{◌≡◌};
ghost use Rattle.group_plant.specs.Switches.{opening_switches};

/// What the building sets of the plant: FIRE, and RUNLIMIT, that is how many cars may run.
#[derive(Clone, Copy)]
pub struct Switches {
    pub fire: bool,
    pub run_limit: u8,
}

impl Switches {
    /// As the plant of so many cars opens: no FIRE, and all of them may run.
    pub fn opening(cars: u8) -> Switches
        ensures { result ≡ opening_switches cars }
    {
        Switches {
            fire: false,
            run_limit: cars,
        }
    }
}
