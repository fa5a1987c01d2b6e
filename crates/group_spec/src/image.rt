// The process image: what the plant reports, and the outputs that it gets.

ghost use Rattle.std.specs.Prelude.{◌≡◌};
ghost use Rattle.group_spec.specs.Image.{runs};

use crate::outputs::Outputs;
use base_lists::Bounded;
use il_statics::limits;

/// The most cars that a group may have (own rule).
pub const MOST_CARS: u8 = limits::MOST_CARS;

/// The places of so many cars.
pub const CAR_PLACES: usize = MOST_CARS as usize;

/// The places of the tasks of such a group: GROUP, and one for each car.
pub const TASK_PLACES: usize = CAR_PLACES + 1;

/// The places of the call slots that a group may have (own rule).
pub const SLOT_PLACES: usize = limits::MOST_SLOTS as usize;

/// How many cars, floors and call slots a group has.
#[derive(Clone, Copy)]
pub struct Sizes {
    pub cars: u8,
    pub floors: u8,
    pub slots: u8,
}

/// A motor: 1 is up, -1 is down, 0 is still.
#[derive(Clone, Copy, Debug, Default, PartialEq, Eq)]
pub enum Motor {
    Up,
    Down,
    #[default]
    Still,
}

impl Motor {
    /// Whether it runs.
    pub fn runs(self) -> bool
        ensures { result ≡ runs self }
    {
        match self {
            Motor::Up | Motor::Down => true,
            Motor::Still => false,
        }
    }
}

/// What the plant reports of a car.
#[derive(Clone, Copy, Debug, Default, PartialEq, Eq)]
pub struct CarFields {
    pub pos: u8,
    pub level: bool,
    pub top: bool,
    pub bottom: bool,
    pub locked: bool,
    pub opened: bool,
}

/// The outputs of a car: its motor, and whether its door is to be open.
#[derive(Clone, Copy, Debug, Default, PartialEq, Eq)]
pub struct CarOutputs {
    pub motor: Motor,
    pub opens: bool,
}

/// The fields of all cars, car 1 first, with NOW in milliseconds, RUNLIMIT and FIRE.
#[derive(Drop)]
pub struct Fields {
    pub time: u32,
    pub run_limit: u8,
    pub fire: bool,
    pub cars: Bounded<CarFields, CAR_PLACES>,
}

impl Fields {
    /// A copy.
    pub fn copied(&self) -> Fields
        ensures { result ≡ self.now }
    {
        let _fits = self.cars.len();
        Fields {
            time: self.time,
            run_limit: self.run_limit,
            fire: self.fire,
            cars: Bounded::from_slice(self.cars.as_slice()),
        }
    }
}

/// The fields, and the committed outputs of all cars, car 1 first.
#[derive(Drop)]
pub struct Image {
    pub fields: Fields,
    pub outputs: Outputs,
}

/// What a car's program asks for at the end of a scan: a motor, an open door, and the call slot to serve, 0 for none.
#[derive(Clone, Copy)]
pub struct Wishes {
    pub motor: Motor,
    pub opens: bool,
    pub serve: u8,
}
