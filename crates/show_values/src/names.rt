// What the names of `watch` mean.

ghost use Rattle.std.specs.Prelude.{◌≡◌, ◌≤◌, ◌<◌, ◌∷◌, ◌++◌, [], ℕ, List, IfSome, IfOk, OnOk, IsNone, map, string_bytes};
ghost use Rattle.cli_host.specs.Requests.{words_of};
ghost use Rattle.group_spec.specs.Snapshot.{motor_number, task_name};
ghost use Rattle.show_values.specs.Names.{upper_case, word_of_shared, word_of_car_name, word_of_slot_name, value_in_car, IsReadIn, IsReadAs, IsInTask, IsIndex, IsOfSlot};
ghost use Rattle.show_values.specs.declared.names.Shared.{Shared};
ghost use Rattle.show_values.specs.declared.names.CarName.{CarName};
ghost use Rattle.show_values.specs.declared.names.SlotName.{SlotName};

use cli_host::request::{Words, number_to};
use group_spec::{CarFields, CarOutputs, MOST_CARS, Motor};
use scan_task::Value;
use std::alloc::{AllocError, Global};

// The most call slots of a group.
const MOST_SLOTS: u16 = 64;

/// A name of the image that all tasks share.
#[derive(Clone, Copy)]
pub enum Shared {
    /// The time, in milliseconds.
    Now,
    RunLimit,
    Fire,
}

/// A name of the image that each car has: what the plant reports of it, and its outputs.
#[derive(Clone, Copy)]
pub enum CarName {
    /// The floor, from 1 on.
    Pos,
    Level,
    Top,
    Bottom,
    Locked,
    Opened,
    /// 1 is up, -1 is down.
    Motor,
    Open,
    /// The slot that its last commit asked to serve, or 0.
    Serve,
}

/// A name of the image that each call slot has.
#[derive(Clone, Copy)]
pub enum SlotName {
    /// Whether its call waits for a car.
    Waits,
    /// The floors of its call, or 0.
    From,
    To,
    /// The car that its call was told to, or 0.
    Car,
    /// The car that GROUP's last commit asked to tell it to, or 0.
    Assign,
}

/// What a name means. A task is 0 for GROUP and k for CARk, and slots count from 1.
#[derive(Clone, Copy)]
pub enum Watched<'n> {
    Shared(Shared),
    Slot(SlotName, u8),
    Car(u8, CarName),
    /// A variable of a task, by its path.
    Variable(u8, &'n str),
    /// A global, by its path.
    Global(&'n str),
}

// A task, and what follows its name and a period.
#[derive(Clone, Copy)]
struct InTask<'n> {
    task: u8,
    rest: &'n str,
}

// A name of a call slot.
#[derive(Clone, Copy)]
struct OfSlot {
    name: SlotName,
    slot: u8,
}

impl Shared {
    // The name of a word.
    fn of(word: &str) -> Option<Shared>
        ensures some { IfSome result (λ shared. word.now ≡ word_of_shared shared) }
        ensures none { IsNone result → (shared : Shared) → word.now ≡ word_of_shared shared → ⊥ }
    {
        match word {
            "NOW" => Some(Shared::Now),
            "RUNLIMIT" => Some(Shared::RunLimit),
            "FIRE" => Some(Shared::Fire),
            _ => None,
        }
    }
}

impl CarName {
    // The name of a word.
    fn of(word: &str) -> Option<CarName>
        ensures some { IfSome result (λ name. word.now ≡ word_of_car_name name) }
        ensures none { IsNone result → (name : CarName) → word.now ≡ word_of_car_name name → ⊥ }
    {
        match word {
            "POS" => Some(CarName::Pos),
            "LEVEL" => Some(CarName::Level),
            "TOP" => Some(CarName::Top),
            "BOTTOM" => Some(CarName::Bottom),
            "LOCKED" => Some(CarName::Locked),
            "OPENED" => Some(CarName::Opened),
            "MOTOR" => Some(CarName::Motor),
            "OPEN" => Some(CarName::Open),
            "SERVE" => Some(CarName::Serve),
            _ => None,
        }
    }
}

/// What the plant reports of a car, its outputs, and the slot that it asked to serve.
pub(crate) fn value_in_car(
    name: CarName,
    serve: u8,
    fields: &CarFields,
    outputs: &CarOutputs,
) -> Value
    ensures { result ≡ value_in_car name serve fields.now outputs.now }
{
    match name {
        CarName::Pos => Value::Integer(i64::from(fields.pos)),
        CarName::Level => Value::Boolean(fields.level),
        CarName::Top => Value::Boolean(fields.top),
        CarName::Bottom => Value::Boolean(fields.bottom),
        CarName::Locked => Value::Boolean(fields.locked),
        CarName::Opened => Value::Boolean(fields.opened),
        CarName::Motor => Value::Integer(number_of(outputs.motor)),
        CarName::Open => Value::Boolean(outputs.opens),
        CarName::Serve => Value::Integer(i64::from(serve)),
    }
}

// A motor as a number: 1 is up, -1 is down.
fn number_of(motor: Motor) -> i64
    ensures { result ≡ motor_number motor }
{
    match motor {
        Motor::Up => 1,
        Motor::Down => -1,
        Motor::Still => 0,
    }
}

impl SlotName {
    /// The word of the array.
    pub fn word(self) -> &'static str
        ensures { result.now ≡ word_of_slot_name self }
    {
        match self {
            SlotName::Waits => "CALLWAITS",
            SlotName::From => "CALLFROM",
            SlotName::To => "CALLTO",
            SlotName::Car => "CALLCAR",
            SlotName::Assign => "GROUP.ASSIGN",
        }
    }

    // The name of a word.
    fn of(word: &str) -> Option<SlotName>
        ensures some { IfSome result (λ name. word.now ≡ word_of_slot_name name) }
        ensures none { IsNone result → (name : SlotName) → word.now ≡ word_of_slot_name name → ⊥ }
    {
        match word {
            "CALLWAITS" => Some(SlotName::Waits),
            "CALLFROM" => Some(SlotName::From),
            "CALLTO" => Some(SlotName::To),
            "CALLCAR" => Some(SlotName::Car),
            "GROUP.ASSIGN" => Some(SlotName::Assign),
            _ => None,
        }
    }
}

/// Names in upper case, as the language reads them.
pub fn upper_names(alloc: Global, names: Words<'_>) -> Result<Vec<String>, AllocError>
    ensures { IfOk result (λ upper. map string_bytes upper.items
        ≡ map upper_case (words_of names.entry)) }
{
    let mut upper = Vec::new(alloc);
    add_upper(alloc, &mut upper, names.front)?;
    add_upper(alloc, &mut upper, names.middle)?;
    add_upper(alloc, &mut upper, names.back)?;
    Ok(upper)
}

fn add_upper(alloc: Global, upper: &mut Vec<String>, names: &[String]) -> Result<(), AllocError>
    ensures { OnOk result (map string_bytes upper.new.items ≡ map string_bytes upper.old.items
        ++ map upper_case (map string_bytes names.now)) }
{
    'names: for name in names {
        upper.push(name.to_ascii_uppercase(alloc)?)?;
    }
    Ok(())
}

/// What a name means: a name of the image or of one of its call slots, otherwise a variable of the task whose name comes before
/// its first period, and otherwise a global.
pub fn read(name: &str) -> Watched<'_>
    ensures { IsReadAs name.now result }
{
    if let Some(shared) = Shared::of(name) {
        return Watched::Shared(shared);
    }
    if let Some(it) = of_slot(name) {
        return Watched::Slot(it.name, it.slot);
    }
    match in_task(name) {
        Some(it) => read_in(it.task, it.rest),
        None => Watched::Global(name),
    }
}

// The array of the call slots before the first bracket, and the slot in it.
fn of_slot(name: &str) -> Option<OfSlot>
    ensures some { IfSome result (λ it. IsOfSlot name.now it.name it.slot) }
    ensures none { IsNone result → (it : SlotName) (slot : ℕ) → IsOfSlot name.now it slot → ⊥ }
{
    let (front, rest) = name.split_once('[')?;
    let array = SlotName::of(front)?;
    let slot = slot_of(rest)?;
    Some(OfSlot { name: array, slot })
}

// The number of a slot, in front of the closing bracket.
fn slot_of(rest: &str) -> Option<u8>
    ensures some { IfSome result (IsIndex rest.now) }
    ensures none { IsNone result → (slot : ℕ) → IsIndex rest.now slot → ⊥ }
{
    let digits = rest.strip_suffix(']')?;
    let slot = number_to(MOST_SLOTS, digits)?;
    Some(slot as u8)
}

// What a name means after that of a task.
fn read_in(task: u8, rest: &str) -> Watched<'_>
    ensures { IsReadIn task rest.now result }
{
    match CarName::of(rest) {
        Some(name) if task > 0 => Watched::Car(task, name),
        _ => Watched::Variable(task, rest),
    }
}

// The task whose name comes before the first period.
fn in_task(name: &str) -> Option<InTask<'_>>
    ensures some { IfSome result (λ it. IsInTask name.now it.task it.rest.now) }
    ensures none { IsNone result → (task : ℕ) (rest : List ℕ) → IsInTask name.now task rest → ⊥ }
{
    let (front, rest) = name.split_once('.')?;
    let task = task_of(front)?;
    Some(InTask { task, rest })
}

/// The task of a name: 0 is GROUP, k is CARk.
pub fn task_of(word: &str) -> Option<u8>
    ensures some { IfSome result (λ task. (task ≤ MOST_CARS) × (word.now ≡ task_name task)) }
    ensures none { IsNone result → (task : ℕ) → task ≤ MOST_CARS → word.now ≡ task_name task → ⊥ }
{
    match word {
        "GROUP" => Some(0),
        "CAR1" => Some(1),
        "CAR2" => Some(2),
        "CAR3" => Some(3),
        "CAR4" => Some(4),
        "CAR5" => Some(5),
        "CAR6" => Some(6),
        "CAR7" => Some(7),
        "CAR8" => Some(8),
        _ => None,
    }
}
