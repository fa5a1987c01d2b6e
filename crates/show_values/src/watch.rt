// What `watch` prints.

ghost use Rattle.std.specs.Prelude.{◌≡◌, [], None, flat_map, IfOk, IfErr, OnOk, is_some, map, string_bytes, codes, pos};
ghost use Rattle.base_texts.specs.Puts.{Puts};
ghost use Rattle.group_spec.specs.Snapshot.{from_of, to_of, car_of};
ghost use Rattle.group_spec.specs.World.{task_at};
ghost use Rattle.show_values.specs.Asked.{nothing_asked};
ghost use Rattle.show_values.specs.Values.{shared_value, car_value_in, value_in_slot, has_slot_name, slot_value_at, slot_value_in, value_of, value_text, names_text, values_text, row_text, header_text, AreWatched, IsUnnamed};

use crate::asked::Asked;
use crate::names::{CarName, Shared, SlotName, Watched, read, value_in_car};
use crate::unnamed::unnamed_sentence;
use base_lists::Items;
use cli_host::status::Fault;
use group_rounds::observer::Observer;
use group_spec::calls::Slot;
use group_spec::report::Report;
use group_spec::{Fields, Image};
use group_world::World;
use scan_task::Value;
use std::alloc::{AllocError, Global};

/// Writes the values of names after each round, as lines of CSV.
#[derive(Drop)]
pub struct Watch<'n> {
    /// What the names mean.
    pub watched: Items<Watched<'n>>,
    /// What the commits so far asked for.
    pub asked: Asked,
    /// The lines so far.
    pub text: String,
}

impl<'n> Watch<'n> {
    /// Of these names, which have values in the world. The line of the names is written.
    pub fn of(alloc: Global, world: &World, names: &'n [String]) -> Result<Watch<'n>, Fault>
        ensures known { IfOk result (λ watch. AreWatched world.now.world
            (map string_bytes names.now) watch.watched) }
        ensures asked { IfOk result (λ watch. watch.asked ≡ nothing_asked) }
        ensures header { IfOk result (λ watch. string_bytes watch.text
            ≡ header_text (map string_bytes names.now)) }
        ensures unknown { IfErr result (IsUnnamed world.now.program.config world.now.world
            (map string_bytes names.now)) }
    {
        let watched = watched_of(alloc, world, names)?;
        let text = header(alloc, names)?;
        Ok(Watch {
            watched,
            asked: Asked::new(),
            text,
        })
    }
}

impl Observer for Watch<'_> {
    ghost use Rattle.std.specs.Prelude.{string_bytes};
    ghost use Rattle.show_values.specs.Values.{watching_behind};

    ghost text = { λ w. string_bytes w.text };

    ghost shows = { λ w. watching_behind w.asked w.watched };

    fn refreshed(&mut self, _round: u16, _report: &Report) -> Result<(), AllocError> {
        Ok(())
    }

    fn committed(&mut self, _round: u16, task: u8, report: &Report) -> Result<(), AllocError> {
        self.asked.commit(task, report);
        Ok(())
    }

    fn ended(&mut self, round: u16, world: &World) -> Result<(), AllocError> {
        put_row(
            &mut self.text,
            u32::from(round),
            &self.asked,
            world,
            self.watched.as_slice(),
        )
    }
}

// What names mean, where each has a value.
fn watched_of<'n>(
    alloc: Global,
    world: &World,
    names: &'n [String],
) -> Result<Items<Watched<'n>>, Fault>
    ensures known { IfOk result (λ watched. AreWatched world.now.world
        (map string_bytes names.now) watched) }
    ensures unknown { IfErr result (IsUnnamed world.now.program.config world.now.world
        (map string_bytes names.now)) }
{
    let mut watched = Items::new(alloc);
    let nothing = Asked::new();
    'names: for name in names {
        let it = read(name);
        if value_of(world, &nothing, it).is_none() {
            return Err(Fault::BadName {
                name: String::from_str(alloc, name)?,
                says: unnamed_sentence(alloc, world.verified(), name)?,
            });
        }
        watched.push(it)?;
    }
    Ok(watched)
}

// The line of the names.
fn header(alloc: Global, names: &[String]) -> Result<String, AllocError>
    ensures { IfOk result (λ text. string_bytes text ≡ header_text (map string_bytes names.now)) }
{
    let mut text = String::from_str(alloc, "ROUND")?;
    put_names(&mut text, names)?;
    text.push_str("\n")?;
    Ok(text)
}

fn put_names(text: &mut String, names: &[String]) -> Result<(), AllocError>
    ensures { OnOk result (Puts text.old text.new (names_text (map string_bytes names.now))) }
{
    'names: for name in names {
        text.push_str(",")?;
        text.push_str(name)?;
    }
    Ok(())
}

/// The number of the round, and the values, as a line.
pub fn put_row(
    text: &mut String,
    round: u32,
    asked: &Asked,
    world: &World,
    watched: &[Watched<'_>],
) -> Result<(), AllocError>
    ensures { OnOk result (Puts text.old text.new
        (row_text watched.now round asked.now world.now.world)) }
{
    write!(text, "{}", round)?;
    put_values(text, asked, world, watched)?;
    text.push_str("\n")
}

fn put_values(
    text: &mut String,
    asked: &Asked,
    world: &World,
    watched: &[Watched<'_>],
) -> Result<(), AllocError>
    ensures { OnOk result (Puts text.old text.new
        (values_text watched.now asked.now world.now.world)) }
{
    'values: for it in watched {
        put_value(text, value_of(world, asked, *it))?;
    }
    Ok(())
}

fn put_value(text: &mut String, value: Option<Value>) -> Result<(), AllocError>
    ensures { OnOk result (Puts text.old text.new (value_text value)) }
{
    match value {
        None => text.push_str(","),
        Some(Value::Boolean(true)) => text.push_str(",TRUE"),
        Some(Value::Boolean(false)) => text.push_str(",FALSE"),
        Some(Value::Integer(number)) => write!(text, ",{}", number),
    }
}

// The value in a world, after commits that asked for this.
fn value_of(world: &World, asked: &Asked, watched: Watched<'_>) -> Option<Value>
    ensures { result ≡ value_of watched.entry asked.now world.now.world }
{
    match watched {
        Watched::Shared(name) => Some(shared_value(&world.image().fields, name)),
        Watched::Slot(name, slot) => slot_value(world, asked, slot, name),
        Watched::Car(car, name) => car_value(world.image(), asked, car, name),
        Watched::Variable(task, path) => world.variable(task, path),
        Watched::Global(path) => world.global(path),
    }
}

fn shared_value(fields: &Fields, name: Shared) -> Value
    ensures { result ≡ shared_value name fields.now }
{
    match name {
        Shared::Now => Value::Integer(i64::from(fields.time)),
        Shared::RunLimit => Value::Integer(i64::from(fields.run_limit)),
        Shared::Fire => Value::Boolean(fields.fire),
    }
}

// The value of a call slot's name, where the group has the name.
fn slot_value(world: &World, asked: &Asked, slot: u8, name: SlotName) -> Option<Value>
    ensures { result ≡ slot_value_in slot name asked.now world.now.world.group }
{
    if has_slot_name(world, name) {
        slot_value_at(world, slot, name, asked.assign_of(slot))
    } else {
        None
    }
}

// The value of a call slot's name; slots count from 1.
fn slot_value_at(world: &World, slot: u8, name: SlotName, assign: u8) -> Option<Value>
    ensures { result ≡ slot_value_at slot name assign world.now.world.group.calls.slots }
{
    let place = usize::from(slot).checked_sub(1)?;
    let slots = world.slots();
    let it = slots.as_slice().get(place)?;
    Some(value_in_slot(name, assign, *it))
}

// Whether the group has a name of the call slots: ASSIGN is of GROUP.
fn has_slot_name(world: &World, name: SlotName) -> bool
    ensures { result ≡ has_slot_name name world.now.world.group }
{
    match name {
        SlotName::Assign => has_group(world),
        _ => true,
    }
}

// Whether there is a GROUP.
fn has_group(world: &World) -> bool
    ensures { result ≡ is_some (task_at world.now.world.group 0) }
{
    let _image = world.image();
    let verified = world.verified();
    let _config = verified.config();
    verified.has_task(0)
}

fn value_in_slot(name: SlotName, assign: u8, slot: Slot) -> Value
    ensures { result ≡ value_in_slot name assign slot }
{
    match name {
        SlotName::Waits => Value::Boolean(matches!(slot, Slot::Waiting { .. })),
        SlotName::From => Value::Integer(i64::from(from_of(slot))),
        SlotName::To => Value::Integer(i64::from(to_of(slot))),
        SlotName::Car => Value::Integer(i64::from(car_of(slot))),
        SlotName::Assign => Value::Integer(i64::from(assign)),
    }
}

// The floor from which its call goes, or 0.
fn from_of(slot: Slot) -> u8
    ensures { result ≡ from_of slot }
{
    match slot {
        Slot::Free => 0,
        Slot::Waiting { call, .. } => call.from,
        Slot::Told { call, .. } => call.from,
    }
}

// The floor to which its call goes, or 0.
fn to_of(slot: Slot) -> u8
    ensures { result ≡ to_of slot }
{
    match slot {
        Slot::Free => 0,
        Slot::Waiting { call, .. } => call.to,
        Slot::Told { call, .. } => call.to,
    }
}

// The car that its call was told to, or 0.
fn car_of(slot: Slot) -> u8
    ensures { result ≡ car_of slot }
{
    match slot {
        Slot::Told { car, .. } => car,
        _ => 0,
    }
}

// The value of a car's name; cars count from 1.
fn car_value(image: &Image, asked: &Asked, car: u8, name: CarName) -> Option<Value>
    ensures { result ≡ car_value_in car name asked.now image.now }
{
    let place = usize::from(car).checked_sub(1)?;
    let fields = image.fields.cars.as_slice().get(place)?;
    let outputs = image.outputs.as_slice().get(place)?;
    Some(value_in_car(name, asked.serve_at(place), fields, outputs))
}
