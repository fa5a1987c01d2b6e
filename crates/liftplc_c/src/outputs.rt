// What C is told of a round.

ghost use Rattle.std.specs.Prelude.{◌≡◌, ◌≤◌, length, map, take};
ghost use Rattle.liftplc_c.specs.Outputs.{car_output, slot_output, TellsCars, TellsNotices, TellsSlots};

use crate::notices::{NoticeOutput, put_notices};
use group_rounds::notice::{MOST_NOTICES, Notices};
use group_spec::calls::Slot;
use group_spec::{CAR_PLACES, CarOutputs, Motor, SLOT_PLACES};
use group_world::World;

/// What a car is to do: 1 is up, -1 is down, 0 is still; and whether its door is to be open.
#[repr(C)]
#[derive(Clone, Copy)]
pub struct CarOutput {
    pub motor: i8,
    pub opens: bool,
}

/// A call slot: 0 is free, 1 is waiting, 2 is told to a car.
#[repr(C)]
#[derive(Clone, Copy)]
pub struct SlotOutput {
    pub ticket: u64,
    pub state: u8,
    pub from: u8,
    pub to: u8,
    pub car: u8,
}

/// What a round left. Of each array so many are written as are counted.
#[repr(C)]
#[derive(Drop)]
pub struct RoundOutputs {
    pub car_count: u8,
    pub slot_count: u8,
    pub notice_count: u8,
    pub cars: [CarOutput; CAR_PLACES],
    pub slots: [SlotOutput; SLOT_PLACES],
    pub notices: [NoticeOutput; MOST_NOTICES],
}

// What C is told of a free slot.
const FREE: SlotOutput = SlotOutput {
    ticket: 0,
    state: 0,
    from: 0,
    to: 0,
    car: 0,
};

fn car_output(car: CarOutputs) -> CarOutput
    ensures { result ≡ car_output car }
{
    let motor = match car.motor {
        Motor::Up => 1,
        Motor::Down => -1,
        Motor::Still => 0,
    };
    CarOutput {
        motor,
        opens: car.opens,
    }
}

// The output of a slot. Most slots are free, so that their output is written first.
fn put_slot(room: &mut SlotOutput, slot: Slot)
    ensures { room.new ≡ slot_output slot }
{
    *room = FREE;
    match slot {
        Slot::Free => {}
        Slot::Waiting { ticket, call } => {
            *room = SlotOutput {
                ticket,
                state: 1,
                from: call.from,
                to: call.to,
                car: 0,
            };
        }
        Slot::Told { ticket, call, car } => {
            *room = SlotOutput {
                ticket,
                state: 2,
                from: call.from,
                to: call.to,
                car,
            };
        }
    }
}

// The outputs of the cars go to the front of the room, car 1 first.
fn put_cars(room: &mut [CarOutput], cars: &[CarOutputs])
    requires { length cars.now ≤ length room.old }
    ensures { take (length cars.now) room.new ≡ map car_output cars.now }
{
    'cars: for index in 0..cars.len() {
        room[index] = car_output(cars[index]);
    }
}

// How many call slots the group has.
fn slot_count(world: &World) -> u8
    ensures count { result ≡ length world.now.world.group.calls.slots }
    ensures few { result ≤ 64 }
{
    let _config = world.verified().config();
    let _image = world.image();
    world.sizes().slots
}

// The call slots, of which there are so many, go to the front of the room, slot 1 first.
fn put_slots(room: &mut [SlotOutput], world: &World, count: u8)
    requires count { count ≡ length world.now.world.group.calls.slots }
    requires room { count ≤ length room.old }
    ensures { take count room.new ≡ map slot_output world.now.world.group.calls.slots }
{
    'slots: for index in 0..count {
        put_slot(
            &mut room[usize::from(index)],
            world.slot(index + 1).unwrap(),
        );
    }
}

/// What a round left of the world, and its notices.
pub fn put(outputs: &mut RoundOutputs, world: &World, notices: &Notices)
    ensures cars { TellsCars outputs.new world.now.world.group.image.outputs }
    ensures slots { TellsSlots outputs.new world.now.world.group.calls.slots }
    ensures notices { TellsNotices outputs.new notices.now }
{
    let cars = &world.image().outputs;
    let car_count = cars.len();
    put_cars(&mut outputs.cars, cars.as_slice());
    outputs.car_count = car_count as u8;
    let slot_count = slot_count(world);
    put_slots(&mut outputs.slots, world, slot_count);
    outputs.slot_count = slot_count;
    let notice_count = notices.len();
    put_notices(&mut outputs.notices, notices.as_slice());
    outputs.notice_count = notice_count as u8;
}
