// Fields in range and outside.

use group_spec::{Bounded, CarFields, Fields, Sizes, in_range};

fn fields(pos: u8, run_limit: u8, time: u32) -> Fields {
    let mut cars = Bounded::new();
    cars.push(CarFields {
        pos,
        level: true,
        top: false,
        bottom: true,
        locked: true,
        opened: false,
    });
    Fields {
        time,
        run_limit,
        fire: false,
        cars,
    }
}

// POS and RUNLIMIT of one car at a time, how many cars the group has, and whether they are in range.
static ROWS: [(u8, u8, u32, u8, bool); 7] = [
    (1, 1, 0, 1, true),
    (2, 0, 2_147_483_647, 1, true),
    // no such floor
    (3, 1, 0, 1, false),
    // no floor 0
    (0, 1, 0, 1, false),
    // RUNLIMIT over the cars
    (1, 2, 0, 1, false),
    // no TIME
    (1, 1, 2_147_483_648, 1, false),
    // a car without fields
    (1, 1, 0, 2, false),
];

#[test]
fn one_car_and_two_floors(rt: HostRuntime) {
    for (pos, run_limit, time, cars, fit) in &ROWS {
        let sizes = Sizes {
            cars: *cars,
            floors: 2,
            slots: 1,
        };
        assert!(rt; in_range(&fields(*pos, *run_limit, *time), sizes) == *fit);
    }
}
