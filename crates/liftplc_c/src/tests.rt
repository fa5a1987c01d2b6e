// Each export once, called as C calls them.

ghost use Rattle.std.specs.Prelude.{◌≡◌, None};

use crate::asking::{liftplc_budget, liftplc_version};
use crate::fields::{CarInput, FieldsInput};
use crate::handle::Handle;
use crate::notices::NoticeOutput;
use crate::opening::{liftplc_close, liftplc_open};
use crate::outputs::{CarOutput, RoundOutputs, SlotOutput};
use crate::pressing::liftplc_press;
use crate::refusal::TextRefusal;
use crate::resuming::liftplc_open_from;
use crate::saving::liftplc_state;
use crate::stepping::liftplc_round;
use std::alloc::Global;

// A car that stays where it is, and no GROUP.
const IDLE: &[u8] = b"PROGRAM IDLE
END_PROGRAM
CONFIGURATION SHAFT
VAR_GLOBAL CONSTANT CARS : INT := 1; FLOORS : INT := 2; SLOTS : INT := 1; END_VAR
RESOURCE CABINET ON PLC
TASK CAR1 (INTERVAL := T#100ms, PRIORITY := 1);
PROGRAM P1 WITH CAR1 : IDLE;
END_RESOURCE
END_CONFIGURATION
";

// A car at floor 1, shut and locked.
fn fields() -> FieldsInput {
    let car = CarInput {
        pos: 1,
        level: true,
        top: false,
        bottom: true,
        locked: true,
        opened: false,
    };
    FieldsInput {
        time: 100,
        run_limit: 1,
        fire: false,
        car_count: 1,
        cars: [car; 8],
    }
}

// Outputs that no round has written yet.
fn no_outputs() -> RoundOutputs {
    let car = CarOutput {
        motor: 1,
        opens: true,
    };
    let slot = SlotOutput {
        ticket: 0,
        state: 0,
        from: 0,
        to: 0,
        car: 0,
    };
    let notice = NoticeOutput {
        ticket: 0,
        kind: 0,
        car: 0,
        rule: 0,
        slot: 0,
        from: 0,
        to: 0,
    };
    RoundOutputs {
        car_count: 0,
        slot_count: 0,
        notice_count: 0,
        cars: [car; 8],
        slots: [slot; 64],
        notices: [notice; 168],
    }
}

// What no call has written yet.
fn no_refusal() -> TextRefusal {
    TextRefusal {
        number: 0,
        line: 0,
        offset: 0,
    }
}

#[test]
fn a_call_waits_for_a_car_that_stays(rt: HostRuntime) {
    let alloc = rt.alloc();
    let mut handle = Handle::closed();
    let mut refusal = no_refusal();
    let mut outputs = no_outputs();
    let fields = fields();
    assert_eq!(rt; liftplc_version(), 3);

    // a text that is refused, and a handle that isn't open
    assert_eq!(rt; liftplc_open(alloc, &mut handle, b"X", &mut refusal), 1);
    assert_eq!(rt; (refusal.number, refusal.line), (10, 1));
    assert_eq!(rt; liftplc_press(alloc, &mut handle, 1, 2), 4);
    assert_eq!(rt; liftplc_round(alloc, &mut handle, &fields, &mut outputs), 4);
    assert_eq!(rt; liftplc_budget(alloc, &mut handle, 1), 0);

    // a text that opens, once
    assert_eq!(rt; liftplc_open(alloc, &mut handle, IDLE, &mut refusal), 0);
    assert_eq!(rt; liftplc_open(alloc, &mut handle, IDLE, &mut refusal), 3);
    assert_eq!(rt; liftplc_budget(alloc, &mut handle, 1), 1);
    assert_eq!(rt; liftplc_budget(alloc, &mut handle, 0), 0);

    // presses
    assert_eq!(rt; liftplc_press(alloc, &mut handle, 1, 2), 0);
    assert_eq!(rt; liftplc_press(alloc, &mut handle, 1, 2), 6);
    assert_eq!(rt; liftplc_press(alloc, &mut handle, 1, 3), 7);
    assert_eq!(rt; liftplc_press(alloc, &mut handle, 2, 2), 8);

    // the first round enters the call, and no later one does
    assert_eq!(rt; liftplc_round(alloc, &mut handle, &fields, &mut outputs), 0);
    assert_eq!(rt;
        (outputs.car_count, outputs.slot_count, outputs.notice_count),
        (1, 1, 1)
    );
    assert_eq!(rt; (outputs.cars[0].motor, outputs.cars[0].opens), (0, false));
    let slot = outputs.slots[0];
    assert_eq!(rt;
        (slot.ticket, slot.state, slot.from, slot.to, slot.car),
        (1, 1, 1, 2, 0)
    );
    let notice = outputs.notices[0];
    assert_eq!(rt;
        (
            notice.ticket,
            notice.kind,
            notice.slot,
            notice.from,
            notice.to
        ),
        (1, 1, 1, 1, 2)
    );
    assert_eq!(rt; (notice.car, notice.rule), (0, 0));
    assert_eq!(rt; liftplc_round(alloc, &mut handle, &fields, &mut outputs), 0);
    assert_eq!(rt; (outputs.slots[0].state, outputs.notice_count), (1, 0));

    // fields out of range
    let early = FieldsInput {
        car_count: 2,
        ..fields
    };
    assert_eq!(rt; liftplc_round(alloc, &mut handle, &early, &mut outputs), 5);

    assert_eq!(rt; liftplc_close(alloc, &mut handle), 0);
    assert_eq!(rt; liftplc_close(alloc, &mut handle), 4);
    let Handle { held, is_open: _ } = handle;
    held.end();
}

// The answers to calls that write a state: of a handle that isn't open, of one that opens and has a call pressed, into a room that is too short, and into
// one that isn't.
fn saved(alloc: Global, handle: &mut Handle, state: &mut [u8; 512], length: &mut u64) -> [u32; 5] {
    let mut refusal = no_refusal();
    [
        liftplc_state(alloc, handle, IDLE, state, length),
        liftplc_open(alloc, handle, IDLE, &mut refusal),
        liftplc_press(alloc, handle, 1, 2),
        liftplc_state(alloc, handle, IDLE, &mut state[..9], length),
        liftplc_state(alloc, handle, IDLE, state, length),
    ]
}

// The answers to calls that open where a state leads: of a handle that is open, of a text that is refused, of a trace that is none, and of the
// state, whose call waits.
fn resumed(alloc: Global, handle: &mut Handle, state: &[u8], dropped: &mut u64) -> [u32; 7]
    ensures { handle.new.held.world ≡ None }
{
    let mut refusal = no_refusal();
    [
        liftplc_open_from(alloc, handle, IDLE, state, dropped, &mut refusal),
        liftplc_close(alloc, handle),
        liftplc_open_from(alloc, handle, b"X", state, dropped, &mut refusal),
        liftplc_open_from(alloc, handle, IDLE, b"E 1\n", dropped, &mut refusal),
        liftplc_open_from(alloc, handle, IDLE, state, dropped, &mut refusal),
        liftplc_press(alloc, handle, 1, 2),
        liftplc_close(alloc, handle),
    ]
}

#[test]
fn a_call_is_there_again(rt: HostRuntime) {
    let alloc = rt.alloc();
    let mut handle = Handle::closed();
    let mut state = [0; 512];
    let mut length = 0;
    let mut dropped = 9;
    let written = saved(alloc, &mut handle, &mut state, &mut length);
    let end = (length as usize).min(512);
    let opened = resumed(alloc, &mut handle, &state[..end], &mut dropped);
    let Handle { held, is_open: _ } = handle;
    held.end();
    assert!(rt; written == [4, 0, 0, 11, 0]);
    assert!(rt; opened == [3, 0, 1, 10, 0, 6, 0]);
    assert!(rt; dropped == 0);
}
