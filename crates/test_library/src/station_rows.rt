// What stations and desks answer step by step, and what they leave.

use crate::stations::{Played, Step, play};
use crate::texts::{STILL, TELLING, TWO_IDLE, TWO_RISING, TWO_SLOTS, UP};
use cli_host::sink::Memory;
use group_spec::CarOutputs;
use group_spec::calls::{Answer, Call, Slot};
use group_spec::hand::Hand;
use group_spec::journal::Entry;
use group_spec::report::{Answered, Denial, Rule};
use scan_task::Value;
use std::alloc::Global;
use std::process::Abort;
use trace_text::write::write_trace;

// One car whose motor is asked to go up.
const RISING: &[u8] = b"PROGRAM C
LD 1
ST MOTOR
END_PROGRAM
CONFIGURATION K
VAR_GLOBAL CONSTANT CARS : INT := 1; FLOORS : INT := 2; SLOTS : INT := 1; END_VAR
RESOURCE M ON PLC
TASK CAR1 (INTERVAL := T#100ms, PRIORITY := 1);
PROGRAM P1 WITH CAR1 : C;
END_RESOURCE
END_CONFIGURATION
";

// One car of eight floors with an empty program.
const IDLE: &[u8] = b"PROGRAM C
END_PROGRAM
CONFIGURATION K
VAR_GLOBAL CONSTANT CARS : INT := 1; FLOORS : INT := 8; SLOTS : INT := 1; END_VAR
RESOURCE M ON PLC
TASK CAR1 (INTERVAL := T#100ms, PRIORITY := 1);
PROGRAM P1 WITH CAR1 : C;
END_RESOURCE
END_CONFIGURATION
";

// Car 1 writes G, and car 2 copies it into H.
const COPYING: &[u8] = b"PROGRAM A
VAR_EXTERNAL G : INT; END_VAR
LD 7
ST G
END_PROGRAM
PROGRAM B
VAR_EXTERNAL G : INT; H : INT; END_VAR
LD G
ST H
END_PROGRAM
CONFIGURATION K
VAR_GLOBAL CONSTANT CARS : INT := 2; FLOORS : INT := 2; SLOTS : INT := 1; END_VAR
VAR_GLOBAL G : INT; H : INT; END_VAR
RESOURCE M ON PLC
TASK CAR1 (INTERVAL := T#100ms, PRIORITY := 1);
TASK CAR2 (INTERVAL := T#100ms, PRIORITY := 1);
PROGRAM P1 WITH CAR1 : A;
PROGRAM P2 WITH CAR2 : B;
END_RESOURCE
END_CONFIGURATION
";

// What the steps of a row leave.
#[derive(Clone, Copy)]
enum Left {
    // The trace of the journal.
    Trace(&'static str),
    // The outputs at the end.
    Outputs(&'static [CarOutputs]),
    // The denials of the last report.
    Denials(&'static [Denial]),
    // The answers of the last report.
    Answers(&'static [Answered]),
    // The calls that the last refresh entered, in this order.
    Entered(&'static [Call]),
    // Call slot 1.
    Slot(Slot),
    // The globals G and H.
    Globals(i64, i64),
    // The calls of the hand: floors with their words, and how many calls there are.
    Hand(&'static [(u8, u16)], usize),
    // Those of the closed desk.
    Desk(&'static [(u8, u16)], usize),
}

// Steps on the station of a text with room for so many entries and so many panels on each floor, what they answer, and what they leave.
struct StationRow {
    name: &'static str,
    text: &'static [u8],
    room: usize,
    has_two_panels: bool,
    steps: &'static [Step],
    answers: &'static [u64],
    left: &'static [Left],
}

// Whether the trace of a journal is this text.
fn has_trace(alloc: Global, journal: &[Entry], text: &str) -> bool {
    let mut written = Memory::new(alloc);
    write_trace(journal, &mut written).is_ok() && written.bytes() == text.as_bytes()
}

// Whether it is this number.
fn has_value(value: Option<Value>, number: i64) -> bool {
    matches!(value, Some(Value::Integer(it)) if it == number)
}

// Whether the globals G and H have these values at the end.
fn has_globals(played: &Played, g: i64, h: i64) -> bool {
    let [first, second] = played.globals;
    has_value(first, g) && has_value(second, h)
}

// Whether the last refresh entered just these calls, in this order.
fn has_entered(played: &Played, calls: &[Call]) -> bool {
    let entered = played.report.entered.as_slice();
    if entered.len() != calls.len() {
        return false;
    }
    for at in 0..calls.len() {
        if entered[at].call != calls[at] {
            return false;
        }
    }
    true
}

// Whether the floor has this word in a set of calls.
fn has_word(hand: &Hand, floor: u8, word: u16) -> bool {
    (1..=16).contains(&floor) && hand.mask_from(floor) == word
}

// Whether a set has so many calls, and its floors these words.
fn has_calls(hand: &Hand, words: &[(u8, u16)], count: usize) -> bool {
    for (floor, word) in words {
        if !has_word(hand, *floor, *word) {
            return false;
        }
    }
    hand.len() == count && hand.is_empty() == (count == 0)
}

// Whether this is left.
fn leaves(alloc: Global, played: &Played, left: Left) -> bool {
    match left {
        Left::Trace(text) => has_trace(alloc, played.journal.as_slice(), text),
        Left::Outputs(outputs) => played.outputs.as_slice() == outputs,
        Left::Denials(denials) => played.report.denials.as_slice() == denials,
        Left::Answers(answers) => played.report.answers.as_slice() == answers,
        Left::Entered(calls) => has_entered(played, calls),
        Left::Slot(slot) => played.slot == Some(slot),
        Left::Globals(g, h) => has_globals(played, g, h),
        Left::Hand(words, count) => has_calls(played.desk.hand(), words, count),
        Left::Desk(words, count) => has_calls(played.desk.desk(), words, count),
    }
}

// Compares what the steps of a row answered and left.
fn compare(rt: &impl Abort, alloc: Global, played: &Played, row: &StationRow) {
    assert!(rt; played.answers.as_slice() == row.answers, "{}", row.name);
    for left in row.left {
        assert!(rt; leaves(alloc, played, *left), "{}", row.name);
    }
}

const START_1: Step = Step::Start(1);

const START_2: Step = Step::Start(2);

const COMMIT_0: Step = Step::Commit { scan: 0, by: 0 };

const COMMIT_1: Step = Step::Commit { scan: 1, by: 1 };

const COMMIT_2: Step = Step::Commit { scan: 2, by: 2 };

// The scan of car 1 with the pass of car 2.
const OTHER: Step = Step::Commit { scan: 1, by: 2 };

// One car at floor 1.
const STANDS: Step = Step::Refresh {
    cars: 1,
    time: 100,
    run_limit: 1,
};

// From floor 1 to 2.
const ASCENT: Call = Call { from: 1, to: 2 };

// From floor 2 to 1.
const DESCENT: Call = Call { from: 2, to: 1 };

// Presses of the first panel of a floor, and one of the second panel of floor 3.
const PRESS_1_TO_2: Step = Step::Press {
    from: 1,
    panel: 1,
    to: 2,
};

const PRESS_2_TO_1: Step = Step::Press {
    from: 2,
    panel: 1,
    to: 1,
};

const PRESS_3_TO_3: Step = Step::Press {
    from: 3,
    panel: 1,
    to: 3,
};

const PRESS_3_TO_5: Step = Step::Press {
    from: 3,
    panel: 1,
    to: 5,
};

const PRESS_4_TO_1: Step = Step::Press {
    from: 4,
    panel: 1,
    to: 1,
};

const SECOND_PANEL: Step = Step::Press {
    from: 3,
    panel: 2,
    to: 5,
};

// Both calls are pressed and gathered, and two cars stand at floor 1.
const TWO_CALLS: &[Step] = &[
    PRESS_2_TO_1,
    PRESS_1_TO_2,
    Step::Gather(2),
    Step::Refresh {
        cars: 2,
        time: 100,
        run_limit: 1,
    },
];

static ROWS: [StationRow; 15] = [
    // Refuses a commit that always answers 71.
    StationRow {
        name: "of_two_cars_the_first_commit_runs",
        text: TWO_RISING,
        room: 5,
        has_two_panels: false,
        steps: &[
            Step::Refresh {
                cars: 2,
                time: 0,
                run_limit: 1,
            },
            START_1,
            START_2,
            COMMIT_2,
            COMMIT_1,
        ],
        answers: &[0, 0, 0, 0, 0],
        left: &[
            Left::Trace("LIFTTRACE 2\nR 0 1 0 1 10110 1 10110\nS 1\nS 2\nC 2\nC 1\nE 5\n"),
            Left::Outputs(&[STILL, UP]),
            Left::Denials(&[Denial {
                car: 1,
                rule: Rule::Crowded,
            }]),
        ],
    },
    StationRow {
        name: "stale_tickets_and_told_cars",
        text: TELLING,
        room: 9,
        has_two_panels: false,
        steps: &[
            PRESS_1_TO_2,
            Step::Gather(1),
            STANDS,
            Step::Start(0),
            COMMIT_0,
            Step::Told(1),
            Step::Told(2),
            Step::Start(0),
            START_1,
            COMMIT_1,
            PRESS_1_TO_2,
            Step::Gather(1),
            STANDS,
            COMMIT_0,
            Step::Told(2),
        ],
        answers: &[0, 2, 0, 0, 0, 1, 0, 0, 0, 0, 0, 2, 0, 0, 0],
        left: &[
            Left::Trace(
                "LIFTTRACE 2\nP 1 2\nG 1\nR 100 1 0 1 10110\nS 0\nC 0\nS 0\nS 1\nC 1\nP 1 2\nG 1\nR 100 1 0 1 10110\nC 0\nE 12\n",
            ),
            Left::Slot(Slot::Waiting {
                ticket: 2,
                call: ASCENT,
            }),
            Left::Answers(&[Answered {
                slot: 1,
                ticket: Some(1),
                car: 1,
                answer: Answer::Stale,
            }]),
        ],
    },
    // Refuses a press that answers Already for ever after its first New.
    StationRow {
        name: "held_floors_and_a_call_that_enters",
        text: IDLE,
        room: 9,
        has_two_panels: false,
        steps: &[
            PRESS_3_TO_3,
            PRESS_3_TO_5,
            Step::Show(3),
            PRESS_3_TO_5,
            Step::Gather(3),
            PRESS_3_TO_5,
            Step::Gather(3),
            Step::Show(3),
            STANDS,
            Step::Gather(3),
            Step::Show(3),
        ],
        answers: &[2, 0, 16, 1, 16, 0, 16, 16, 0, 16, 0],
        left: &[
            Left::Trace("LIFTTRACE 2\nP 3 5\nG 3\nR 100 1 0 1 10110\nE 3\n"),
            Left::Slot(Slot::Waiting {
                ticket: 1,
                call: Call { from: 3, to: 5 },
            }),
            Left::Hand(&[(3, 16)], 1),
            Left::Desk(&[], 0),
        ],
    },
    // Refuses a refresh that enters the first call of the hand alone, or none, though slots are free.
    StationRow {
        name: "of_two_calls_both_enter_two_slots",
        text: TWO_SLOTS,
        room: 1,
        has_two_panels: false,
        steps: TWO_CALLS,
        answers: &[0, 0, 1, 0],
        left: &[
            Left::Trace("LIFTTRACE 2\nP 1 2\nP 2 1\nG 1\nG 2\nR 100 1 0 1 10110 1 10110\nE 5\n"),
            Left::Entered(&[ASCENT, DESCENT]),
            Left::Hand(&[], 0),
        ],
    },
    StationRow {
        name: "of_two_calls_the_first_enters_one_slot",
        text: TWO_IDLE,
        room: 1,
        has_two_panels: false,
        steps: TWO_CALLS,
        answers: &[0, 0, 1, 0],
        left: &[
            Left::Trace("LIFTTRACE 2\nP 1 2\nG 1\nR 100 1 0 1 10110 1 10110\nE 3\n"),
            Left::Entered(&[ASCENT]),
            Left::Hand(&[(2, 1)], 1),
        ],
    },
    StationRow {
        name: "a_press_and_rounds_by_the_plant",
        text: RISING,
        room: 4,
        has_two_panels: false,
        steps: &[
            PRESS_1_TO_2,
            Step::Gather(1),
            Step::Drive,
            START_1,
            COMMIT_1,
            Step::Drive,
            Step::Drive,
        ],
        answers: &[0, 2, 0, 0, 0, 0, 70],
        left: &[
            Left::Trace(
                "LIFTTRACE 2\nP 1 2\nG 1\nR 100 1 0 1 10110\nS 1\nC 1\nR 200 1 0 1 00010\nE 6\n",
            ),
            Left::Slot(Slot::Waiting {
                ticket: 1,
                call: ASCENT,
            }),
            Left::Hand(&[], 0),
            Left::Desk(&[], 0),
        ],
    },
    StationRow {
        name: "a_full_journal_and_an_open_scan",
        text: RISING,
        room: 2,
        has_two_panels: false,
        steps: &[START_1, START_1, COMMIT_1, START_1, STANDS, COMMIT_1],
        answers: &[0, 72, 0, 70, 70, 255],
        left: &[
            Left::Trace("LIFTTRACE 2\nS 1\nC 1\nE 2\n"),
            Left::Outputs(&[UP]),
        ],
    },
    StationRow {
        name: "fields_out_of_range_change_nothing",
        text: RISING,
        room: 0,
        has_two_panels: false,
        steps: &[
            Step::Refresh {
                cars: 1,
                time: 100,
                run_limit: 2,
            },
            Step::Refresh {
                cars: 2,
                time: 100,
                run_limit: 1,
            },
            STANDS,
        ],
        answers: &[60, 60, 70],
        left: &[Left::Trace("LIFTTRACE 2\nE 0\n")],
    },
    // Refuses outputs that are always those of the opening.
    StationRow {
        name: "rounds_of_one_car: an empty program",
        text: IDLE,
        room: 3,
        has_two_panels: false,
        steps: &[STANDS, START_1, COMMIT_1],
        answers: &[0, 0, 0],
        left: &[Left::Trace("LIFTTRACE 2\nR 100 1 0 1 10110\nS 1\nC 1\nE 3\n")],
    },
    StationRow {
        name: "rounds_of_one_car: a motor that is asked to go up",
        text: RISING,
        room: 6,
        has_two_panels: false,
        steps: &[
            Step::Rising,
            STANDS,
            START_1,
            COMMIT_1,
            Step::Rising,
            Step::Leave { time: 200 },
            START_1,
            COMMIT_1,
            Step::Rising,
        ],
        answers: &[0, 0, 0, 0, 1, 0, 0, 0, 1],
        left: &[
            Left::Trace(
                "LIFTTRACE 2\nR 100 1 0 1 10110\nS 1\nC 1\nR 200 1 0 1 00010\nS 1\nC 1\nE 6\n",
            ),
            Left::Outputs(&[UP]),
        ],
    },
    // Refuses a commit that takes one car's scan for another's of the same program.
    StationRow {
        name: "a_scan_with_the_pass_of_another_car",
        text: TWO_RISING,
        room: 4,
        has_two_panels: false,
        steps: &[START_1, OTHER, START_2, OTHER, COMMIT_2, COMMIT_1],
        answers: &[0, 71, 0, 71, 0, 0],
        left: &[Left::Trace("LIFTTRACE 2\nS 1\nS 2\nC 2\nC 1\nE 4\n")],
    },
    // Refuses a start that doesn't see what other tasks committed.
    StationRow {
        name: "a_start_sees_what_was_committed_before",
        text: COPYING,
        room: 4,
        has_two_panels: false,
        steps: &[START_1, COMMIT_1, START_2, COMMIT_2],
        answers: &[0, 0, 0, 0],
        left: &[Left::Globals(7, 7)],
    },
    StationRow {
        name: "a_start_sees_what_was_committed_before: nothing",
        text: COPYING,
        room: 4,
        has_two_panels: false,
        steps: &[START_1, START_2, COMMIT_1, COMMIT_2],
        answers: &[0, 0, 0, 0],
        left: &[Left::Globals(7, 0)],
    },
    // Refuses a closed desk whose words are empty.
    StationRow {
        name: "what_a_closed_desk_has",
        text: IDLE,
        room: 0,
        has_two_panels: false,
        steps: &[PRESS_3_TO_5, Step::Gather(3), PRESS_3_TO_5, PRESS_4_TO_1],
        answers: &[0, 16, 0, 0],
        left: &[Left::Desk(&[(3, 16), (4, 1)], 2), Left::Hand(&[(3, 16)], 1)],
    },
    StationRow {
        name: "two_panels_of_a_floor",
        text: IDLE,
        room: 0,
        has_two_panels: true,
        steps: &[PRESS_3_TO_5, SECOND_PANEL, Step::Gather(3), SECOND_PANEL],
        answers: &[0, 1, 16, 0],
        left: &[Left::Desk(&[(3, 16)], 1), Left::Hand(&[(3, 16)], 1)],
    },
];

#[test]
fn stations_answer(rt: HostRuntime) {
    for row in &ROWS {
        let panels = if row.has_two_panels { 2 } else { 1 };
        let Ok(played) = play(&rt, rt.alloc(), row.text, row.room, panels, row.steps) else {
            panic!(&rt; "no memory")
        };
        compare(&rt, rt.alloc(), &played, row);
    }
}
