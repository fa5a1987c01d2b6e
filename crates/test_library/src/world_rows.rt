// What groups reply to events in any order, and what these leave. No command shows it: `sim` hands in what its plant gives.

use crate::group::{Given, Left, play, runs_so};
use crate::texts::{STILL, TELLING, TWO_RISING, UP};
use group_spec::calls::{Answer, Call, Slot};
use group_spec::event::{EventFault, Reply};
use group_spec::report::{Answered, Denial, Rule};
use group_spec::{CarOutputs, Motor};
use std::alloc::Global;
use std::process::Abort;

// One car with an empty program; a scan has one step.
const IDLE: &[u8] = b"PROGRAM C
END_PROGRAM
CONFIGURATION K
VAR_GLOBAL CONSTANT CARS : INT := 1; FLOORS : INT := 2; SLOTS : INT := 1; END_VAR
RESOURCE M ON PLC
TASK CAR1 (INTERVAL := T#100ms, PRIORITY := 1);
PROGRAM P1 WITH CAR1 : C;
END_RESOURCE
END_CONFIGURATION
";

// Events handed to the group of a text, what it replies, and its last report and its slots then.
struct WorldRow {
    text: &'static [u8],
    given: &'static [Given],
    replies: &'static [Reply],
    outputs: &'static [CarOutputs],
    denials: &'static [Denial],
    answers: &'static [Answered],
    slots: &'static [Slot],
}

static ROWS: [WorldRow; 6] = [
    // Of two cars, that which commits first under a run limit of 1 runs.
    WorldRow {
        text: TWO_RISING,
        given: &[
            Given::Refresh {
                run_limit: 1,
                cars: 2,
                pos: 1,
            },
            Given::Start(1),
            Given::Start(2),
            Given::Instruction(1),
            Given::Instruction(1),
            Given::Instruction(1),
            Given::Instruction(2),
            Given::Instruction(2),
            Given::Instruction(2),
            Given::Commit(2),
            Given::Commit(1),
        ],
        replies: &[
            Reply::Refreshed,
            Reply::Started,
            Reply::Started,
            Reply::More,
            Reply::More,
            Reply::End,
            Reply::More,
            Reply::More,
            Reply::End,
            Reply::Committed,
            Reply::Committed,
        ],
        outputs: &[STILL, UP],
        denials: &[Denial {
            car: 1,
            rule: Rule::Crowded,
        }],
        answers: &[],
        slots: &[Slot::Free],
    },
    // Under a lower run limit a refresh stops the car of the highest number.
    WorldRow {
        text: TWO_RISING,
        given: &[
            Given::Refresh {
                run_limit: 2,
                cars: 2,
                pos: 1,
            },
            Given::Start(1),
            Given::Instruction(1),
            Given::Instruction(1),
            Given::Instruction(1),
            Given::Commit(1),
            Given::Start(2),
            Given::Instruction(2),
            Given::Instruction(2),
            Given::Instruction(2),
            Given::Commit(2),
            Given::Refresh {
                run_limit: 1,
                cars: 2,
                pos: 1,
            },
        ],
        replies: &[
            Reply::Refreshed,
            Reply::Started,
            Reply::More,
            Reply::More,
            Reply::End,
            Reply::Committed,
            Reply::Started,
            Reply::More,
            Reply::More,
            Reply::End,
            Reply::Committed,
            Reply::Refreshed,
        ],
        outputs: &[UP, STILL],
        denials: &[Denial {
            car: 2,
            rule: Rule::Crowded,
        }],
        answers: &[],
        slots: &[Slot::Free],
    },
    // Events out of turn, of tasks and floors that are not there, and fields out of range.
    WorldRow {
        text: IDLE,
        given: &[
            Given::Instruction(1),
            Given::Commit(1),
            Given::Start(1),
            Given::Start(1),
            Given::Commit(1),
            Given::Instruction(1),
            Given::Instruction(1),
            Given::Start(5),
            Given::Start(0),
            Given::Commit(1),
            Given::Refresh {
                run_limit: 1,
                cars: 1,
                pos: 3,
            },
            Given::Refresh {
                run_limit: 2,
                cars: 1,
                pos: 1,
            },
            Given::Press(Call { from: 1, to: 3 }),
        ],
        replies: &[
            Reply::Refused(EventFault::NoOpenScan),
            Reply::Refused(EventFault::NoOpenScan),
            Reply::Started,
            Reply::Refused(EventFault::AlreadyOpen),
            Reply::Refused(EventFault::NotAtEnd),
            Reply::End,
            Reply::Refused(EventFault::NoOpenScan),
            Reply::Refused(EventFault::NoSuchActor),
            Reply::Refused(EventFault::NoSuchActor),
            Reply::Committed,
            Reply::Refused(EventFault::FieldOutOfRange),
            Reply::Refused(EventFault::FieldOutOfRange),
            Reply::Refused(EventFault::NoSuchActor),
        ],
        outputs: &[STILL],
        denials: &[],
        answers: &[],
        slots: &[Slot::Free],
    },
    // A call is pressed, gathered and entered; another of its floor waits on the desk as long as the hand has one.
    WorldRow {
        text: TELLING,
        given: &[
            Given::Press(Call { from: 3, to: 3 }),
            Given::Press(Call { from: 9, to: 9 }),
            Given::Press(Call { from: 3, to: 5 }),
            Given::Press(Call { from: 3, to: 5 }),
            Given::Gather(3),
            Given::Press(Call { from: 3, to: 5 }),
            Given::Gather(3),
            Given::Refresh {
                run_limit: 1,
                cars: 1,
                pos: 1,
            },
            Given::Gather(3),
            Given::Gather(9),
        ],
        replies: &[
            Reply::Refused(EventFault::SameFloor),
            Reply::Refused(EventFault::NoSuchActor),
            Reply::New,
            Reply::Already,
            Reply::Gathered(16),
            Reply::New,
            Reply::Held,
            Reply::Refreshed,
            Reply::Gathered(16),
            Reply::Refused(EventFault::NoSuchActor),
        ],
        outputs: &[STILL],
        denials: &[],
        answers: &[],
        slots: &[Slot::Waiting {
            ticket: 1,
            call: Call { from: 3, to: 5 },
        }],
    },
    // A call that finds no slot stays in the hand.
    WorldRow {
        text: TELLING,
        given: &[
            Given::Press(Call { from: 2, to: 1 }),
            Given::Press(Call { from: 1, to: 2 }),
            Given::Gather(1),
            Given::Gather(2),
            Given::Refresh {
                run_limit: 1,
                cars: 1,
                pos: 1,
            },
            Given::Gather(1),
            Given::Gather(2),
        ],
        replies: &[
            Reply::New,
            Reply::New,
            Reply::Gathered(2),
            Reply::Gathered(1),
            Reply::Refreshed,
            Reply::Gathered(0),
            Reply::Held,
        ],
        outputs: &[STILL],
        denials: &[],
        answers: &[],
        slots: &[Slot::Waiting {
            ticket: 1,
            call: Call { from: 1, to: 2 },
        }],
    },
    // A group tells by the ticket that its scan began with: it is stale where another call has the slot at the commit.
    WorldRow {
        text: TELLING,
        given: &[
            Given::Press(Call { from: 1, to: 2 }),
            Given::Gather(1),
            Given::Refresh {
                run_limit: 1,
                cars: 1,
                pos: 1,
            },
            Given::Start(0),
            Given::Instruction(0),
            Given::Instruction(0),
            Given::Instruction(0),
            Given::Commit(0),
            Given::Start(0),
            Given::Start(1),
            Given::Instruction(1),
            Given::Instruction(1),
            Given::Instruction(1),
            Given::Commit(1),
            Given::Press(Call { from: 5, to: 4 }),
            Given::Gather(5),
            Given::Refresh {
                run_limit: 1,
                cars: 1,
                pos: 1,
            },
            Given::Instruction(0),
            Given::Instruction(0),
            Given::Instruction(0),
            Given::Commit(0),
        ],
        replies: &[
            Reply::New,
            Reply::Gathered(2),
            Reply::Refreshed,
            Reply::Started,
            Reply::More,
            Reply::More,
            Reply::End,
            Reply::Committed,
            Reply::Started,
            Reply::Started,
            Reply::More,
            Reply::More,
            Reply::End,
            Reply::Committed,
            Reply::New,
            Reply::Gathered(8),
            Reply::Refreshed,
            Reply::More,
            Reply::More,
            Reply::End,
            Reply::Committed,
        ],
        outputs: &[STILL],
        denials: &[],
        answers: &[Answered {
            slot: 1,
            ticket: Some(1),
            car: 1,
            answer: Answer::Stale,
        }],
        slots: &[Slot::Waiting {
            ticket: 2,
            call: Call { from: 5, to: 4 },
        }],
    },
];

// Whether the last report is that of the row; where there is none, the row has none either.
fn reports_last(left: &Left, row: &WorldRow) -> bool {
    match left.reports.as_slice().last() {
        Some(report) => {
            report.outputs.as_slice() == row.outputs
                && report.denials.as_slice() == row.denials
                && report.answers.as_slice() == row.answers
        }
        None => row.outputs.is_empty() && row.denials.is_empty() && row.answers.is_empty(),
    }
}

// Compares what the events of a row leave, one by one and in one run.
fn compare(rt: &impl Abort, alloc: Global, left: &Left, row: &WorldRow) {
    assert!(rt; left.replies.as_slice() == row.replies);
    assert!(rt; reports_last(left, row));
    assert!(rt; left.slots.as_slice() == row.slots);
    assert!(rt; runs_so(alloc, row.text, row.given, left));
}

#[test]
fn groups_reply(rt: HostRuntime) {
    for row in &ROWS {
        let Some(left) = play(rt.alloc(), row.text, row.given) else {
            panic!(&rt; "no memory")
        };
        compare(&rt, rt.alloc(), &left, row);
    }
}
