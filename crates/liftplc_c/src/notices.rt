// What C is told of a notice.

ghost use Rattle.std.specs.Prelude.{◌≡◌, ◌≤◌, length, map, take};
ghost use Rattle.liftplc_c.specs.Notices.{notice_output};

use group_rounds::notice::Notice;

/// What a round has to tell. Its kind: 1, a call entered a slot under a ticket; 2, a rule denied a wish, or a running motor, to a car; 3, a
/// car was told the call of a ticket; 4, a car served it. What a kind doesn't have is 0.
#[repr(C)]
#[derive(Clone, Copy)]
pub struct NoticeOutput {
    pub ticket: u64,
    pub kind: u8,
    pub car: u8,
    pub rule: u8,
    pub slot: u8,
    pub from: u8,
    pub to: u8,
}

// A notice of a ticket and a car.
fn of_car(kind: u8, ticket: u64, car: u8) -> NoticeOutput
    ensures { result ≡ record {
      ticket = ticket;
      kind = kind;
      car = car;
      rule = 0;
      slot = 0;
      from
          = 0;
      to = 0;
    } }
{
    NoticeOutput {
        ticket,
        kind,
        car,
        rule: 0,
        slot: 0,
        from: 0,
        to: 0,
    }
}

fn notice_output(notice: Notice) -> NoticeOutput
    ensures { result ≡ notice_output notice }
{
    match notice {
        Notice::Entered(entered) => NoticeOutput {
            ticket: entered.ticket,
            kind: 1,
            car: 0,
            rule: 0,
            slot: entered.slot,
            from: entered.call.from,
            to: entered.call.to,
        },
        Notice::Denied(denial) => NoticeOutput {
            ticket: 0,
            kind: 2,
            car: denial.car,
            rule: denial.rule.number(),
            slot: 0,
            from: 0,
            to: 0,
        },
        Notice::Told { ticket, car } => of_car(3, ticket, car),
        Notice::Served { ticket, car } => of_car(4, ticket, car),
    }
}

/// The notices go to the front of the room, in their order.
pub fn put_notices(room: &mut [NoticeOutput], notices: &[Notice])
    requires { length notices.now ≤ length room.old }
    ensures { take (length notices.now) room.new ≡ map notice_output notices.now }
{
    'notices: for index in 0..notices.len() {
        room[index] = notice_output(notices[index]);
    }
}
