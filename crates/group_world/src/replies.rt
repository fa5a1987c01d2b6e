// Replies, with room for them.

ghost use Rattle.std.specs.Prelude.{◌≡◌, ◌≤◌, ◌+◌, ◌<◌, [], ◌++◌, ◌∷◌, map, flat_map, length, vec_capacity, IfOk};
ghost use Rattle.group_spec.specs.Replies.{reply_with};
ghost use Rattle.group_world.specs.Running.{answer_of, report_of, reports_by};

use group_spec::event::Reply;
use group_spec::report::Report;
use std::alloc::{AllocError, Global};
use std::marker::Model;
use std::mem;

/// Replies, with room for them. The reports of commits and refreshes are kept apart, in the same order.
#[derive(Drop)]
pub struct Replies {
    replies: Vec<Reply>,
    reports: Vec<Report>,
}

impl Model for Replies {
    ghost use Rattle.std.specs.Vec.{vec_capacity};
    ghost use Rattle.std.specs.Prelude.{length};
    ghost use Rattle.group_world.specs.Running.{Answers, replies_of, AreReports};

    ghost Value = { Answers };

    ghost view = { λ r. record {
      items = replies_of r.replies.items r.reports.items;
      room = vec_capacity r.replies;
      reports = length r.reports.items;
      report_room = vec_capacity r.reports;
    } };

    ghost invariant = { λ r. AreReports r.replies.items r.reports.items };
}

// Takes the report that is beside a reply, if one does; there is room for it.
fn keep(reports: &mut Vec<Report>, reply: Reply, report: &mut Report)
    requires { length reports.old.items + reports_by reply ≤ vec_capacity reports.old }
    ensures plain { reports_by reply ≡ 0 → reports.new.items ≡ reports.old.items }
    ensures one { reports_by reply ≡ 1 → reports.new.items ≡ reports.old.items ++ report.old ∷ [] }
    ensures many { length reports.new.items ≡ length reports.old.items + reports_by reply }
    ensures room { vec_capacity reports.old ≤ vec_capacity reports.new }
{
    match reply {
        Reply::Committed | Reply::Refreshed => {
            reports.push(mem::replace(report, Report::new())).unwrap()
        }
        _ => {}
    }
}

// Adds a reply, for which there is room.
fn add(replies: &mut Vec<Reply>, reply: Reply)
    requires { length replies.old.items < vec_capacity replies.old }
    ensures items { replies.new.items ≡ replies.old.items ++ reply ∷ [] }
    ensures room { vec_capacity replies.old ≤ vec_capacity replies.new }
{
    replies.push(reply).unwrap()
}

impl Replies {
    /// Room for so many replies, and for so many reports.
    pub fn with_room(alloc: Global, replies: usize, reports: usize) -> Result<Replies, AllocError>
        ensures empty { IfOk result (λ r. (r.items ≡ []) × (r.reports ≡ 0)) }
        ensures room { IfOk result (λ r. replies ≤ r.room) }
        ensures report_room { IfOk result (λ r. reports ≤ r.report_room) }
    {
        Ok(Replies {
            replies: Vec::with_capacity(alloc, replies)?,
            reports: Vec::with_capacity(alloc, reports)?,
        })
    }

    /// The replies. Where one is Committed or Refreshed, its report is the next of `reports`.
    pub fn as_slice(&self) -> &[Reply]
        ensures { result.now ≡ map answer_of self.now.items }
    {
        self.replies.as_slice()
    }

    /// The reports of the commits and refreshes, in their order.
    pub fn reports(&self) -> &[Report]
        ensures { result.now ≡ flat_map report_of self.now.items }
    {
        self.reports.as_slice()
    }

    /// Adds a reply, for which there is room; where it has a report, that is taken, and there is room for it.
    pub fn push(&mut self, reply: Reply, report: &mut Report)
        requires room { length self.old.items < self.old.room }
        requires report_room { self.old.reports + reports_by reply ≤ self.old.report_room }
        ensures items { self.new.items ≡ self.old.items ++ reply_with reply report.old ∷ [] }
        ensures room { self.old.room ≤ self.new.room }
        ensures reports { self.new.reports ≡ self.old.reports + reports_by reply }
        ensures report_room { self.old.report_room ≤ self.new.report_room }
    {
        keep(&mut self.reports, reply, report);
        add(&mut self.replies, reply)
    }
}
