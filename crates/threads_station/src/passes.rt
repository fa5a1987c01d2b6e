// The pass of a task.

ghost use Rattle.std.specs.Prelude.{◌≡◌, ◌≤◌, ◌%◌};
ghost use Rattle.scan_task.specs.Scanning.{HasTask};
ghost use Rattle.threads_station.specs.Passes.{task_of, count_of, KeepsStore};

use crate::actor::{Naming, TaskShare};
use group_spec::MOST_CARS;
use scan_task::Store;
use std::marker::Model;

/// The pass of a task of the group. It counts the task's entries in the journal, and between scans it has a store of the task.
pub struct TaskPass<G: Naming> {
    pub(crate) share: TaskShare<G>,
    pub(crate) store: Option<Store>,
}

// Drops here are written by hand, since who drops a type whose drop is derived proves the drop of each type inside again.
impl<G: Naming> Drop for TaskPass<G> {
    fn drop(self) {
        let TaskPass {
            share: _share,
            store: _store,
        } = self;
    }
}

impl<G: Naming> Model for TaskPass<G> {
    ghost use Rattle.std.specs.Prelude.{◌≡◌};
    ghost use Rattle.scan_task.specs.Scanning.{HasTask};
    ghost use Rattle.threads_station.specs.Passes.{TaskCount, task_count_code, task_of, count_of, KeepsStore};

    ghost Value = { TaskCount };

    ghost coded = { task_count_code };

    ghost view = { λ p. record { task = task_of p.share; count = count_of p.share } };

    ghost invariant = { λ p. HasTask G.program.config (task_of p.share)
        × KeepsStore G.program.config (task_of p.share) (count_of p.share) p.store };
}

impl<G: Naming> TaskPass<G> {
    /// The task: 0 is GROUP, k is CARk.
    pub fn task(&self) -> u8
        ensures number { (result ≡ self.now.task) × (result ≤ MOST_CARS) }
        ensures there { HasTask G.program.config self.now.task }
    {
        self.share.task()
    }

    // The share and the store.
    pub(crate) fn into_parts(self) -> (TaskShare<G>, Option<Store>)
        ensures share { (task_of result.0 ≡ self.task) × (count_of result.0 ≡ self.count) }
        ensures there { HasTask G.program.config self.task }
        ensures store { KeepsStore G.program.config self.task self.count result.1 }
    {
        let TaskPass { share, store } = self;
        (share, store)
    }

    // The share.
    pub(crate) fn into_share(self) -> TaskShare<G>
        ensures { (task_of result ≡ self.task) × (count_of result ≡ self.count) }
    {
        let TaskPass {
            share,
            store: _store,
        } = self;
        share
    }
}
