// What the workers of a run wait for.

use std::sync::{Condvar, Mutex, Wait};

/// What the workers of a run call on their way. In it they can be held. No clause says that a call comes back.
pub trait Gate {
    /// Whether it holds no task. Then a task commits a scan and starts its next one in one step: it calls `begins` of a round before `committed`
    /// of the one before.
    fn is_open(&self) -> bool {
        false
    }

    /// A task is about to begin its scan of a round. Rounds count from 1.
    fn begins(&self, rt: &impl Wait, task: u8, round: u16);

    /// A scan of the task began.
    fn started(&self, rt: &impl Wait, task: u8);

    /// A scan of the task was committed.
    fn committed(&self, rt: &impl Wait, task: u8);

    /// The refresh of a round was made.
    fn refreshed(&self, rt: &impl Wait, round: u16);

    /// A worker ends before its last round, or could not be started: no one is to wait for it any more.
    fn gives_up(&self, rt: &impl Wait);
}

/// The gate that does nothing: rounds of tasks and refreshes run past one another as the threads come.
#[derive(Clone, Copy)]
pub struct Open;

impl Gate for Open {
    fn is_open(&self) -> bool {
        true
    }

    fn begins(&self, _rt: &impl Wait, _task: u8, _round: u16) {}

    fn started(&self, _rt: &impl Wait, _task: u8) {}

    fn committed(&self, _rt: &impl Wait, _task: u8) {}

    fn refreshed(&self, _rt: &impl Wait, _round: u16) {}

    fn gives_up(&self, _rt: &impl Wait) {}
}

// How far a run is.
#[derive(Clone, Copy, Drop)]
struct Progress {
    /// How many refreshes were made.
    refreshes: u16,
    /// How many scans were committed since the last.
    commits: u8,
    /// Whether no one waits any more.
    is_over: bool,
}

/// The gate under which a round ends for all before the next begins: a task begins once the image was refreshed, and the next refresh waits until each task has
/// committed. The tasks of one round come in any order.
#[derive(Drop)]
pub struct Together {
    tasks: u8,
    progress: Mutex<Progress>,
    moved: Condvar,
}

impl Together {
    /// The gate of so many tasks.
    pub fn new(tasks: u8) -> Together {
        Together {
            tasks,
            progress: Mutex::new(Progress {
                refreshes: 0,
                commits: 0,
                is_over: false,
            }),
            moved: Condvar::new(),
        }
    }
}

impl Gate for Together {
    fn begins(&self, rt: &impl Wait, _task: u8, round: u16) {
        let _refreshed = self
            .moved
            .wait_while(rt, self.progress.lock(rt), |progress| {
                progress.refreshes < round && !progress.is_over
            });
    }

    fn started(&self, _rt: &impl Wait, _task: u8) {}

    fn committed(&self, rt: &impl Wait, _task: u8) {
        let mut progress = self.progress.lock(rt);
        progress.commits = progress.commits.saturating_add(1);
        self.moved.notify_all();
    }

    fn refreshed(&self, rt: &impl Wait, round: u16) {
        let tasks = self.tasks;
        let mut progress = self.progress.lock(rt);
        progress.commits = 0;
        progress.refreshes = round;
        self.moved.notify_all();
        let _committed = self.moved.wait_while(rt, progress, |progress| {
            progress.commits < tasks && !progress.is_over
        });
    }

    fn gives_up(&self, rt: &impl Wait) {
        self.progress.lock(rt).is_over = true;
        self.moved.notify_all();
    }
}
