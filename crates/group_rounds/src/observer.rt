// What sees a simulation go by.

ghost use Rattle.std.specs.Prelude.{◌≡◌, ◌++◌, ℕ, [], List, OnOk};
ghost use Rattle.group_rounds.specs.Shown.{Shows, behind};

use group_spec::report::Report;
use group_world::World;
use std::alloc::AllocError;

/// What sees a simulation go by, round by round, and writes a text of it. Rounds count from 1.
pub trait Observer {
    // The text so far.
    ghost text: { Self → List ℕ };

    // What it writes of what it is still to see.
    ghost shows: { Self → Shows };

    /// The refresh of a round has reported.
    fn refreshed(&mut self, round: u16, report: &Report) -> Result<(), AllocError>
        ensures text { OnOk result (text self.new ≡ text self.old
            ++ (shows self.old).of_refresh round report.now) }
        ensures same { OnOk result (shows self.new ≡ shows self.old) };

    /// The commit of a task's scan has reported: 0 is GROUP, k is CARk.
    fn committed(&mut self, round: u16, task: u8, report: &Report) -> Result<(), AllocError>
        ensures text { OnOk result (text self.new ≡ text self.old
            ++ (shows self.old).of_commit round task report.now) }
        ensures behind { OnOk result (shows self.new
            ≡ behind (record { task = task; report = report.now }) (shows self.old)) };

    /// A round is over, and left the world so.
    fn ended(&mut self, round: u16, world: &World) -> Result<(), AllocError>
        ensures text { OnOk result (text self.new ≡ text self.old
            ++ (shows self.old).of_round round [] world.now.world) }
        ensures same { OnOk result (shows self.new ≡ shows self.old) };
}

/// Nobody: nothing is written.
#[derive(Drop)]
pub struct Nobody;

impl Observer for Nobody {
    ghost use Rattle.group_rounds.specs.Shown.{nothing};
    ghost use Rattle.std.specs.Prelude.{[]};

    ghost text = { λ _. [] };

    ghost shows = { λ _. nothing };

    #[inline(always)]
    fn refreshed(&mut self, _round: u16, _report: &Report) -> Result<(), AllocError> {
        Ok(())
    }

    #[inline(always)]
    fn committed(&mut self, _round: u16, _task: u8, _report: &Report) -> Result<(), AllocError> {
        Ok(())
    }

    #[inline(always)]
    fn ended(&mut self, _round: u16, _world: &World) -> Result<(), AllocError> {
        Ok(())
    }
}
