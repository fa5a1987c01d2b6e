// What a trace tells.

use crate::calls::Call;
use crate::image::Fields;

/// An event of a trace. A commit comes after the task's instructions.
#[derive(Drop)]
pub enum TraceEvent {
    Start(u8),
    Commit(u8),
    Press(Call),
    Gather(u8),
    Refresh(Fields),
}
