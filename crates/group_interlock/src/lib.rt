//! The interlock: what a commit and a refresh leave of the outputs, and which rules deny (own rules).
//!
//! 1: no reversal of the committed motor at once. 2: a motor runs only locked and with no open command. 3: up not at
//! the top, down not at the bottom. 4: an open command only at a level. 5: fewer than RUNLIMIT other cars run. 6: no
//! car runs up while FIRE holds.
#![tactic(auto)]

mod commit;
mod laws;
mod motor;
mod refresh;
mod settled;

pub use commit::settle_car;
pub use laws::{commit_keeps_obeying, refresh_gives_obeying};
pub use refresh::{settle_all, settle_each};
pub use settled::{AllSettled, Settled, is_same, replace};
