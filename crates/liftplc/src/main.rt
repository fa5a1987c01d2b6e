//! The command `liftplc`: it verifies a configuration of lift programs in Instruction List, and
//! simulates the group that they control.
#![tactic(auto)]

use cli_command::program;
use std::process::ExitCode;

fn main(rt: HostRuntime) -> ExitCode {
    program::main(&rt, &rt)
}
