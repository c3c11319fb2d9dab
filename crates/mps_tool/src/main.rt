//! The program, which checks protocols, runs and compares scripts of commands on multiparty sessions, and serves such
//! sessions.
#![tactic(auto)]

use mps_program::program;
use std::process::ExitCode;

// Runs the program, and ends with its status. All is in `mps_program`, so that tests can run it as a library.
fn main(rt: HostRuntime) -> ExitCode {
    program(&rt)
}
