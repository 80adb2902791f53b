//! Runs graph jobs over a grid file.
#![tactic(auto)]

use std::process::ExitCode;

fn main(rt: HostRuntime) -> ExitCode {
    gm_top::run_here(&rt)
}
