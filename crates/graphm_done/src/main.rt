//! The program of `graphm` once more, for a stored `info`, which ends with 0; the run of `graphm` ends with 1.
#![tactic(auto)]

use std::process::ExitCode;

fn main(rt: HostRuntime) -> ExitCode {
    gm_top::run_here(&rt)
}
