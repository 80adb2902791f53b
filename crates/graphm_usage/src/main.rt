//! The program of `graphm` once more, for a stored run with a surplus word: it ends with 2.
#![tactic(auto)]

use std::process::ExitCode;

fn main(rt: HostRuntime) -> ExitCode {
    gm_top::run_here(&rt)
}
