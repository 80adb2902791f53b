//! The program over the real outside.

ghost use Rattle.std.specs.Process.{exit_status};
ghost use Rattle.gm_top.specs.Promises.{EndsSomeCall};

use crate::starting::program;
use gm_outside::{FileDepot, OpenGate, WriteSink};
use std::process::ExitCode;
use std::{env, io};

/// Runs the [`program`] over the files of this machine, with its standard streams and the arguments of this process.
pub fn run_here(rt: &HostRuntime) -> ExitCode
    ensures { EndsSomeCall (exit_status result) }
{
    let (mut out, mut err) = (WriteSink::new(io::writer(rt)), WriteSink::new(rt.stderr()));
    let depot = FileDepot::new(rt);
    let (code, _depot) = program(rt, env::args(rt), depot, &mut out, &mut err, OpenGate);
    code
}
