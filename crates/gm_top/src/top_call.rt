//! The top call.

ghost use Rattle.std.specs.Prelude.{◌≡◌, ◌≤◌, IfOk, MatchResult};
ghost use Rattle.gm_words.specs.Commands.{said, HasChunkSize};
ghost use Rattle.gm_commands.specs.Endings.{call_of, outside, Handles, IsComplete};
ghost use Rattle.gm_commands.specs.Failures.{status_of};
ghost use Rattle.gm_top.specs.RunEndings.{contract_of};
ghost use Rattle.gm_top.specs.Promises.{KeepsPromises};

use crate::run_call::run;
use gm_base::{Memory, Words};
use gm_commands::{Failure, conclude, say_out_of_memory, say_usage};
use gm_outside::{Depot, Gate, Sink};
use gm_tools::{run_build, run_info};
use gm_words::{Command, read_words};
use std::sync::Arc;

/// Does what the command says. The answer is the status after it.
fn perform<R: AllocGlobal, D: Depot, K: Sink>(
    rt: &R,
    command: &Command<'_>,
    depot: &mut D,
    out: &mut K,
) -> Result<u8, Failure>
    requires { HasChunkSize (said command.now) }
    ensures handles { Handles (contract_of (said command.now)) (outside (D.state depot.old) (K.state out.old))
        (outside (D.state depot.new) (K.state out.new)) result }
    ensures status { IfOk result (λ status. status ≤ (contract_of (said command.now)).most_success) }
    ensures files { (contract_of (said command.now)).KeepsFiles (D.state depot.old) (D.state depot.new) }
    ensures reads { MatchResult result
        ((contract_of (said command.now)).Reads (D.state depot.old) (D.state depot.new))
        (λ failure. (contract_of (said command.now)).Reads (D.state depot.old) (D.state depot.new) (status_of failure)) }
    ensures completeness { MatchResult result
        (IsComplete (contract_of (said command.now)) (outside (D.state depot.old) (K.state out.old))
        (outside (D.state depot.new) (K.state out.new)))
        (λ failure. IsComplete (contract_of (said command.now)) (outside (D.state depot.old) (K.state out.old))
        (outside (D.state depot.new) (K.state out.new)) (status_of failure)) }
    ensures faults { (D.state depot.old).faults ≤ (D.state depot.new).faults }
    ensures out_faults { (K.state out.old).faults ≤ (K.state out.new).faults }
    ensures calm { (D.state depot.new).calm ≡ (D.state depot.old).calm }
{
    match command {
        Command::Run(command) => run(rt.alloc(), command, depot, out),
        Command::Build(command) => run_build(rt.alloc(), command, depot, out),
        Command::Info(command) => run_info(rt.alloc(), command, depot, out),
    }
}

/// Does what the words say over the depot's files. The answer is the program's status, and the depot.
///
/// 0 and 1: the report or the tool's output was written whole, and 1 exactly where a job failed. 2: the words are no command. 3, 4 and 5:
/// a file is missing, is no grid or no edge list, or is no job text. 6: the depot failed. 7: standard output failed. 8: want of memory. From
/// 2 on a line went to `err`, or a first part where `err` failed.
pub fn graphm<R: AllocGlobal, D: Depot + Send, K: Sink, E: Sink, G: Gate + Send + Sync + Drop>(
    rt: &R,
    words: &Words,
    depot: D,
    out: &mut K,
    err: &mut E,
    gate: Arc<G>,
) -> (u8, D)
    ensures { KeepsPromises (call_of words.now (outside (D.state depot) (K.state out.old))
        (outside (D.state result.1) (K.state out.new)) (E.state err.old) (E.state err.new) result.0) }
{
    let mut depot = depot;
    drop(gate);
    match read_words(rt.alloc(), words) {
        Ok(Some(command)) => {
            let outcome = perform(rt, &command, &mut depot, out);
            (conclude(err, &command, outcome), depot)
        }
        Ok(None) => {
            say_usage(err);
            (2, depot)
        }
        Err(Memory) => {
            say_out_of_memory(err);
            (8, depot)
        }
    }
}
