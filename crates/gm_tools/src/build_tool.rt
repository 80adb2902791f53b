//! One build: the edges of the text, the grid's file and the output.

ghost use Rattle.std.specs.Prelude.{◌≡◌, ◌≤◌, MatchResult};
ghost use Rattle.gm_outside.specs.Causes.{counted};
ghost use Rattle.gm_words.specs.Commands.{build_said};
ghost use Rattle.gm_commands.specs.Endings.{outside, Handles};
ghost use Rattle.gm_commands.specs.Failures.{status_of};
ghost use Rattle.gm_tools.specs.Builds.{output_text, build_contract};

use crate::edge_reading::list_edges;
use gm_base::Edges;
use gm_build::build;
use gm_commands::{Failure, Operand};
use gm_output::Line;
use gm_outside::{Depot, Sink, Trouble};
use gm_words::BuildCommand;
use std::alloc::Global;

/// The failure of a call on the grid's file.
const WRITE_FAILED: Failure = Failure::WriteFailed(Operand::Grid);

/// The output for so many edges and blocks.
#[tactic(auto, unfolding(crate::specs::Builds::output_text))]
fn output_line(edges: usize, blocks: u32) -> Line
    ensures { result ≡ output_text edges blocks }
{
    let mut line = Line::new();
    line.text(b"edges ");
    line.number(edges as u64);
    line.text(b" blocks ");
    line.number(u64::from(blocks));
    line.text(b"\n");
    line
}

/// Reads the command's edges, makes their grid and writes the output. The answer is the status after it.
pub fn run_build<D: Depot, K: Sink>(
    alloc: Global,
    command: &BuildCommand<'_>,
    depot: &mut D,
    out: &mut K,
) -> Result<u8, Failure>
    ensures handles { Handles (build_contract (build_said command.now))
        (outside (D.state depot.old) (K.state out.old))
        (outside (D.state depot.new) (K.state out.new)) result }
    ensures reads { MatchResult result
        ((build_contract (build_said command.now)).Reads (D.state depot.old) (D.state depot.new))
        (λ failure. (build_contract (build_said command.now)).Reads (D.state depot.old) (D.state depot.new)
        (status_of failure)) }
    ensures asked { (D.state depot.new).sizes ≡ counted (D.state depot.old).sizes }
    ensures faults { (D.state depot.old).faults ≤ (D.state depot.new).faults }
    ensures out_faults { (K.state out.old).faults ≤ (K.state out.new).faults }
    ensures calm { (D.state depot.new).calm ≡ (D.state depot.old).calm }
{
    let parts = command.shape.parts();
    let edges = list_edges(alloc, depot, command.edges, command.shape.n())?;
    match build(alloc, &edges, &command.shape, depot, command.grid) {
        Ok(()) => {}
        Err(trouble) => return Err(WRITE_FAILED.by(trouble)),
    }
    let output = output_line(edges.len(), parts * parts);
    match out.write(output.as_slice()) {
        Ok(()) => Ok(0),
        Err(trouble) => Err(Failure::OutputFailed.by(trouble)),
    }
}
