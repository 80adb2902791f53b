//! One info: the grid's numbers.

ghost use Rattle.std.specs.Prelude.{◌≡◌, ◌+◌, ◌≤◌, MatchResult, sum_by};
ghost use Rattle.gm_base.specs.declared.limits.TheConstants.{MAX_CHUNKS, MAX_CHUNK_SIZE};
ghost use Rattle.gm_outside.specs.Frames.{OnlyReads};
ghost use Rattle.gm_words.specs.Commands.{info_said};
ghost use Rattle.gm_commands.specs.Endings.{outside, Handles};
ghost use Rattle.gm_commands.specs.Failures.{status_of};
ghost use Rattle.gm_tools.specs.Infos.{info_contract, info_text, text_of_catalogue};

use crate::grid_opening::load_grid;
use gm_commands::Failure;
use gm_label::Catalogue;
use gm_output::Line;
use gm_outside::{Depot, Sink};
use gm_source::laws::catalogued_files_are_grids;
use gm_words::InfoCommand;
use std::alloc::Global;

/// The output for these numbers.
#[tactic(auto, unfolding(crate::specs::Infos::info_text))]
fn info_lines(cat: &Catalogue, edges: u64) -> Line
    ensures { result ≡ text_of_catalogue cat.now edges }
{
    let mut line = Line::new();
    line.text(b"vertices ");
    line.number(u64::from(cat.shape().n()));
    line.text(b"\nparts ");
    line.number(u64::from(cat.shape().parts()));
    line.text(b"\nedges ");
    line.number(edges);
    line.text(b"\nchunks ");
    line.number(u64::from(cat.chunks()));
    line.text(b"\nlabels ");
    line.number(cat.pairs() as u64);
    line.text(b"\n");
    line
}

/// How many edges the chunks have.
fn count_edges(cat: &Catalogue) -> u64
    ensures { result ≡ sum_by (λ place. place.count) cat.now.places }
{
    let mut edges = 0;
    for chunk in 0..cat.chunks() {
        edges += u64::from(cat.chunk(chunk).length);
    }
    edges
}

/// Opens the command's grid chunk by chunk, and writes its numbers. The answer is the status after it.
pub fn run_info<D: Depot, K: Sink>(
    alloc: Global,
    command: &InfoCommand<'_>,
    depot: &mut D,
    out: &mut K,
) -> Result<u8, Failure>
    requires some { 1 ≤ command.now.chunk }
    requires short { command.now.chunk ≤ MAX_CHUNK_SIZE }
    ensures handles { Handles (info_contract (info_said command.now))
        (outside (D.state depot.old) (K.state out.old))
        (outside (D.state depot.new) (K.state out.new)) result }
    ensures frame { OnlyReads 1 (2 + MAX_CHUNKS) (D.state depot.old) (D.state depot.new) }
    ensures reads { MatchResult result
        ((info_contract (info_said command.now)).Reads (D.state depot.old) (D.state depot.new))
        (λ failure. (info_contract (info_said command.now)).Reads (D.state depot.old) (D.state depot.new)
        (status_of failure)) }
    ensures out_faults { (K.state out.old).faults ≤ (K.state out.new).faults }
{
    catalogued_files_are_grids();
    let cat = load_grid(alloc, depot, command.grid, command.chunk)?;
    let output = info_lines(&cat, count_edges(&cat));
    match out.write(output.as_slice()) {
        Ok(()) => Ok(0),
        Err(trouble) => Err(Failure::OutputFailed.by(trouble)),
    }
}
