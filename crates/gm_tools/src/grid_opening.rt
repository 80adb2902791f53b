//! The grid of a command, opened chunk by chunk.

ghost use Rattle.std.specs.Prelude.{◌≡◌, ◌+◌, ◌≤◌, IfOk, MatchResult};
ghost use Rattle.gm_base.specs.declared.limits.TheConstants.{MAX_CHUNKS, MAX_CHUNK_SIZE};
ghost use Rattle.gm_outside.specs.Frames.{OnlyReads};
ghost use Rattle.gm_source.specs.Openings.{IsTold, IsCatalogueOf, ReadsJust, opening_reads};
ghost use Rattle.gm_commands.specs.Failures.{status_of};
ghost use Rattle.gm_commands.specs.Readings.{ReadsFiles};
ghost use Rattle.gm_tools.specs.Grids.{OpensGrid, grid_reading, opening_failure};

use gm_commands::{Failure, Operand, Refusal};
use gm_label::Catalogue;
use gm_outside::Depot;
use gm_source::laws::catalogued_files_are_grids;
use gm_source::{OpenError, open_grid};
use std::alloc::Global;

/// The failure that an opening's error is.
fn failure_of_opening(error: OpenError) -> Failure
    ensures { result ≡ opening_failure error }
{
    match error {
        OpenError::Missing => Failure::Refused(Refusal::Missing(Operand::Grid)),
        OpenError::Grid(error) => Failure::Refused(Refusal::Grid(error)),
        OpenError::Fault => Failure::ReadFailed(Operand::Grid),
        OpenError::Memory => Failure::OutOfMemory,
    }
}

/// The catalogue of a command's grid, cut into chunks of this size. `Missing` or `Grid` where the file is refused, `ReadFailed` where the
/// depot failed, else `OutOfMemory`.
pub fn load_grid<D: Depot>(
    alloc: Global,
    depot: &mut D,
    name: &str,
    chunk_size: u32,
) -> Result<Catalogue, Failure>
    requires { (1 ≤ chunk_size) × (chunk_size ≤ MAX_CHUNK_SIZE) }
    ensures catalogue { IfOk result (λ cat.
        IsTold (D.state depot.old).files name.now (λ bytes. IsCatalogueOf bytes chunk_size cat)) }
    ensures read { IfOk result (λ cat.
        ReadsJust (opening_reads cat.places) (D.state depot.old) (D.state depot.new)) }
    ensures frame { OnlyReads 1 (2 + MAX_CHUNKS) (D.state depot.old) (D.state depot.new) }
    ensures opens { MatchResult result
        (λ _. OpensGrid name.now chunk_size (D.state depot.old) (D.state depot.new) 0)
        (λ failure. OpensGrid name.now chunk_size (D.state depot.old) (D.state depot.new)
        (status_of failure)) }
    ensures reads { ReadsFiles 1 (2 + MAX_CHUNKS) (grid_reading name.now chunk_size)
        (D.state depot.old) (D.state depot.new) result }
{
    catalogued_files_are_grids();
    match open_grid(alloc, depot, name, chunk_size) {
        Ok(cat) => Ok(cat),
        Err(error) => Err(failure_of_opening(error)),
    }
}
