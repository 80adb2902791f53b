//! The jobs of a script over a depot's chunks, one after the other.

ghost use Rattle.std.specs.Prelude.{◌≡◌, ◌≤◌, ◌+◌, ℕ, List, [], length, IfOk, MatchResult};
ghost use Rattle.std.specs.Arc.{arc_value};
ghost use Rattle.gm_job_run.specs.JobRuns.{pass_reads, JobEnds, CountsOutcomes, ReadsSome};
ghost use Rattle.gm_grid.specs.GridBytes.{edges_in};
ghost use Rattle.gm_jobs.specs.JobBounds.{IsScriptOver};
ghost use Rattle.gm_jobs.specs.StatedJobs.{jobs_of};
ghost use Rattle.gm_source.specs.Fetches.{TellsGrid};
ghost use Rattle.gm_source.specs.Openings.{ReadsUpTo};
ghost use Rattle.gm_job_run.specs.JobLines.{AreLinesOfJobs, IsTold, RunOver, FaultsOf, job_below, line_of_job, view_below, runs_weight};
ghost use Rattle.gm_kernel.specs.Runs.{most_rounds};
ghost use Rattle.gm_work.specs.Weights.{run_weight};
ghost use Rattle.gm_versions.specs.Kept.{IsOf};
ghost use Rattle.gm_versions.specs.Snapshots.{IsSnapshotOver};
ghost use Rattle.gm_scripts.specs.ScriptJobs.{snapshot_of};

use crate::job_run::run_job;
use crate::view::View;
use gm_base::{JobLine, Memory, Name, Spec};
use gm_changes::Changes;
use gm_jobs::{Line, Script};
use gm_label::Catalogue;
use gm_outside::Depot;
use gm_private::Own;
use gm_source::Fetcher;
use gm_versions::Versions;
use std::alloc::Global;
use std::sync::Arc;

/// A job of a script.
#[derive(Drop)]
struct Job {
    /// In file order, from 0.
    number: u32,
    name: Name,
    spec: Spec,
    /// The changes that it makes to its own view of the graph.
    own: Changes,
}

/// The line of a job that is run over the chunks of a grid with all of these updates and with its own changes.
fn run_line<D: Depot>(
    alloc: Global,
    fetcher: &mut Fetcher,
    depot: &mut D,
    grid: &str,
    cat: Arc<Catalogue>,
    versions: &Versions,
    job: Job,
) -> Result<JobLine, Memory>
    requires some { 1 ≤ most_rounds job.spec }
    requires versions { IsOf (arc_value cat) versions.now }
    requires over { IsSnapshotOver (arc_value cat).dimensions.n (snapshot_of (job_below versions.now job)) }
    ensures line { IfOk result (λ line. line ≡ line_of_job (job_below versions.now job) line.outcome) }
    ensures ends { (bytes : List ℕ) → TellsGrid (D.state depot.old).files grid.now (arc_value cat) bytes
        → IfOk result (λ line.
        JobEnds (view_below (arc_value cat) bytes versions.now job) (pass_reads (arc_value cat))
        (D.state depot.old) (D.state depot.new) line.outcome) }
    ensures few { (bytes : List ℕ) → TellsGrid (D.state depot.old).files grid.now (arc_value cat) bytes
        → ReadsUpTo
        (run_weight (view_below (arc_value cat) bytes versions.now job) (pass_reads (arc_value cat)))
        (D.state depot.old) (D.state depot.new) }
    ensures faults { CountsOutcomes (D.state depot.old) (D.state depot.new) (λ line. line.outcome) result }
    ensures frame { ReadsSome (D.state depot.old) (D.state depot.new) }
{
    let version = versions.count();
    let own = Own::new(job.number, version, job.own);
    let view = View {
        name: grid,
        versions,
        own: &own,
    };
    let outcome = run_job(alloc, fetcher, depot, &view, cat, job.spec)?;
    Ok(JobLine {
        name: job.name,
        version,
        outcome,
    })
}

/// Runs the jobs of a script over the chunks of a grid, one after the other: each over the updates above its line and with its own changes, to
/// its end or to the first chunk that can't be had, and then the next one. The answer is their lines, in file order. `Memory` where there was
/// none for an update, for a job, or for its line.
pub fn run_script<D: Depot>(
    alloc: Global,
    depot: &mut D,
    grid: &str,
    cat: &Arc<Catalogue>,
    script: Script,
) -> Result<Vec<JobLine>, Memory>
    requires over { IsScriptOver (arc_value cat.now).dimensions.n script }
    ensures lines { IfOk result (λ lines.
        AreLinesOfJobs (λ job outcome. IsTold outcome) (jobs_of script) lines.items) }
    ensures ends { (bytes : List ℕ)
        → TellsGrid (D.state depot.old).files grid.now (arc_value cat.now) bytes
        → IfOk result (λ lines.
        RunOver (arc_value cat.now) (edges_in bytes) (D.state depot.old) (D.state depot.new)
        (jobs_of script) lines.items) }
    ensures few { (bytes : List ℕ)
        → TellsGrid (D.state depot.old).files grid.now (arc_value cat.now) bytes
        → ReadsUpTo (runs_weight (arc_value cat.now) (edges_in bytes) (jobs_of script))
        (D.state depot.old) (D.state depot.new) }
    ensures faults { IfOk result (λ lines.
        FaultsOf lines.items (D.state depot.old).faults (D.state depot.new).faults) }
    ensures frame { ReadsSome (D.state depot.old) (D.state depot.new) }
{
    let mut versions = Versions::new(alloc);
    let mut fetcher = Fetcher::new(alloc);
    let mut lines = Vec::new(alloc);
    for entry in script.into_lines() {
        match entry {
            Line::Job { name, spec, own } => {
                let number = lines.len() as u32;
                let job = Job {
                    number,
                    name,
                    spec,
                    own,
                };
                let cat = cat.clone()?;
                let line = run_line(alloc, &mut fetcher, depot, grid, cat, &versions, job)?;
                lines.push(line)?;
            }
            Line::Update { batch } => versions.update(cat, batch.as_slice())?,
            Line::Wait { .. } => {}
        }
    }
    Ok(lines)
}
