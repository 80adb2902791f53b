//! One run: the files, the jobs over the grid's chunks, and the report.

ghost use Rattle.std.specs.Prelude.{◌≡◌, ◌+◌, ◌≤◌, suc, ℕ, List, [], ◌∷◌, length, All, Some, None, IfOk, OnOk, IfErr, IfSome, MatchResult};
ghost use Rattle.std.specs.List.{list_any};
ghost use Rattle.gm_base.specs.declared.limits.TheConstants.{MAX_CHUNKS, MAX_CHUNK_SIZE, MAX_VERTICES};
ghost use Rattle.gm_jobs.specs.StatedJobs.{jobs_of, stated_jobs};
ghost use Rattle.gm_outside.specs.Frames.{OnlyReads};
ghost use Rattle.gm_job_run.specs.JobLines.{AreLinesOfJobs, FaultsOf, IsTold, RunOver, runs_weight};
ghost use Rattle.gm_grid.specs.GridBytes.{edges_in};
ghost use Rattle.gm_source.specs.Openings.{opening_reads, ReadsJust, ReadsUpTo};
ghost use Rattle.gm_source.specs.Fetches.{TellsGrid};
ghost use Rattle.gm_commands.specs.Readings.{AreTaken, AsksJust, ReadsFiles};
ghost use Rattle.gm_jobs.specs.JobBounds.{IsScriptOver};
ghost use Rattle.gm_job_run.specs.JobRuns.{ReadsSome};
ghost use Rattle.gm_words.specs.Commands.{run_said};
ghost use Rattle.gm_commands.specs.Endings.{outside, Handles};
ghost use Rattle.gm_commands.specs.Failures.{status_of};
ghost use Rattle.gm_top.specs.RunEndings.{OpenedFew, ReadsRun, StopsWhereRefused, IsRunFailure, run_contract};
ghost use Rattle.gm_top.specs.RunReports.{AreReported, is_failed, status_after};
ghost use Rattle.gm_top.specs.RunReadings.{IsRefusalOrMemory, jobs_text_refusal, jobs_reading, files_reading, run_reading, HoldsRun, TellsJobs, StatesJobs};

use gm_base::{JobLine, Outcome};
use gm_commands::{Failure, FileText, Operand, Refusal, read_file};
use gm_grid::laws::grid_reads_back;
use gm_job_run::run_script;
use gm_jobs::laws::{long_text_is_refused, scripts_are_within_bounds};
use gm_jobs::{JobsRefusal, MAX_TEXT_BYTES, Script, read};
use gm_kernel::laws::jobs_settle_by_round_n;
use gm_label::Catalogue;
use gm_outside::{Depot, Sink};
use gm_report::write;
use gm_scripts::laws::jobs_see_vertices;
use gm_source::laws::catalogues_are_over_their_edges;
use gm_tools::load_grid;
use gm_versions::laws::snapshots_are_graphs;
use gm_words::RunCommand;
use std::alloc::{AllocError, Global};
use std::sync::Arc;

/// The script of a text, for a graph of n vertices.
fn read_script(alloc: Global, text: &[u8], n: u32) -> Result<Script, Failure>
    requires { (1 ≤ n) × (n ≤ MAX_VERTICES) }
    ensures stated { IfOk result (λ script. stated_jobs n text.now ≡ Some (jobs_of script)) }
    ensures over { IfOk result (IsScriptOver n) }
    ensures taken { OnOk result (jobs_text_refusal n text.now ≡ None) }
    ensures err { IfErr result (IsRefusalOrMemory (jobs_text_refusal n text.now)) }
{
    scripts_are_within_bounds();
    match read(alloc, text, n) {
        Ok(script) => Ok(script),
        Err(error) => Err(match error.refusal() {
            Some(refusal) => Failure::Refused(Refusal::JobText(refusal)),
            None => Failure::OutOfMemory,
        }),
    }
}

/// The script of the command's job text, for a graph of n vertices. A text that is too long isn't read.
fn load_script<D: Depot>(
    alloc: Global,
    depot: &mut D,
    command: &RunCommand<'_>,
    n: u32,
) -> Result<Script, Failure>
    requires { (1 ≤ n) × (n ≤ MAX_VERTICES) }
    ensures tells { IfSome (D.state depot.old).files (λ files.
        IfOk result (λ script. TellsJobs files command.now.jobs.now n (jobs_of script))) }
    ensures states { IfOk result (λ script. StatesJobs n (jobs_of script)) }
    ensures over { IfOk result (IsScriptOver n) }
    ensures read { OnOk result (ReadsJust 1 (D.state depot.old) (D.state depot.new)) }
    ensures frame { OnlyReads 1 1 (D.state depot.old) (D.state depot.new) }
    ensures reads { ReadsFiles 1 1 (jobs_reading (run_said command.now) n)
        (D.state depot.old) (D.state depot.new) result }
{
    let text = match read_file(
        alloc,
        depot,
        command.jobs,
        Operand::Jobs,
        MAX_TEXT_BYTES as u64,
    )? {
        FileText::Whole(text) => text,
        FileText::Longer(bytes) => {
            long_text_is_refused();
            let refusal = JobsRefusal::TooLong { bytes };
            return Err(Failure::Refused(Refusal::JobText(refusal)));
        }
    };
    read_script(alloc, &text, n)
}

/// The catalogue of the command's grid, and the script of its job text.
fn load<D: Depot>(
    alloc: Global,
    depot: &mut D,
    command: &RunCommand<'_>,
) -> Result<(Catalogue, Script), Failure>
    requires { (1 ≤ command.now.chunk) × (command.now.chunk ≤ MAX_CHUNK_SIZE) }
    ensures holds { IfOk result (λ loaded. IfSome (D.state depot.old).files (λ files.
        HoldsRun (run_said command.now) files loaded.0 (jobs_of loaded.1))) }
    ensures states { IfOk result (λ loaded. StatesJobs loaded.0.dimensions.n (jobs_of loaded.1)) }
    ensures over { IfOk result (λ loaded. IsScriptOver loaded.0.dimensions.n loaded.1) }
    ensures read { IfOk result (λ loaded.
        ReadsJust (suc (opening_reads loaded.0.places)) (D.state depot.old) (D.state depot.new)) }
    ensures frame { OnOk result (OnlyReads 2 (3 + MAX_CHUNKS) (D.state depot.old) (D.state depot.new)) }
    ensures few { IfSome (D.state depot.old).files
        (OpenedFew (run_said command.now) (D.state depot.old) (D.state depot.new)) }
    ensures stops { MatchResult result
        (λ _. StopsWhereRefused (run_said command.now) (D.state depot.old) (D.state depot.new) 0)
        (λ failure. StopsWhereRefused (run_said command.now) (D.state depot.old) (D.state depot.new)
        (status_of failure)) }
    ensures reads { ReadsFiles 2 (3 + MAX_CHUNKS) (files_reading (run_said command.now))
        (D.state depot.old) (D.state depot.new) result }
{
    grid_reads_back();
    let cat = load_grid(alloc, depot, command.grid, command.chunk)?;
    let n = cat.shape().n();
    let script = load_script(alloc, depot, command, n)?;
    Ok((cat, script))
}

/// The lines of the script's jobs, run over the grid of this name.
fn run_loaded<D: Depot>(
    alloc: Global,
    depot: &mut D,
    name: &str,
    cat: Catalogue,
    script: Script,
) -> Result<Vec<JobLine>, Failure>
    requires over { IsScriptOver cat.dimensions.n script }
    ensures lines { IfOk result (λ lines.
        AreLinesOfJobs (λ job outcome. IsTold outcome) (jobs_of script) lines.items) }
    ensures ends { (bytes : List ℕ) → TellsGrid (D.state depot.old).files name.now cat bytes
        → IfOk result (λ lines. RunOver cat (edges_in bytes) (D.state depot.old) (D.state depot.new)
        (jobs_of script) lines.items) }
    ensures few { (bytes : List ℕ) → TellsGrid (D.state depot.old).files name.now cat bytes
        → ReadsUpTo (runs_weight cat (edges_in bytes) (jobs_of script))
        (D.state depot.old) (D.state depot.new) }
    ensures faults { IfOk result (λ lines.
        FaultsOf lines.items (D.state depot.old).faults (D.state depot.new).faults) }
    ensures memory { IfErr result (λ failure. failure ≡ Failure.OutOfMemory) }
    ensures frame { ReadsSome (D.state depot.old) (D.state depot.new) }
{
    let cat = match Arc::new(alloc, cat) {
        Ok(cat) => cat,
        Err(error) => return Err(AllocError::from(error).into()),
    };
    let lines = run_script(alloc, depot, name, &cat, script)?;
    Ok(lines)
}

/// The lines of the command's jobs.
fn compute<D: Depot>(
    alloc: Global,
    depot: &mut D,
    command: &RunCommand<'_>,
) -> Result<Vec<JobLine>, Failure>
    requires { (1 ≤ command.now.chunk) × (command.now.chunk ≤ MAX_CHUNK_SIZE) }
    ensures lines { IfOk result (λ lines.
        AreReported (run_said command.now) (D.state depot.old) (D.state depot.new) lines.items) }
    ensures taken { OnOk result (AreTaken (run_reading (run_said command.now)) (D.state depot.old).files) }
    ensures asked { OnOk result (AsksJust 2 (D.state depot.old) (D.state depot.new)) }
    ensures err { IfErr result (IsRunFailure (run_said command.now) (D.state depot.old) (D.state depot.new)) }
    ensures reads { MatchResult result
        (λ _. ReadsRun (run_said command.now) (D.state depot.old) (D.state depot.new) 0)
        (λ failure. ReadsRun (run_said command.now) (D.state depot.old) (D.state depot.new)
        (status_of failure)) }
{
    grid_reads_back();
    jobs_settle_by_round_n();
    catalogues_are_over_their_edges();
    snapshots_are_graphs();
    jobs_see_vertices();
    let (cat, script) = load(alloc, depot, command)?;
    run_loaded(alloc, depot, command.grid, cat, script)
}

/// Whether a line tells of a failure.
fn is_failed(line: &JobLine) -> bool
    ensures { result ≡ is_failed line.now }
{
    !matches!(line.outcome, Outcome::Done { .. })
}

/// Whether one of the lines tells of a failure.
fn any_failed(lines: &[JobLine]) -> bool
    ensures { result ≡ list_any is_failed lines.now }
{
    lines.iter().any(|line| is_failed(line))
}

/// The status after a report of these lines: 1 where one of them tells of a failure.
fn status_after(lines: &[JobLine]) -> u8
    ensures value { result ≡ status_after lines.now }
    ensures small { result ≤ 1 }
{
    if any_failed(lines) { 1 } else { 0 }
}

/// Runs the command's jobs and writes their report. The answer is the status after it, 1 exactly where a job failed.
pub(crate) fn run<D: Depot, K: Sink>(
    alloc: Global,
    command: &RunCommand<'_>,
    depot: &mut D,
    out: &mut K,
) -> Result<u8, Failure>
    requires { (1 ≤ command.now.chunk) × (command.now.chunk ≤ MAX_CHUNK_SIZE) }
    ensures handles { Handles (run_contract (run_said command.now))
        (outside (D.state depot.old) (K.state out.old))
        (outside (D.state depot.new) (K.state out.new)) result }
    ensures status { IfOk result (λ status. status ≤ 1) }
    ensures reads { MatchResult result
        (ReadsRun (run_said command.now) (D.state depot.old) (D.state depot.new))
        (λ failure. ReadsRun (run_said command.now) (D.state depot.old) (D.state depot.new)
        (status_of failure)) }
    ensures out_faults { (K.state out.old).faults ≤ (K.state out.new).faults }
{
    let lines = compute(alloc, depot, command)?;
    match write(&lines, out) {
        Ok(()) => Ok(status_after(&lines)),
        Err(trouble) => Err(Failure::OutputFailed.by(trouble)),
    }
}
