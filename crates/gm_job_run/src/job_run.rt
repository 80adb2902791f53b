//! One job over a depot's chunks.

ghost use Rattle.std.specs.Prelude.{◌≡◌, ◌≤◌, ◌<◌, ◌+◌, ℕ, List, true, false, length, slice_set, All, IfOk, IfErr, OnOk, OnErr, Some, None, MatchResult};
ghost use Rattle.std.specs.Arc.{arc_value};
ghost use Rattle.gm_base.specs.Graph.{HasEndsBelow};
ghost use Rattle.gm_job_run.specs.JobRuns.{pass_reads, CountsStops, CountsOutcomes, OfChunk, IsToldStop, ReadsSome, IsOfChunks, JobEnds, outcome_of_stop, outcome_of_end, end_of, stop_of};
ghost use Rattle.gm_outside.specs.Frames.{OnlyReads};
ghost use Rattle.gm_grid.specs.GridBytes.{edges_in};
ghost use Rattle.gm_source.specs.Fetches.{TellsGrid, FitsCatalogue};
ghost use Rattle.gm_source.specs.Openings.{ReadsJust, ReadsUpTo};
ghost use Rattle.gm_label.specs.Catalogues.{base_at};
ghost use Rattle.gm_kernel.specs.Runs.{most_rounds};
ghost use Rattle.gm_versions.specs.Snapshots.{IsSnapshotOver, content_of, overlays_of};
ghost use Rattle.gm_job_run.specs.SeenViews.{IsViewOf, Sees, StaysIn, EndsIn, CarriesIn, seen_in, shown_view};
ghost use Rattle.gm_active.specs.Bits.{is_in};
ghost use Rattle.gm_label.specs.Overlays.{key_at};
ghost use Rattle.gm_work.specs.JobStates.{owes_any};
ghost use Rattle.gm_work.specs.Weights.{run_weight};

use crate::view::View;
use gm_base::{ChunkCopy, Key, Memory, Outcome, Spec, Turned};
use gm_core::laws::views_are_cut;
use gm_label::{Catalogue, Raw};
use gm_outside::Depot;
use gm_source::laws::catalogues_are_over_their_edges;
use gm_source::{FetchError, Fetcher};
use gm_work::Work;
use gm_work::laws::{begins, determined, owed_chunks, passes, turns, turns_end, weight_is_left};
use std::alloc::Global;
use std::sync::Arc;

/// Why a job stopped before its end.
#[derive(Drop)]
pub(crate) enum Stop {
    /// A chunk that it owed couldn't be read.
    Read { chunk: u32 },
    /// A chunk that it owed is another than when the grid was opened.
    Changed { chunk: u32 },
    /// There was no memory.
    Memory,
}

/// How a job came to its end.
#[derive(Drop)]
pub(crate) enum End {
    /// It is done after so many rounds.
    Done { rounds: u32 },
    /// It hadn't settled after as many rounds as its bound allows.
    Bound { bound: u32 },
}

/// How a turn ended its job, if it did.
fn end_of(turned: Turned) -> Option<End>
    ensures { result ≡ end_of turned }
{
    match turned {
        Turned::Owes => None,
        Turned::Done { rounds } => Some(End::Done { rounds }),
        Turned::Bound { bound } => Some(End::Bound { bound }),
    }
}

/// Why a fetch of a chunk stops its job.
fn stop_of(chunk: u32, error: FetchError) -> Stop
    ensures { result ≡ stop_of chunk error }
{
    match error {
        FetchError::Fault => Stop::Read { chunk },
        FetchError::Changed { .. } => Stop::Changed { chunk },
        FetchError::Memory => Stop::Memory,
    }
}

/// The edges of a chunk, fetched.
fn fetch_edges<D: Depot>(
    fetcher: &mut Fetcher,
    depot: &mut D,
    chunk: u32,
    name: &str,
    cat: &Catalogue,
) -> Result<Raw, Stop>
    requires { chunk < length cat.now.places }
    ensures fits { IfOk result (FitsCatalogue cat.now chunk) }
    ensures told { (bytes : List ℕ) → TellsGrid (D.state depot.old).files name.now cat.now bytes
        → IfOk result (λ raw. raw.edges ≡ base_at cat.now (edges_in bytes) chunk) }
    ensures told_stop { (bytes : List ℕ) → TellsGrid (D.state depot.old).files name.now cat.now bytes
        → IfErr result (IsToldStop (D.state depot.old).calm) }
    ensures stop { IfErr result (OfChunk chunk) }
    ensures read { OnOk result
        (ReadsJust (pass_reads cat.now chunk) (D.state depot.old) (D.state depot.new)) }
    ensures faults { CountsStops (D.state depot.old) (D.state depot.new) result }
    ensures frame { OnlyReads 0 (pass_reads cat.now chunk) (D.state depot.old) (D.state depot.new) }
{
    match fetcher.fetch(cat, chunk, depot, name) {
        Ok(raw) => Ok(raw),
        Err(error) => Err(stop_of(chunk, error)),
    }
}

/// The copy of a chunk that the job sees, fetched for its key.
fn fetch_copy<D: Depot>(
    alloc: Global,
    fetcher: &mut Fetcher,
    depot: &mut D,
    view: &View<'_>,
    cat: &Catalogue,
    key: Key,
) -> Result<ChunkCopy, Stop>
    requires chunk { key.chunk < length cat.now.places }
    requires view { IsViewOf cat.now view.now }
    requires key { key ≡ key_at (overlays_of cat.now (seen_in view.now)) key.chunk }
    requires over { IsSnapshotOver cat.now.dimensions.n (seen_in view.now) }
    ensures key { IfOk result (λ copy. copy.key ≡ key) }
    ensures ends { IfOk result (λ copy. All (HasEndsBelow cat.now.dimensions.n) copy.edges) }
    ensures told { (bytes : List ℕ) → TellsGrid (D.state depot.old).files view.now.name.now cat.now bytes
        → IfOk result (λ copy.
        copy.edges ≡ content_of cat.now (edges_in bytes) (seen_in view.now) key.chunk) }
    ensures told_stop { (bytes : List ℕ)
        → TellsGrid (D.state depot.old).files view.now.name.now cat.now bytes
        → IfErr result (IsToldStop (D.state depot.old).calm) }
    ensures stop { IfErr result (OfChunk key.chunk) }
    ensures read { OnOk result
        (ReadsJust (pass_reads cat.now key.chunk) (D.state depot.old) (D.state depot.new)) }
    ensures faults { CountsStops (D.state depot.old) (D.state depot.new) result }
    ensures frame { OnlyReads 0 (pass_reads cat.now key.chunk) (D.state depot.old) (D.state depot.new) }
{
    catalogues_are_over_their_edges();
    let raw = fetch_edges(fetcher, depot, key.chunk, view.name, cat)?;
    match view.own.into_copy(alloc, cat, view.versions, raw, key) {
        Ok(copy) => Ok(copy),
        Err(Memory) => Err(Stop::Memory),
    }
}

/// Fetches a chunk that the job owes, and passes it.
fn pass_chunk<D: Depot>(
    alloc: Global,
    fetcher: &mut Fetcher,
    depot: &mut D,
    view: &View<'_>,
    work: &mut Work,
    chunk: u32,
) -> Result<(), Stop>
    requires within { chunk < length work.old.catalogue.places }
    requires owed { is_in work.old.state.owed chunk ≡ true }
    requires view { IsViewOf work.old.catalogue view.now }
    requires sees { Sees work.old (seen_in view.now) }
    ensures phase { work.new.state.phase ≡ work.old.state.phase }
    ensures less { OnOk result (work.new.state.owed ≡ slice_set work.old.state.owed chunk false) }
    ensures under_way { OnOk result
        (StaysIn view.now (D.state depot.old) (D.state depot.new) work.old work.new) }
    ensures carries { CarriesIn view.now (D.state depot.old) (D.state depot.new) work.old work.new result }
{
    passes();
    determined();
    owed_chunks();
    weight_is_left();
    let key = work.key(chunk);
    let copy = fetch_copy(alloc, fetcher, depot, view, work.catalogue(), key)?;
    work.pass(&copy);
    fetcher.give_back(copy.edges);
    Ok(())
}

/// Passes every chunk that the job owes in its phase, the least first.
fn pass_owed<D: Depot>(
    alloc: Global,
    fetcher: &mut Fetcher,
    depot: &mut D,
    view: &View<'_>,
    work: &mut Work,
) -> Result<(), Stop>
    requires view { IsViewOf work.old.catalogue view.now }
    requires sees { Sees work.old (seen_in view.now) }
    ensures phase { work.new.state.phase ≡ work.old.state.phase }
    ensures none { OnOk result (owes_any work.new.state.owed ≡ false) }
    ensures under_way { OnOk result
        (StaysIn view.now (D.state depot.old) (D.state depot.new) work.old work.new) }
    ensures carries { CarriesIn view.now (D.state depot.old) (D.state depot.new) work.old work.new result }
{
    let chunks = work.catalogue().chunks();
    let mut from = 0;
    while let Some(chunk) = work.least_owed(from, chunks) {
        pass_chunk(alloc, fetcher, depot, view, work, chunk)?;
        from = chunk + 1;
    }
    Ok(())
}

/// Makes the phases of a job up to its end: each passes what the job owes, and turns it.
fn make_phases<D: Depot>(
    alloc: Global,
    fetcher: &mut Fetcher,
    depot: &mut D,
    view: &View<'_>,
    work: &mut Work,
) -> Result<End, Stop>
    requires view { IsViewOf work.old.catalogue view.now }
    requires sees { Sees work.old (seen_in view.now) }
    ensures carries { CarriesIn view.now (D.state depot.old) (D.state depot.new) work.old work.new result }
    ensures ends { IfOk result (EndsIn view.now (D.state depot.old) (D.state depot.new) work.old work.new) }
{
    turns();
    turns_end();
    weight_is_left();
    views_are_cut();
    catalogues_are_over_their_edges();
    loop {
        pass_owed(alloc, fetcher, depot, view, work)?;
        if let Some(end) = end_of(work.turn()) {
            return Ok(end);
        }
    }
}

/// What becomes of a job that stopped: a line that tells the chunk and its block, or want of memory.
fn outcome_of_stop(cat: &Catalogue, stop: Stop) -> Result<Outcome, Memory>
    requires { IsOfChunks (length cat.now.places) stop }
    ensures ok { IfOk result (λ outcome. Some outcome ≡ outcome_of_stop cat.now stop) }
    ensures err { OnErr result (outcome_of_stop cat.now stop ≡ None) }
{
    match stop {
        Stop::Read { chunk } => Ok(Outcome::Read {
            block: cat.chunk(chunk).block,
            chunk,
        }),
        Stop::Changed { chunk } => Ok(Outcome::Changed {
            block: cat.chunk(chunk).block,
            chunk,
        }),
        Stop::Memory => Err(Memory),
    }
}

/// What became of a job that ended.
fn outcome_of_end(end: End, work: Work) -> Outcome
    ensures { result ≡ outcome_of_end work.state.values end }
{
    match end {
        End::Done { rounds } => Outcome::Done {
            rounds,
            values: work.into_values(),
        },
        End::Bound { bound } => Outcome::Rounds { bound },
    }
}

/// Runs a job over the chunks of a grid with the updates above its line and with its own changes, each chunk fetched where it is needed and
/// changed where some of them concern it, up to the job's end or to the first chunk that can't be had.
pub(crate) fn run_job<D: Depot>(
    alloc: Global,
    fetcher: &mut Fetcher,
    depot: &mut D,
    view: &View<'_>,
    cat: Arc<Catalogue>,
    spec: Spec,
) -> Result<Outcome, Memory>
    requires some { 1 ≤ most_rounds spec }
    requires view { IsViewOf (arc_value cat) view.now }
    requires over { IsSnapshotOver (arc_value cat).dimensions.n (seen_in view.now) }
    ensures ends { (bytes : List ℕ)
        → TellsGrid (D.state depot.old).files view.now.name.now (arc_value cat) bytes
        → IfOk result (JobEnds (shown_view view.now spec (arc_value cat) bytes) (pass_reads (arc_value cat))
        (D.state depot.old) (D.state depot.new)) }
    ensures few { (bytes : List ℕ)
        → TellsGrid (D.state depot.old).files view.now.name.now (arc_value cat) bytes
        → ReadsUpTo
        (run_weight (shown_view view.now spec (arc_value cat) bytes) (pass_reads (arc_value cat)))
        (D.state depot.old) (D.state depot.new) }
    ensures faults { CountsOutcomes (D.state depot.old) (D.state depot.new) (λ outcome. outcome) result }
    ensures frame { ReadsSome (D.state depot.old) (D.state depot.new) }
{
    begins();
    weight_is_left();
    let overlays = view.own.overlays(alloc, &cat, view.versions)?;
    let mut work = Work::admit(alloc, view.own.job(), spec, cat, overlays)?;
    match make_phases(alloc, fetcher, depot, view, &mut work) {
        Ok(end) => Ok(outcome_of_end(end, work)),
        Err(stop) => outcome_of_stop(work.catalogue(), stop),
    }
}
