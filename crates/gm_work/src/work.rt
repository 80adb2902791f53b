//! One job over chunks.

ghost use Rattle.std.specs.Prelude.{◌≡◌, ◌<◌, ◌≤◌, true, false, not, length, All, IfOk, IfSome, IfNone};
ghost use Rattle.std.specs.Arc.{arc_value};
ghost use Rattle.gm_base.specs.Graph.{HasEndsBelow};
ghost use Rattle.gm_kernel.specs.Runs.{most_rounds};
ghost use Rattle.gm_active.specs.Bits.{is_in, NoneBetween, IsLeastBetween};
ghost use Rattle.gm_label.specs.Overlays.{key_at, AreOverlays};
ghost use Rattle.gm_work.specs.JobStates.{counted_chunks_of, owes_any, state_after_pass, phases_left};
ghost use Rattle.gm_work.specs.HeldJobs.{admitted_job, context_in, context_of, IsSameJob, IsTurned};
ghost use Rattle.gm_work.specs.Stored.{round_of_phase};
ghost use Rattle.gm_work.specs.Steps.{IsPhaseEnded, unbegun_state, with_round, with_next_round};

use crate::keys::key_of;
use crate::kinds::{begin_values, carry_values, counts_degrees, is_done, most_rounds, share_count};
use crate::marks::mark_round;
use crate::needs::owe_needed;
use crate::passes::{count_edges, join_gifts};
use gm_active::{Active, ChunkSet, owed_in_counting};
use gm_base::{ChunkCopy, Key, Memory, Spec, Turned, Values};
use gm_kernel::Phase;
use gm_label::{Catalogue, Overlays};
use std::alloc::Global;
use std::marker::Model;
use std::mem;
use std::sync::Arc;

/// A job over the chunks of a grid: it owes those that an active vertex needs, passes them in any order, and is turned where it owes
/// none. All of its memory is taken when it is admitted: at most 28 bytes a vertex, a bit a vertex and a chunk, and its overlays.
#[derive(Drop)]
pub struct Work {
    job: u32,
    spec: Spec,
    catalogue: Arc<Catalogue>,
    overlays: Overlays,
    phase: Phase,
    values: Vec<u64>,
    sums: Vec<u64>,
    degrees: Vec<u32>,
    /// What each edge of a vertex gives in the round, of a rank job alone.
    shares: Vec<u64>,
    active: Active,
    owed: ChunkSet,
}

impl Model for Work {
    ghost use Rattle.std.specs.Arc.{arc_value};
    ghost use Rattle.gm_work.specs.HeldJobs.{HeldJob};
    ghost use Rattle.gm_work.specs.Stored.{held_job, IsStored};

    ghost Value = { HeldJob };

    ghost view = { λ a. held_job a.job a.spec (arc_value a.catalogue) a.overlays a.phase a.values.items a.sums.items a.degrees.items a.owed };

    ghost invariant = { λ a. IsStored
        (held_job a.job a.spec (arc_value a.catalogue) a.overlays a.phase a.values.items a.sums.items a.degrees.items a.owed)
        a.shares.items a.active };
}

impl Work {
    /// Whether the job owes a chunk.
    pub fn owes(&self, chunk: u32) -> bool
        requires { chunk < length self.now.catalogue.places }
        ensures { result ≡ is_in self.now.state.owed chunk }
    {
        self.owed.has(chunk)
    }

    /// Whether the job owes no chunk.
    pub fn owes_none(&self) -> bool
        ensures { result ≡ not (owes_any self.now.state.owed) }
    {
        self.owed.is_empty()
    }

    /// The least chunk that the job owes, of those from this one on and below the end. `None` exactly where it owes none of them.
    pub fn least_owed(&self, from: u32, to: u32) -> Option<u32>
        requires { to ≤ length self.now.catalogue.places }
        ensures some { IfSome result (IsLeastBetween (is_in self.now.state.owed) from to) }
        ensures none { IfNone result (NoneBetween (is_in self.now.state.owed) from to) }
        ensures length { length self.now.state.owed ≡ length self.now.catalogue.places }
    {
        self.owed.least(from, to)
    }

    /// The key of the copy that the job sees of a chunk.
    pub fn key(&self, chunk: u32) -> Key
        ensures { result ≡ key_at self.now.overlays chunk }
    {
        key_of(self.overlays.as_slice(), chunk)
    }

    /// The job's number.
    pub fn job(&self) -> u32
        ensures { result ≡ self.now.job }
    {
        self.job
    }

    /// The job's phase.
    pub fn phase(&self) -> Phase
        ensures { result ≡ self.now.state.phase }
    {
        self.phase
    }

    /// How many phases there are at most from this one on.
    pub fn phases_left(&self) -> u64
        ensures { result ≡ phases_left self.now.spec self.now.state.phase }
    {
        let most = u64::from(most_rounds(self.spec));
        match self.phase {
            Phase::Counting { round } => most - u64::from(round) + 1,
            Phase::Round { round } => most - u64::from(round),
        }
    }

    /// The catalogue of the grid.
    pub fn catalogue(&self) -> &Catalogue
        ensures { result.now ≡ self.now.catalogue }
    {
        &self.catalogue
    }

    /// What the job computes.
    pub fn spec(&self) -> Spec
        ensures { result ≡ self.now.spec }
    {
        self.spec
    }

    /// The values as the round began, after a turn that answered `Done` those of the job's end. It takes no memory.
    pub fn into_values(self) -> Values
        ensures { result ≡ self.state.values }
    {
        Values::from_vec(self.values)
    }

    /// The job with all of its lists, before it owes a chunk.
    fn unbegun(
        alloc: Global,
        catalogue: Arc<Catalogue>,
        overlays: Overlays,
        job: u32,
        spec: Spec,
    ) -> Result<Work, Memory>
        requires some_round { 1 ≤ most_rounds spec }
        requires overlays { AreOverlays (arc_value catalogue) overlays }
        ensures { IfOk result (λ work. work
            ≡ record (admitted_job job spec (arc_value catalogue) overlays) {
              state = unbegun_state (context_of spec (arc_value catalogue) overlays);
            }) }
    {
        let vertices = catalogue.shape().n();
        let n = vertices as usize;
        let mut values = vec![in alloc; 0; n]?;
        begin_values(spec, &mut values);
        let mut sums = vec![in alloc; 0; n]?;
        carry_values(spec, &values, &mut sums);
        let degrees = vec![in alloc; 0; n]?;
        let shares = vec![in alloc; 0; share_count(spec, vertices) as usize]?;
        let active = Active::new(alloc, vertices)?;
        let owed = ChunkSet::new(alloc, catalogue.chunks())?;
        // It says of the catalogue that each label's sources lie in the rows of its block.
        catalogue.first_source(0);
        Ok(Work {
            job,
            spec,
            catalogue,
            overlays,
            phase: Phase::Counting { round: 0 },
            values,
            sums,
            degrees,
            shares,
            active,
            owed,
        })
    }

    /// The job before its first pass. The overlays are those of the chunks that changes of its version and its own concern.
    pub fn admit(
        alloc: Global,
        job: u32,
        spec: Spec,
        cat: Arc<Catalogue>,
        overlays: Overlays,
    ) -> Result<Work, Memory>
        requires some_round { 1 ≤ most_rounds spec }
        requires overlays { AreOverlays (arc_value cat) overlays }
        ensures { IfOk result (λ work. work ≡ admitted_job job spec (arc_value cat) overlays) }
    {
        let mut work = Work::unbegun(alloc, cat, overlays, job, spec)?;
        if counts_degrees(spec) {
            work.owe_counted();
        } else {
            work.begin_round(0);
        }
        Ok(work)
    }

    /// Makes the chunks owed over which out-degrees are counted.
    fn owe_counted(&mut self)
        requires { self.old.state.phase ≡ Phase.Counting 0 }
        ensures { self.new
            ≡ record self.old { state = record self.old.state { owed = counted_chunks_of (context_in self.old) } } }
    {
        owed_in_counting(&self.catalogue, &self.overlays, &mut self.owed);
    }

    /// The round of this number begins from the values as they are.
    fn begin_round(&mut self, round: u32)
        requires { round < most_rounds self.old.spec }
        ensures { self.new
            ≡ record self.old { state = with_round (context_in self.old) round self.old.state } }
    {
        mark_round(
            self.spec,
            round == 0,
            &self.values,
            &self.values,
            &self.degrees,
            &mut self.shares,
            &mut self.active,
        );
        self.phase = Phase::Round { round };
        let (catalogue, overlays, active) = (&self.catalogue, &self.overlays, &self.active);
        owe_needed(self.spec, catalogue, overlays, active, &mut self.owed);
    }

    /// The round of this number begins from the sums of the one before.
    fn begin_next_round(&mut self, round: u32)
        requires { round < most_rounds self.old.spec }
        ensures { self.new
            ≡ record self.old { state = with_next_round (context_in self.old) round self.old.state } }
    {
        mem::swap(&mut self.values, &mut self.sums);
        mark_round(
            self.spec,
            false,
            &self.sums,
            &self.values,
            &self.degrees,
            &mut self.shares,
            &mut self.active,
        );
        carry_values(self.spec, &self.values, &mut self.sums);
        self.phase = Phase::Round { round };
        let (catalogue, overlays, active) = (&self.catalogue, &self.overlays, &self.active);
        owe_needed(self.spec, catalogue, overlays, active, &mut self.owed);
    }

    /// Passes a chunk that the job owes: joins what its edges give into the sums of the round, or counts them into the out-degrees. The
    /// copy is the one of the job's key.
    pub fn pass(&mut self, copy: &ChunkCopy)
        requires key { copy.now.key ≡ key_at self.old.overlays copy.now.key.chunk }
        requires owed { is_in self.old.state.owed copy.now.key.chunk ≡ true }
        requires ends { All (HasEndsBelow self.old.catalogue.dimensions.n) copy.now.edges }
        ensures { let passed = state_after_pass (context_in self.old) self.old.state copy.now.key.chunk copy.now.edges in
            self.new ≡ record self.old { state = passed } }
    {
        self.owed.remove(copy.key.chunk);
        let edges = copy.edges.as_slice();
        match self.phase {
            Phase::Counting { .. } => count_edges(edges, &mut self.degrees),
            Phase::Round { .. } => {
                let (values, degrees, shares) = (&self.values, &self.degrees, &self.shares);
                join_gifts(self.spec, edges, values, degrees, shares, &mut self.sums);
            }
        }
    }

    /// Ends a round: its sums become the values, and the job is done, or has made all of its rounds, or begins the next one.
    fn end_round(&mut self, round: u32) -> Turned
        requires phase { self.old.state.phase ≡ Phase.Round round }
        requires none { owes_any self.old.state.owed ≡ false }
        ensures job { IsSameJob self.old self.new }
        ensures ended { IsPhaseEnded (context_in self.old) self.old.state result self.new.state }
    {
        let most = most_rounds(self.spec);
        let rounds = round + 1;
        if is_done(self.spec, rounds, &self.values, &self.sums) {
            mem::swap(&mut self.values, &mut self.sums);
            return Turned::Done { rounds };
        }
        if rounds == most {
            return Turned::Bound { bound: rounds };
        }
        self.begin_next_round(rounds);
        Turned::Owes
    }

    /// Ends one phase of a job that owes nothing in it.
    fn end_phase(&mut self) -> Turned
        requires { owes_any self.old.state.owed ≡ false }
        ensures job { IsSameJob self.old self.new }
        ensures ended { IsPhaseEnded (context_in self.old) self.old.state result self.new.state }
        ensures some_round { round_of_phase self.old.state.phase < most_rounds self.old.spec }
    {
        match self.phase {
            Phase::Counting { round } => {
                self.begin_round(round);
                Turned::Owes
            }
            Phase::Round { round } => self.end_round(round),
        }
    }

    /// Ends a job's phase, and the next one, and so on, as long as it owes no chunk. `Owes` comes where it goes on and owes a chunk again,
    /// `Done` where it has ended, with the rounds that it made, and `Bound` where it hasn't settled after as many rounds as its bound allows.
    /// A job that owes a chunk answers `Owes` and stays as it is. Of a job that answered `Done` the values are the outcome's.
    pub fn turn(&mut self) -> Turned
        ensures job { IsSameJob self.old self.new }
        ensures turned { IsTurned (context_in self.old) self.old.state result self.new.state }
    {
        while self.owes_none() {
            match self.end_phase() {
                Turned::Owes => {}
                ended => return ended,
            }
        }
        Turned::Owes
    }
}
