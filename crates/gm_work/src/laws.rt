//! Laws of a job over chunks. They are said of any view that is cut into chunks, whatever the chunks' contents and sources.
#![tactic(auto, using(crate::proofs::Rounds::closes, crate::proofs::MidRound::begins, crate::proofs::MidRound::passes, crate::proofs::Turns::turns, crate::proofs::Turns::goes_to_later, crate::proofs::LaterPhases::leads_on, crate::proofs::Standings::determined, crate::proofs::Standings::owed, crate::proofs::Standings::owed_later, crate::proofs::Standings::owed_is_new, crate::proofs::Standings::owed_is_needed, crate::proofs::Grids::grid_is_cut))]

ghost use Rattle.std.specs.Prelude.{◌≡◌, ℕ, ◌+◌, ◌*◌, ◌<◌, ◌≤◌, ◌==◌, ◌&&◌, not, true, false, List, length};
ghost use Rattle.std.specs.List.{list_any};
ghost use Rattle.gm_base.specs.declared.edge.Edge.{Edge};
ghost use Rattle.gm_base.specs.declared.job.Spec.{Spec};
ghost use Rattle.gm_base.specs.Graph.{IsGraph, IsSameGraph};
ghost use Rattle.gm_base.specs.declared.limits.TheConstants.{MAX_EDGES};
ghost use Rattle.gm_base.specs.Dimensions.{AreDimensions};
ghost use Rattle.gm_kernel.specs.Runs.{most_rounds};
ghost use Rattle.gm_label.specs.Catalogues.{Catalogue, IsOver};
ghost use Rattle.gm_kernel.specs.Standings.{Standing, with_passed};
ghost use Rattle.gm_active.specs.Bits.{is_in};
ghost use Rattle.gm_work.specs.JobStates.{JobContext, JobState, first_state, state_after_pass, owes_any, phases_left, turning_of};
ghost use Rattle.gm_kernel.specs.Standings.Turning.{Goes};
ghost use Rattle.gm_work.specs.Views.{JobView, IsCutIntoChunks, values_at, needed_in, owed_after, owed_at, sums_after, first_standing, WerePassed, IsMidRound, turn_at, IsTurnedWell, LeadsOn};
ghost use Rattle.gm_work.specs.Weights.{run_weight, weight_left, IsLeftBy};
ghost use Rattle.gm_work.specs.HeldJobs.{grid_view};

use gm_kernel::Phase;

/// A law: a round over the needed chunks alone, in any order, is the round over all edges of the view.
pub fn needed_chunks_make_the_round()
    ensures { (d : JobView) → IsCutIntoChunks d → (r : ℕ) (passed : List ℕ)
        → WerePassed (needed_in d (Phase.Round r)) passed
        → owes_any (owed_after (needed_in d (Phase.Round r)) passed) ≡ false
        → sums_after d (values_at d r) passed ≡ values_at d (r + 1) }
{}

/// A law: before its first pass a job is in the middle of its first phase, with nothing passed.
pub fn begins()
    ensures { (d : JobView) → 1 ≤ most_rounds d.context.spec
        → IsMidRound d (first_standing d) (first_state d.context) }
{}

/// A law: a pass of any owed chunk, over edges that are the same graph as its content, keeps the middle of the phase, with one chunk
/// more passed.
pub fn passes()
    ensures { (d : JobView) (s : Standing) (e : JobState) (c : ℕ) (edges : List Edge)
        → IsMidRound d s e → is_in e.owed c ≡ true → IsSameGraph edges (d.content_at c)
        → IsMidRound d (with_passed s c) (state_after_pass d.context e c edges) }
{}

/// A law: a turn leads to the middle of a later phase in which a chunk is owed, or it ends the job as its lone run. Where it leads is told
/// by where the job stood.
pub fn turns()
    ensures { (d : JobView) (s : Standing) (e : JobState) → IsCutIntoChunks d → IsMidRound d s e
        → IsTurnedWell d (turn_at d s) (turning_of d.context e) }
{}

/// A law: each time that a job which owed nothing goes on, there are fewer phases before it, over whatever it passed.
pub fn turns_end()
    ensures { (k : JobContext) (e f : JobState)
        → owes_any e.owed ≡ false → turning_of k e ≡ Goes f → owes_any f.owed ≡ true
        → phases_left k.spec f.phase < phases_left k.spec e.phase }
{}

/// A law: a turn leads to where the job stood, or to a phase with fewer before it, in which nothing is passed yet.
pub fn turns_lead_on()
    ensures { (d : JobView) (s : Standing) → LeadsOn d s (turn_at d s) }
{}

/// A law: in the middle of a phase everything is determined by where the job stands, first of all what it owes.
pub fn determined()
    ensures state { (d : JobView) (s : Standing) (e f : JobState) → IsMidRound d s e → IsMidRound d s f
        → e ≡ f }
    ensures owed { (d : JobView) (s : Standing) (e : JobState) → IsMidRound d s e → e.owed ≡ owed_at d s }
{}

/// A law: after a pass the same chunks are owed but for the one that was passed, no chunk that was passed is owed, and what is owed is
/// needed in the phase.
pub fn owed_chunks()
    ensures after { (d : JobView) (s : Standing) (c x : ℕ)
        → is_in (owed_at d (with_passed s c)) x ≡ (is_in (owed_at d s) x && not (c == x)) }
    ensures new { (d : JobView) (s : Standing) (x : ℕ) → list_any (λ p. p == x) s.passed ≡ true
        → is_in (owed_at d s) x ≡ false }
    ensures needed { (d : JobView) (s : Standing) (x : ℕ) → is_in (owed_at d s) x ≡ true
        → is_in (needed_in d s.phase) x ≡ true }
{}

/// A law: what is still to be passed, each chunk by its weight, is at first all that the lone run needs, less by each pass, the same after
/// a turn, and nothing at the end. By numbers it is at most the job's phases times the chunks.
#[tactic(auto, using(crate::proofs::Weights::begins, crate::proofs::Weights::passes, crate::proofs::Weights::turns, crate::proofs::Weights::most))]
pub fn weight_is_left()
    ensures begins { (d : JobView) (weight : ℕ → ℕ) → 1 ≤ most_rounds d.context.spec
        → weight_left d weight (first_standing d) ≡ run_weight d weight }
    ensures passes { (d : JobView) (weight : ℕ → ℕ) (s : Standing) (c : ℕ) → is_in (owed_at d s) c ≡ true
        → weight_left d weight (with_passed s c) + weight c ≡ weight_left d weight s }
    ensures turns { (d : JobView) (weight : ℕ → ℕ) (s : Standing) (e : JobState) → IsMidRound d s e
        → IsLeftBy d weight (weight_left d weight s) (turn_at d s) }
    ensures most { (d : JobView) → 1 ≤ most_rounds d.context.spec
        → run_weight d (λ c. 1) ≤ phases_left d.context.spec (first_standing d).phase * d.context.chunks }
{}

/// A law: a grid's chunks are its graph, as a job without changes sees it.
pub fn grids_are_cut()
    ensures { (spec : Spec) (cat : Catalogue) (edges : List Edge)
        → AreDimensions cat.dimensions.n cat.dimensions.parts → IsGraph cat.dimensions.n edges
        → length edges ≤ MAX_EDGES
        → IsOver cat edges → IsCutIntoChunks (grid_view spec cat edges) }
{}
