//! The work of two jobs of a script over a small grid, with an update between them. Worked out by hand.
#![tactic(auto, unfolding(crate::specs::ScriptWorks::works_of, gm_kernel::specs::Runs::round_of, gm_kernel::specs::Runs::values_after, gm_kernel::specs::Runs::is_settled_by, gm_kernel::specs::Runs::settled_run))]

ghost use Rattle.std.specs.Prelude.{◌≡◌, [], ◌∷◌};
ghost use Rattle.gm_core.specs.Examples.{works_on_path};

use gm_base::Outcome;

/// The first job finds each vertex one step behind the one before. For the second, edges from vertex 0 lead to all others.
pub fn runs_of_two_jobs()
    ensures first { works_on_path.lone 0 ≡ Outcome.Done 4 (0 ∷ 1 ∷ 2 ∷ 3 ∷ []) }
    ensures second { works_on_path.lone 1 ≡ Outcome.Done 2 (0 ∷ 1 ∷ 1 ∷ 1 ∷ []) }
{}

/// Each job makes four passes. One of the first job's is over the chunk that it left without edges, for a chunk keeps its sources.
pub fn passes_of_two_jobs()
    ensures first { works_on_path.left 0 (works_on_path.first_at 0) ≡ 4 }
    ensures second { works_on_path.left 1 (works_on_path.first_at 1) ≡ 4 }
{}
