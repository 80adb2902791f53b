//! Schedules of jobs over the path with a shortcut, in chunks of one edge. Worked out by hand.
#![tactic(auto, unfolding(crate::specs::ScriptWorks::works_of, gm_kernel::specs::Runs::round_of, gm_kernel::specs::Runs::values_after, gm_kernel::specs::Runs::is_settled_by, gm_kernel::specs::Runs::settled_run, gm_machine::specs::Plans::choice, gm_machine::specs::Plans::all_in_of, gm_machine::specs::Plans::next_plan, gm_machine::specs::Plans::plan_after, gm_machine::specs::Schedules::misses_to, gm_machine::specs::Schedules::schedule_of))]

ghost use Rattle.std.specs.Prelude.{◌≡◌, [], ◌∷◌};
ghost use Rattle.gm_base.specs.declared.limits.TheConstants.{TOP};
ghost use Rattle.gm_base.specs.declared.job.Outcome.TheVariants.{Done};
ghost use Rattle.gm_events.specs.Examples.{grid_key};
ghost use Rattle.gm_events.specs.declared.event.LoadCause.TheVariants.{Read};
ghost use Rattle.gm_machine.specs.Machine.{Own, ReadFailed, rider};
ghost use Rattle.gm_machine.specs.Schedules.{Load, schedule_of};
ghost use Rattle.gm_machine.specs.PathJobs.{visit_of, missing_visit, miss_at, schedule};
ghost use Rattle.gm_core.specs.Examples.{one_bfs_on_path, two_bfs_on_path};

/// Levels from vertex 0 pass the edges of vertex 0, block by block, and then those of 1 and 2.
pub fn schedule_of_one_job()
    ensures { schedule_of one_bfs_on_path [] ≡ schedule
        (visit_of 0 (0 ∷ []) ∷ visit_of 2 (0 ∷ []) ∷ visit_of 1 (0 ∷ []) ∷ visit_of 4 (0 ∷ []) ∷ [])
        (Own (Done 3 (0 ∷ 1 ∷ 1 ∷ 2 ∷ [])) ∷ []) }
{}

/// Two jobs from 0 and from 1. Block 1 is needed by both. Then blocks 0 and 3 are equal, and then both need block 3.
pub fn schedule_of_two_jobs()
    ensures { schedule_of two_bfs_on_path [] ≡ schedule
        (visit_of 1 (1 ∷ []) ∷ visit_of 2 (0 ∷ []) ∷ visit_of 0 (0 ∷ []) ∷ visit_of 4 (0 ∷ 1 ∷ [])
        ∷ visit_of 1 (0 ∷ []) ∷ [])
        (Own (Done 3 (0 ∷ 1 ∷ 1 ∷ 2 ∷ [])) ∷ Own (Done 3 (TOP ∷ 0 ∷ 1 ∷ 2 ∷ [])) ∷ []) }
{}

/// The load of the first visit fails. Its one rider ends, and the other job goes on as alone.
pub fn schedule_with_a_failed_load()
    ensures { schedule_of two_bfs_on_path (miss_at 0 (Load Read) ∷ []) ≡ schedule
        (missing_visit 1 (rider 1 (grid_key 1) ∷ []) (Load Read) ∷ visit_of 2 (0 ∷ []) ∷ visit_of 0 (0 ∷ [])
        ∷ visit_of 1 (0 ∷ []) ∷ visit_of 4 (0 ∷ []) ∷ [])
        (Own (Done 3 (0 ∷ 1 ∷ 1 ∷ 2 ∷ [])) ∷ ReadFailed 1 ∷ []) }
{}
