//! Schedules of jobs over a path with a shortcut, computed. Each was worked out by hand, visit by visit.
#![tactic(auto, unfolding(crate::specs::Plans::choice, crate::specs::Plans::all_in_of, crate::specs::Plans::next_plan, crate::specs::Plans::plan_after, crate::specs::Machine::scene_from, crate::specs::Rides::first_rides_from, crate::specs::Schedules::misses_to, crate::specs::Schedules::schedule_of))]

ghost use Rattle.std.specs.Prelude.{◌≡◌, [], ◌∷◌, Some, None};
ghost use Rattle.gm_base.specs.declared.limits.TheConstants.{TOP};
ghost use Rattle.gm_base.specs.declared.job.Outcome.TheVariants.{Done};
ghost use Rattle.gm_events.specs.Examples.{grid_key, own_key, counts};
ghost use Rattle.gm_events.specs.Journals.{tally_of};
ghost use Rattle.gm_events.specs.declared.event.LoadCause.TheVariants.{Read};
ghost use Rattle.gm_machine.specs.Machine.{Own, ReadFailed, NoMemory, rider};
ghost use Rattle.gm_machine.specs.Schedules.{Load, Copies, schedule_of, misses_of};
ghost use Rattle.gm_machine.specs.Rides.{first_rides_of};
ghost use Rattle.gm_machine.specs.Examples.{two_at_work, whole_journal, failing_journal, grid_rider, own_rider};
ghost use Rattle.gm_machine.specs.PathJobs.{one_bfs, two_bfs, one_rank, rank_then_bfs, bfs_and_after_a_cut_edge, bfs_and_after_an_added_edge};
ghost use Rattle.gm_machine.specs.PathJobs.{visit_of, updated_at, both_versions, two_versions, missing_visit, miss_at};
ghost use Rattle.gm_machine.specs.PathJobs.{ride, schedule, tally_in};

/// One job passes the edges of vertex 0 in its first round, block by block, and those of 1 and 2 in its second. Its third needs none.
pub fn one_job()
    ensures schedule { schedule_of one_bfs [] ≡ schedule
        (visit_of 0 (0 ∷ []) ∷ visit_of 2 (0 ∷ []) ∷ visit_of 1 (0 ∷ []) ∷ visit_of 4 (0 ∷ []) ∷ [])
        (Own (Done 3 (0 ∷ 1 ∷ 1 ∷ 2 ∷ [])) ∷ []) }
    ensures tally { tally_in (schedule_of one_bfs []) ≡ Some (counts 4 4 4) }
{}

/// Two jobs. Block 1 is needed by both. Then blocks 0 and 3 are equal, and then both need block 3, where they ride together.
pub fn two_jobs()
    ensures schedule { schedule_of two_bfs [] ≡ schedule
        (visit_of 1 (1 ∷ []) ∷ visit_of 2 (0 ∷ []) ∷ visit_of 0 (0 ∷ []) ∷ visit_of 4 (0 ∷ 1 ∷ [])
        ∷ visit_of 1 (0 ∷ []) ∷ [])
        (Own (Done 3 (0 ∷ 1 ∷ 1 ∷ 2 ∷ [])) ∷ Own (Done 3 (TOP ∷ 0 ∷ 1 ∷ 2 ∷ [])) ∷ []) }
    ensures tally { tally_in (schedule_of two_bfs []) ≡ Some (counts 5 6 5) }
{}

/// A rank job counts all edges first, and passes them once more in its round.
pub fn a_rank_job()
    ensures schedule { schedule_of one_rank [] ≡ schedule
        (visit_of 0 (0 ∷ []) ∷ visit_of 1 (0 ∷ []) ∷ visit_of 2 (0 ∷ []) ∷ visit_of 4 (0 ∷ [])
        ∷ visit_of 0 (0 ∷ []) ∷ visit_of 1 (0 ∷ []) ∷ visit_of 2 (0 ∷ []) ∷ visit_of 4 (0 ∷ []) ∷ [])
        (Own (Done 1 (150000000 ∷ 575000000 ∷ 1425000000 ∷ 1000000000 ∷ [])) ∷ []) }
    ensures tally { tally_in (schedule_of one_rank []) ≡ Some (counts 8 8 8) }
{}

/// The second job waits for five visits. In the eighth it rides alone: the rank job has passed chunk 0 in its round.
pub fn a_job_after_five_visits()
    ensures schedule { schedule_of rank_then_bfs [] ≡ schedule
        (visit_of 0 (0 ∷ []) ∷ visit_of 1 (0 ∷ []) ∷ visit_of 2 (0 ∷ []) ∷ visit_of 4 (0 ∷ [])
        ∷ visit_of 0 (0 ∷ []) ∷ visit_of 1 (0 ∷ []) ∷ visit_of 2 (0 ∷ 1 ∷ []) ∷ visit_of 0 (1 ∷ [])
        ∷ visit_of 4 (0 ∷ 1 ∷ []) ∷ visit_of 1 (1 ∷ []) ∷ [])
        (Own (Done 1 (150000000 ∷ 575000000 ∷ 1425000000 ∷ 1000000000 ∷ []))
        ∷ Own (Done 3 (0 ∷ 1 ∷ 1 ∷ 2 ∷ [])) ∷ []) }
    ensures tally { tally_in (schedule_of rank_then_bfs []) ≡ Some (counts 10 12 10) }
{}

/// After two visits an edge is cut, and the second job comes in. In chunk 4 both ride, each with its own key.
pub fn a_job_after_two_visits_and_an_update()
    ensures schedule { schedule_of bfs_and_after_a_cut_edge [] ≡ schedule
        (visit_of 0 (0 ∷ []) ∷ visit_of 2 (0 ∷ []) ∷ visit_of 1 (0 ∷ []) ∷ visit_of 2 (1 ∷ [])
        ∷ visit_of 0 (1 ∷ []) ∷ two_versions 4 ∷ visit_of 1 (1 ∷ []) ∷ [])
        (Own (Done 3 (0 ∷ 1 ∷ 1 ∷ 2 ∷ [])) ∷ Own (Done 2 (0 ∷ 1 ∷ 1 ∷ TOP ∷ [])) ∷ []) }
    ensures tally { tally_in (schedule_of bfs_and_after_a_cut_edge []) ≡ Some (counts 7 8 8) }
{}

/// The second job sees an edge more. In chunk 2 both ride, each with its own key, and elsewhere with one key.
pub fn a_job_below_an_update()
    ensures schedule { schedule_of bfs_and_after_an_added_edge [] ≡ schedule
        (visit_of 0 (0 ∷ 1 ∷ []) ∷ two_versions 2 ∷ visit_of 1 (0 ∷ 1 ∷ []) ∷ visit_of 4 (0 ∷ 1 ∷ []) ∷ [])
        (Own (Done 3 (0 ∷ 1 ∷ 1 ∷ 2 ∷ [])) ∷ Own (Done 2 (0 ∷ 1 ∷ 1 ∷ 1 ∷ [])) ∷ []) }
    ensures tally { tally_in (schedule_of bfs_and_after_an_added_edge []) ≡ Some (counts 4 8 5) }
{}

/// The load of the first visit fails. Its one rider ends, and the other job goes on as alone.
pub fn a_failed_load()
    ensures schedule { schedule_of two_bfs (miss_at 0 (Load Read) ∷ []) ≡ schedule
        (missing_visit 1 (rider 1 (grid_key 1) ∷ []) (Load Read) ∷ visit_of 2 (0 ∷ []) ∷ visit_of 0 (0 ∷ [])
        ∷ visit_of 1 (0 ∷ []) ∷ visit_of 4 (0 ∷ []) ∷ [])
        (Own (Done 3 (0 ∷ 1 ∷ 1 ∷ 2 ∷ [])) ∷ ReadFailed 1 ∷ []) }
    ensures tally { tally_in (schedule_of two_bfs (miss_at 0 (Load Read) ∷ [])) ≡ Some (counts 5 4 4) }
{}

/// There is no memory for the second job's copy of chunk 2, which is another one than the first job's. So the second job ends, and
/// the first one passes that chunk and goes on alone, through 1 and 4: 2 + 1 + 1 + 1 passes, over 4 copies.
pub fn a_copy_without_memory()
    ensures schedule { schedule_of bfs_and_after_an_added_edge (miss_at 1 (Copies (updated_at 2 2 ∷ [])) ∷ []) ≡ schedule
        (visit_of 0 (0 ∷ 1 ∷ []) ∷ missing_visit 2 (both_versions 2) (Copies (updated_at 2 2 ∷ []))
        ∷ visit_of 1 (0 ∷ []) ∷ visit_of 4 (0 ∷ []) ∷ [])
        (Own (Done 3 (0 ∷ 1 ∷ 1 ∷ 2 ∷ [])) ∷ NoMemory ∷ []) }
    ensures tally { tally_in
        (schedule_of bfs_and_after_an_added_edge (miss_at 1 (Copies (updated_at 2 2 ∷ [])) ∷ []))
        ≡ Some (counts 4 5 4) }
{}

/// Misses that there can't be. The job has the visits 0 to 3, and rides with the grid's keys.
pub fn impossible_misses()
    ensures no_such_visit { schedule_of one_bfs (miss_at 4 (Load Read) ∷ []) ≡ None }
    ensures twice_in_a_visit { schedule_of one_bfs (miss_at 1 (Load Read) ∷ miss_at 1 (Load Read) ∷ []) ≡ None }
    ensures no_key { schedule_of one_bfs (miss_at 1 (Copies []) ∷ []) ≡ None }
    ensures key_of_nobody { schedule_of one_bfs (miss_at 1 (Copies (grid_key 0 ∷ [])) ∷ []) ≡ None }
    ensures key_twice { schedule_of one_bfs (miss_at 1 (Copies (grid_key 2 ∷ grid_key 2 ∷ [])) ∷ []) ≡ None }
    ensures visit_after_the_end { schedule_of one_bfs (miss_at 0 (Load Read) ∷ miss_at 1 (Load Read) ∷ []) ≡ None }
{}

/// The misses of a journal in which a copy found no memory and a later load failed, the later one first. With them both jobs end.
pub fn misses_of_a_journal()
    ensures misses { misses_of two_at_work failing_journal
        ≡ miss_at 2 (Load Read) ∷ miss_at 1 (Copies (own_key 1 1 ∷ [])) ∷ [] }
    ensures schedule { schedule_of two_at_work (misses_of two_at_work failing_journal) ≡ schedule
        (visit_of 0 (0 ∷ []) ∷ missing_visit 1 (grid_rider 0 1 ∷ own_rider 1 1 ∷ []) (Copies (own_key 1 1 ∷ []))
        ∷ missing_visit 2 (grid_rider 0 2 ∷ []) (Load Read) ∷ [])
        (ReadFailed 2 ∷ NoMemory ∷ []) }
    ensures tally { tally_of failing_journal ≡ counts 3 2 2 }
{}

/// The first riders of the visits of a journal: chunks 0 and 1 are visited again, by another job and in another phase.
pub fn first_riders_of_a_journal()
    ensures { first_rides_of two_at_work whole_journal
        ≡ ride 0 0 0 ∷ ride 0 0 1 ∷ ride 0 0 2 ∷ ride 1 0 0 ∷ ride 0 1 1 ∷ [] }
{}
