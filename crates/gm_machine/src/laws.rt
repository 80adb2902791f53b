//! What holds of every legal journal, and of every planned one, whatever the jobs compute.

ghost use Rattle.std.specs.Prelude.{◌≡◌, ◌≤◌, ℕ, true, false, List, ◌++◌, length, Some, IsSome};
ghost use Rattle.gm_events.specs.declared.event.Event.{Event};
ghost use Rattle.gm_events.specs.Journals.{tally_of};
ghost use Rattle.gm_events.specs.declared.event.Event.TheVariants.{Passed};
ghost use Rattle.gm_jobs.specs.declared.script.Line.{Line};
ghost use Rattle.gm_jobs.specs.StatedJobs.{jobs_of};
ghost use Rattle.gm_kernel.specs.Standings.{Standing};
ghost use Rattle.gm_machine.specs.JobWorks.{JobWorks, Laws, most_visits};
ghost use Rattle.gm_machine.specs.Setups.{setup_of, jobs_in, IsMidwayEntry};
ghost use Rattle.gm_machine.specs.Machine.{Miss, IsLegal, may, is_open, scene_of};
ghost use Rattle.gm_machine.specs.Plans.{IsPlanned, plan_of};
ghost use Rattle.gm_machine.specs.Promises.{AllStages, IsMidwayOrLone, Apart, keys_of, AreHeldForRiders, IsNew};
ghost use Rattle.gm_machine.specs.Rides.{rides_of, first_rides_of, NoneTwice};
ghost use Rattle.gm_machine.specs.Schedules.{MissAt, Schedule, schedule_of, whole_plan, IsOver, misses_of, AreFrom, tally_by};
ghost use Rattle.gm_machine.specs.Promises.{IsAloneOrMissed, HasVisitsOf, HasOutcomesOf, HasOnlyVisitsOf};
ghost use Rattle.gm_machine.specs.Promises.{BeginsPlan, HasPlannedOutcomes, IsAtEnd, IsWholePlan};

use gm_priority::laws::a_block_is_picked_where_rows_have_one;

/// The jobs of a script, and the laws that their work keeps. It is given by whoever runs jobs, for laws alone.
pub trait LawfulJobs {
    /// A job between two passes.
    ghost State: { Type 0 };

    /// A script over a grid.
    ghost Case: { Type 0 };

    /// The script's entries, in file order.
    ghost script: { Case → List Line };

    /// What its jobs do.
    ghost works: { Case → JobWorks State };

    /// A job is in the middle of a phase.
    ghost IsMidway: { Case → ℕ → Standing → State → Type 0 };

    /// The works are of the script's jobs.
    ghost many: { (case : Case) → (works case).jobs ≡ length (jobs_of (script case)) };

    /// They keep the laws.
    ghost lawful: { (case : Case) → Laws (works case) (IsMidway case) };
}

/// A law: each job of a legal journal that runs is in the middle of a phase, and each that ended by itself has its lone run.
pub fn every_job_is_sound<J: LawfulJobs>()
    ensures { (case : J.Case) (journal : List Event) → IsLegal (setup_of (J.works case) (J.script case)) journal
        → AllStages (IsMidwayOrLone (IsMidwayEntry (J.IsMidway case)) (J.works case).lone)
        (scene_of (setup_of (J.works case) (J.script case)) journal).jobs }
{}

/// A law: no key has two copies, and a copy is held only for jobs that run, have its key and still owe the visited chunk.
pub fn copies_are_held_for_riders<J: LawfulJobs>()
    ensures once { (case : J.Case) (journal : List Event) → IsLegal (setup_of (J.works case) (J.script case)) journal
        → Apart (keys_of (scene_of (setup_of (J.works case) (J.script case)) journal).held) }
    ensures riders { (case : J.Case) (journal : List Event) → IsLegal (setup_of (J.works case) (J.script case)) journal
        → AreHeldForRiders (setup_of (J.works case) (J.script case))
        (scene_of (setup_of (J.works case) (J.script case)) journal) }
{}

/// A law: where a job may pass a chunk, it hasn't passed this chunk in its phase.
pub fn chunks_are_passed_once<J: LawfulJobs>()
    ensures { (case : J.Case) (journal : List Event) (job chunk : ℕ)
        → IsLegal (setup_of (J.works case) (J.script case)) journal
        → may (setup_of (J.works case) (J.script case))
        (scene_of (setup_of (J.works case) (J.script case)) journal) (Passed job chunk) ≡ true
        → AllStages (IsNew job chunk) (scene_of (setup_of (J.works case) (J.script case)) journal).jobs }
{}

/// A law: no legal journal has more visits than its jobs have phases, times the chunks.
pub fn visits_are_bounded<J: LawfulJobs>()
    ensures { (case : J.Case) (journal : List Event) → IsLegal (setup_of (J.works case) (J.script case)) journal
        → length (scene_of (setup_of (J.works case) (J.script case)) journal).visits ≤ most_visits (J.works case) }
{}

/// A law: whatever the order of passes, the visits of a planned journal with their riders and keys are those that the plan of its
/// misses begins with, however it goes on. Each job that has ended has its outcome there. Where every entry is in, no visit is open
/// and no job runs, they are all of the plan.
pub fn visits_are_planned<J: LawfulJobs>()
    ensures visits { (case : J.Case) (journal : List Event) (more : List Miss)
        → IsPlanned (setup_of (J.works case) (J.script case)) journal
        → BeginsPlan (setup_of (J.works case) (J.script case)) more
        (scene_of (setup_of (J.works case) (J.script case)) journal) }
    ensures outcomes { (case : J.Case) (journal : List Event) (more : List Miss)
        → IsPlanned (setup_of (J.works case) (J.script case)) journal
        → HasPlannedOutcomes (setup_of (J.works case) (J.script case)) more
        (scene_of (setup_of (J.works case) (J.script case)) journal) }
    ensures end { (case : J.Case) (journal : List Event) (more : List Miss)
        → IsPlanned (setup_of (J.works case) (J.script case)) journal
        → IsAtEnd (setup_of (J.works case) (J.script case)) (scene_of (setup_of (J.works case) (J.script case)) journal)
        → IsWholePlan (setup_of (J.works case) (J.script case)) more
        (scene_of (setup_of (J.works case) (J.script case)) journal) }
{}

/// A law: each job of a legal journal that has ended did so as its lone run, or it was a rider of a visit whose miss ended it.
pub fn jobs_end_alone_or_by_a_miss<J: LawfulJobs>()
    ensures { (case : J.Case) (journal : List Event) → let s = setup_of (J.works case) (J.script case) in
        IsLegal s journal
        → AllStages (IsAloneOrMissed (J.works case).lone (scene_of s journal).visits) (scene_of s journal).jobs }
{}

/// A law: each schedule comes to its end, whatever its visits miss. All entries go in, no job still runs, no chunk is owed, and each
/// job has its outcome. No plan has more visits than the jobs have phases, times the chunks.
pub fn schedules_end<J: LawfulJobs>()
    ensures over { (case : J.Case) (misses : List MissAt) → let s = setup_of (J.works case) (J.script case) in
        IsOver s (whole_plan s misses) }
    ensures outcomes { (case : J.Case) (misses : List MissAt) (schedule : Schedule)
        → schedule_of (setup_of (J.works case) (J.script case)) misses ≡ Some schedule
        → length schedule.outcomes ≡ jobs_in (J.script case) }
    ensures most { (case : J.Case) (misses : List Miss)
        → length (plan_of (setup_of (J.works case) (J.script case)) misses).visits ≤ most_visits (J.works case) }
{
    a_block_is_picked_where_rows_have_one();
}

/// A law: whatever the order of passes, the visits of a planned journal with their riders, keys and misses are those that the schedule
/// of its misses begins with. Each job that has ended has its outcome there. Where every entry is in, no visit is open and no job
/// runs, they are all of the schedule. So it is too where later visits miss more.
pub fn journals_keep_to_their_schedule<J: LawfulJobs>()
    ensures allowed { (case : J.Case) (journal : List Event) → let s = setup_of (J.works case) (J.script case) in
        IsPlanned s journal → IsSome (schedule_of s (misses_of s journal)) }
    ensures visits { (case : J.Case) (journal : List Event) (more : List MissAt) (schedule : Schedule)
        → let s = setup_of (J.works case) (J.script case) in
        IsPlanned s journal → AreFrom (length (scene_of s journal).visits) more
        → schedule_of s (more ++ misses_of s journal) ≡ Some schedule
        → HasVisitsOf schedule (scene_of s journal) }
    ensures outcomes { (case : J.Case) (journal : List Event) (more : List MissAt) (schedule : Schedule)
        → let s = setup_of (J.works case) (J.script case) in
        IsPlanned s journal → AreFrom (length (scene_of s journal).visits) more
        → schedule_of s (more ++ misses_of s journal) ≡ Some schedule
        → HasOutcomesOf schedule (scene_of s journal) }
    ensures end { (case : J.Case) (journal : List Event) (more : List MissAt) (schedule : Schedule)
        → let s = setup_of (J.works case) (J.script case) in
        IsPlanned s journal → AreFrom (length (scene_of s journal).visits) more → IsAtEnd s (scene_of s journal)
        → schedule_of s (more ++ misses_of s journal) ≡ Some schedule
        → HasOnlyVisitsOf schedule (scene_of s journal) }
{
    a_block_is_picked_where_rows_have_one();
}

/// A law: where no visit of a legal journal is open, its tally is that of its visits: the riders without a miss have passed, and each
/// of their keys was copied once. So the tally of a planned journal that is at its end is that of the schedule of its misses.
pub fn tallies_are_scheduled<J: LawfulJobs>()
    ensures visits { (case : J.Case) (journal : List Event) → let s = setup_of (J.works case) (J.script case) in
        IsLegal s journal → is_open (scene_of s journal) ≡ false
        → tally_of journal ≡ tally_by (scene_of s journal).visits }
    ensures schedule { (case : J.Case) (journal : List Event) (schedule : Schedule)
        → let s = setup_of (J.works case) (J.script case) in
        IsPlanned s journal → IsAtEnd s (scene_of s journal) → schedule_of s (misses_of s journal) ≡ Some schedule
        → tally_of journal ≡ tally_by schedule.visits }
{
    a_block_is_picked_where_rows_have_one();
}

/// A law: no job of a legal journal rides twice to a chunk in one phase. So the first riders of its visits, one for each, differ in
/// their job, their phase or their chunk.
pub fn rides_are_apart<J: LawfulJobs>()
    ensures all { (case : J.Case) (journal : List Event) → let s = setup_of (J.works case) (J.script case) in
        IsLegal s journal → NoneTwice (rides_of s journal) }
    ensures first { (case : J.Case) (journal : List Event) → let s = setup_of (J.works case) (J.script case) in
        IsLegal s journal → NoneTwice (first_rides_of s journal) }
    ensures one_a_visit { (case : J.Case) (journal : List Event)
        → let s = setup_of (J.works case) (J.script case) in
        IsLegal s journal → length (first_rides_of s journal) ≡ length (scene_of s journal).visits }
{}
