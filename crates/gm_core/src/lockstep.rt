//! Laws of journals of the jobs of a script over a grid.

ghost use Rattle.std.specs.Prelude.{◌≡◌, ◌≤◌, ℕ, true, false, List, ◌++◌, length, Some, IsSome};
ghost use Rattle.gm_base.specs.declared.edge.Edge.{Edge};
ghost use Rattle.gm_events.specs.Journals.{tally_of};
ghost use Rattle.gm_events.specs.declared.event.Event.{Event};
ghost use Rattle.gm_events.specs.declared.event.Event.TheVariants.{Passed};
ghost use Rattle.gm_label.specs.Catalogues.{Catalogue};
ghost use Rattle.gm_machine.specs.JobWorks.{most_visits};
ghost use Rattle.gm_machine.specs.Setups.{jobs_in, IsMidwayEntry};
ghost use Rattle.gm_machine.specs.Machine.{Miss, IsLegal, may, is_open, scene_of};
ghost use Rattle.gm_machine.specs.Promises.{AllStages, IsMidwayOrLone, Apart, keys_of, AreHeldForRiders, IsNew};
ghost use Rattle.gm_machine.specs.Plans.{IsPlanned, plan_of};
ghost use Rattle.gm_machine.specs.Rides.{rides_of, first_rides_of, NoneTwice};
ghost use Rattle.gm_machine.specs.Schedules.{MissAt, Schedule, schedule_of, whole_plan, IsOver};
ghost use Rattle.gm_machine.specs.Schedules.{misses_of, AreFrom, tally_by};
ghost use Rattle.gm_machine.specs.Promises.{IsAloneOrMissed, HasVisitsOf, HasOutcomesOf, HasOnlyVisitsOf};
ghost use Rattle.gm_machine.specs.Promises.{BeginsPlan, HasPlannedOutcomes, IsAtEnd, IsWholePlan};
ghost use Rattle.gm_scripts.specs.ScriptJobs.{IsScriptOverGrid};
ghost use Rattle.gm_core.specs.ScriptWorks.{IsJobMidRound, works_of};
ghost use Rattle.gm_core.specs.ScriptCases.{script_setup};

use crate::laws::works_are_lawful;
use gm_jobs::Line;
use gm_machine::laws as machine;
use gm_machine::laws::LawfulJobs;

/// The jobs of a script over a grid, for laws alone.
pub struct ScriptJobs;

impl LawfulJobs for ScriptJobs {
    ghost use Rattle.gm_work.specs.JobStates.{JobState};
    ghost use Rattle.gm_core.specs.ScriptWorks.{IsJobMidRound, works_of};
    ghost use Rattle.gm_core.specs.ScriptCases.{ScriptCase, jobs_are_many};

    ghost State = { JobState };

    ghost Case = { ScriptCase };

    ghost script = { λ case. case.entries };

    ghost works = { λ case. works_of case.cat case.edges case.entries };

    ghost IsMidway = { λ case. IsJobMidRound case.cat case.edges case.entries };

    ghost many = { jobs_are_many };

    ghost lawful = { λ case. case.lawful };
}

/// A law: each job of a legal journal that runs is in the middle of a phase, and each that ended by itself has its lone run.
pub fn jobs_are_midway_or_lone()
    ensures { (cat : Catalogue) (edges : List Edge) (entries : List Line) (journal : List Event)
        → IsScriptOverGrid cat edges entries → IsLegal (script_setup cat edges entries) journal
        → let IsMidway = IsMidwayEntry (IsJobMidRound cat edges entries) in
        AllStages (IsMidwayOrLone IsMidway (works_of cat edges entries).lone)
        (scene_of (script_setup cat edges entries) journal).jobs }
{
    works_are_lawful();
    machine::every_job_is_sound::<ScriptJobs>();
}

/// A law: no legal journal has more visits than its jobs have phases, times the chunks.
pub fn visits_are_bounded()
    ensures { (cat : Catalogue) (edges : List Edge) (entries : List Line) (journal : List Event)
        → IsScriptOverGrid cat edges entries → IsLegal (script_setup cat edges entries) journal
        → length (scene_of (script_setup cat edges entries) journal).visits
        ≤ most_visits (works_of cat edges entries) }
{
    works_are_lawful();
    machine::visits_are_bounded::<ScriptJobs>();
}

/// A law: no key has two copies, and a copy is held only for jobs that run, have its key and still owe the visited chunk.
pub fn copies_are_held_for_riders()
    ensures once { (cat : Catalogue) (edges : List Edge) (entries : List Line) (journal : List Event)
        → IsScriptOverGrid cat edges entries → IsLegal (script_setup cat edges entries) journal
        → Apart (keys_of (scene_of (script_setup cat edges entries) journal).held) }
    ensures riders { (cat : Catalogue) (edges : List Edge) (entries : List Line) (journal : List Event)
        → IsScriptOverGrid cat edges entries → IsLegal (script_setup cat edges entries) journal
        → AreHeldForRiders (script_setup cat edges entries)
        (scene_of (script_setup cat edges entries) journal) }
{
    works_are_lawful();
    machine::copies_are_held_for_riders::<ScriptJobs>();
}

/// A law: where a job may pass a chunk, it hasn't passed this chunk in its phase.
pub fn chunks_are_passed_once()
    ensures { (cat : Catalogue) (edges : List Edge) (entries : List Line) (journal : List Event)
        → (job chunk : ℕ) → IsScriptOverGrid cat edges entries
        → IsLegal (script_setup cat edges entries) journal
        → may (script_setup cat edges entries) (scene_of (script_setup cat edges entries) journal)
        (Passed job chunk) ≡ true
        → AllStages (IsNew job chunk) (scene_of (script_setup cat edges entries) journal).jobs }
{
    works_are_lawful();
    machine::chunks_are_passed_once::<ScriptJobs>();
}

/// A law: whatever the order of passes, the visits of a planned journal with their riders and keys are those that the plan of its
/// misses begins with. Each job that has ended has its outcome there. Where every entry is in, no visit is open and no job runs,
/// they are all of the plan.
pub fn visits_are_planned()
    ensures visits { (cat : Catalogue) (edges : List Edge) (entries : List Line) (journal : List Event)
        → (more : List Miss) → IsScriptOverGrid cat edges entries
        → IsPlanned (script_setup cat edges entries) journal
        → BeginsPlan (script_setup cat edges entries) more
        (scene_of (script_setup cat edges entries) journal) }
    ensures outcomes { (cat : Catalogue) (edges : List Edge) (entries : List Line) (journal : List Event)
        → (more : List Miss) → IsScriptOverGrid cat edges entries
        → IsPlanned (script_setup cat edges entries) journal
        → HasPlannedOutcomes (script_setup cat edges entries) more
        (scene_of (script_setup cat edges entries) journal) }
    ensures end { (cat : Catalogue) (edges : List Edge) (entries : List Line) (journal : List Event)
        → (more : List Miss) → IsScriptOverGrid cat edges entries
        → IsPlanned (script_setup cat edges entries) journal
        → IsAtEnd (script_setup cat edges entries)
        (scene_of (script_setup cat edges entries) journal)
        → IsWholePlan (script_setup cat edges entries) more
        (scene_of (script_setup cat edges entries) journal) }
{
    works_are_lawful();
    machine::visits_are_planned::<ScriptJobs>();
}

/// A law: each job of a legal journal that has ended did so as its lone run, or it was a rider of a visit whose miss ended it.
pub fn jobs_end_alone_or_by_a_miss()
    ensures { (cat : Catalogue) (edges : List Edge) (entries : List Line) (journal : List Event)
        → IsScriptOverGrid cat edges entries → let s = script_setup cat edges entries in
        IsLegal s journal
        → AllStages (IsAloneOrMissed (works_of cat edges entries).lone (scene_of s journal).visits)
        (scene_of s journal).jobs }
{
    works_are_lawful();
    machine::jobs_end_alone_or_by_a_miss::<ScriptJobs>();
}

/// A law: each schedule comes to its end, whatever its visits miss. All entries go in, no job still runs, no chunk
/// is owed, and each job has its outcome. No plan has more visits than the jobs have phases, times the chunks.
pub fn schedules_end()
    ensures over { (cat : Catalogue) (edges : List Edge) (entries : List Line) (misses : List MissAt)
        → IsScriptOverGrid cat edges entries → let s = script_setup cat edges entries in
        IsOver s (whole_plan s misses) }
    ensures outcomes { (cat : Catalogue) (edges : List Edge) (entries : List Line) (misses : List MissAt)
        → (schedule : Schedule) → IsScriptOverGrid cat edges entries
        → schedule_of (script_setup cat edges entries) misses ≡ Some schedule
        → length schedule.outcomes ≡ jobs_in entries }
    ensures most { (cat : Catalogue) (edges : List Edge) (entries : List Line) (misses : List Miss)
        → IsScriptOverGrid cat edges entries
        → length (plan_of (script_setup cat edges entries) misses).visits
        ≤ most_visits (works_of cat edges entries) }
{
    works_are_lawful();
    machine::schedules_end::<ScriptJobs>();
}

/// A law: whatever the order of passes, the visits of a planned journal with their riders, keys and misses are those
/// that the schedule of its misses begins with. Each job that has ended has its outcome there. Where every entry is
/// in, no visit is open and no job runs, they are all of the schedule. So it is too where later visits miss more.
pub fn journals_keep_to_their_schedule()
    ensures allowed { (cat : Catalogue) (edges : List Edge) (entries : List Line) (journal : List Event)
        → IsScriptOverGrid cat edges entries → let s = script_setup cat edges entries in
        IsPlanned s journal → IsSome (schedule_of s (misses_of s journal)) }
    ensures visits { (cat : Catalogue) (edges : List Edge) (entries : List Line) (journal : List Event)
        → (more : List MissAt) (schedule : Schedule) → IsScriptOverGrid cat edges entries
        → let s = script_setup cat edges entries in
        IsPlanned s journal → AreFrom (length (scene_of s journal).visits) more
        → schedule_of s (more ++ misses_of s journal) ≡ Some schedule
        → HasVisitsOf schedule (scene_of s journal) }
    ensures outcomes { (cat : Catalogue) (edges : List Edge) (entries : List Line) (journal : List Event)
        → (more : List MissAt) (schedule : Schedule) → IsScriptOverGrid cat edges entries
        → let s = script_setup cat edges entries in
        IsPlanned s journal → AreFrom (length (scene_of s journal).visits) more
        → schedule_of s (more ++ misses_of s journal) ≡ Some schedule
        → HasOutcomesOf schedule (scene_of s journal) }
    ensures end { (cat : Catalogue) (edges : List Edge) (entries : List Line) (journal : List Event)
        → (more : List MissAt) (schedule : Schedule) → IsScriptOverGrid cat edges entries
        → let s = script_setup cat edges entries in
        IsPlanned s journal → AreFrom (length (scene_of s journal).visits) more
        → IsAtEnd s (scene_of s journal) → schedule_of s (more ++ misses_of s journal) ≡ Some schedule
        → HasOnlyVisitsOf schedule (scene_of s journal) }
{
    works_are_lawful();
    machine::journals_keep_to_their_schedule::<ScriptJobs>();
}

/// A law: where no visit of a legal journal is open, its tally is that of its visits. So the tally of a planned journal
/// that is at its end is that of the schedule of its misses.
pub fn tallies_are_scheduled()
    ensures visits { (cat : Catalogue) (edges : List Edge) (entries : List Line) (journal : List Event)
        → IsScriptOverGrid cat edges entries → let s = script_setup cat edges entries in
        IsLegal s journal → is_open (scene_of s journal) ≡ false
        → tally_of journal ≡ tally_by (scene_of s journal).visits }
    ensures schedule { (cat : Catalogue) (edges : List Edge) (entries : List Line) (journal : List Event)
        → (schedule : Schedule) → IsScriptOverGrid cat edges entries
        → let s = script_setup cat edges entries in
        IsPlanned s journal → IsAtEnd s (scene_of s journal)
        → schedule_of s (misses_of s journal) ≡ Some schedule
        → tally_of journal ≡ tally_by schedule.visits }
{
    works_are_lawful();
    machine::tallies_are_scheduled::<ScriptJobs>();
}

/// A law: no job of a legal journal rides twice to a chunk in one phase. So the first riders of its visits, one for
/// each, differ in their job, their phase or their chunk.
pub fn rides_are_apart()
    ensures all { (cat : Catalogue) (edges : List Edge) (entries : List Line) (journal : List Event)
        → IsScriptOverGrid cat edges entries → let s = script_setup cat edges entries in
        IsLegal s journal → NoneTwice (rides_of s journal) }
    ensures first { (cat : Catalogue) (edges : List Edge) (entries : List Line) (journal : List Event)
        → IsScriptOverGrid cat edges entries → let s = script_setup cat edges entries in
        IsLegal s journal → NoneTwice (first_rides_of s journal) }
    ensures one_a_visit { (cat : Catalogue) (edges : List Edge) (entries : List Line) (journal : List Event)
        → IsScriptOverGrid cat edges entries → let s = script_setup cat edges entries in
        IsLegal s journal → length (first_rides_of s journal) ≡ length (scene_of s journal).visits }
{
    works_are_lawful();
    machine::rides_are_apart::<ScriptJobs>();
}
