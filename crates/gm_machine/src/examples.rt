//! Journals and plans of two jobs over three chunks, computed.
#![tactic(auto, unfolding(crate::specs::Machine::scene_from, crate::specs::Machine::is_legal_from, crate::specs::Plans::is_planned_from, crate::specs::Plans::choice, crate::specs::Plans::all_in_of, crate::specs::Plans::next_plan, crate::specs::Plans::plan_after))]

ghost use Rattle.std.specs.Prelude.{◌≡◌, [], ◌∷◌, ◌++◌, map, false, None};
ghost use Rattle.gm_base.specs.declared.job.Outcome.TheVariants.{Rounds};
ghost use Rattle.gm_events.specs.Examples.{grid_key, own_key, counts};
ghost use Rattle.gm_events.specs.Journals.{tally_of};
ghost use Rattle.gm_events.specs.declared.event.LoadCause.TheVariants.{Read};
ghost use Rattle.gm_events.specs.declared.event.Event.TheVariants.{Submit, Visit, Loaded, NoCopy, LoadFailed, Given, Passed};
ghost use Rattle.gm_machine.specs.Machine.{machine_after, IsLegal, scene_of, beginning, no_miss, Own, ReadFailed, NoMemory};
ghost use Rattle.gm_machine.specs.Plans.{IsPlanned, is_planned_from, plan_of, misses_by_visit, Gone};
ghost use Rattle.gm_machine.specs.Promises.{seen_plan};
ghost use Rattle.gm_machine.specs.Examples.{one_at_work, two_at_work, waiting_at_work, first_visit, second_visit, both_given, whole_journal, failing_journal, grid_rider, own_rider};

/// Journals that break one condition of the machine each.
pub fn illegal_journals()
    ensures line_out_of_order { machine_after two_at_work (Submit 1 ∷ []) ≡ None }
    ensures no_such_line { machine_after one_at_work (Submit 0 ∷ Submit 1 ∷ []) ≡ None }
    ensures nobody_owes { machine_after two_at_work (Submit 0 ∷ Visit 3 ∷ []) ≡ None }
    ensures visit_in_a_visit { machine_after two_at_work (Submit 0 ∷ Visit 0 ∷ Visit 1 ∷ []) ≡ None }
    ensures nobody_rides_with_it { machine_after two_at_work (Submit 0 ∷ Visit 0 ∷ Loaded (grid_key 1) ∷ []) ≡ None }
    ensures loaded_twice { machine_after two_at_work
        (Submit 0 ∷ Visit 0 ∷ Loaded (grid_key 0) ∷ Loaded (grid_key 0) ∷ []) ≡ None }
    ensures loaded_and_lost { machine_after two_at_work
        (Submit 0 ∷ Visit 0 ∷ Loaded (grid_key 0) ∷ NoCopy (grid_key 0) ∷ []) ≡ None }
    ensures failed_after_a_copy { machine_after two_at_work
        (Submit 0 ∷ Visit 0 ∷ Loaded (grid_key 0) ∷ LoadFailed 0 Read ∷ []) ≡ None }
    ensures another_chunk_failed { machine_after two_at_work (Submit 0 ∷ Visit 0 ∷ LoadFailed 1 Read ∷ []) ≡ None }
    ensures given_without_a_copy { machine_after two_at_work (Submit 0 ∷ Visit 0 ∷ Given 0 0 ∷ []) ≡ None }
    ensures given_twice { machine_after two_at_work (both_given ++ Given 0 1 ∷ []) ≡ None }
    ensures passed_twice { machine_after two_at_work (both_given ++ Passed 0 1 ∷ Passed 0 1 ∷ []) ≡ None }
    ensures pass_not_given { machine_after two_at_work
        (Submit 0 ∷ Visit 0 ∷ Loaded (grid_key 0) ∷ Passed 0 0 ∷ []) ≡ None }
{}

/// Legal journals that break one condition of planned journals each.
pub fn unplanned_journals()
    ensures line_in_a_visit_is_legal { IsLegal two_at_work (Submit 0 ∷ Visit 0 ∷ Submit 1 ∷ []) }
    ensures line_in_a_visit { is_planned_from two_at_work beginning (Submit 0 ∷ Visit 0 ∷ Submit 1 ∷ []) ≡ false }
    ensures early_wait_is_legal { IsLegal two_at_work (Submit 0 ∷ Submit 1 ∷ []) }
    ensures early_wait { is_planned_from two_at_work beginning (Submit 0 ∷ Submit 1 ∷ []) ≡ false }
    ensures visit_before_a_due_line_is_legal { IsLegal two_at_work (first_visit ++ Visit 1 ∷ []) }
    ensures visit_before_a_due_line { is_planned_from two_at_work beginning (first_visit ++ Visit 1 ∷ []) ≡ false }
    ensures another_chunk_is_legal { IsLegal two_at_work (Submit 0 ∷ Visit 1 ∷ []) }
    ensures another_chunk { is_planned_from two_at_work beginning (Submit 0 ∷ Visit 1 ∷ []) ≡ false }
    ensures another_order_of_copies_is_legal { IsLegal two_at_work (second_visit ++ Loaded (own_key 1 1) ∷ []) }
    ensures another_order_of_copies { is_planned_from two_at_work beginning (second_visit ++ Loaded (own_key 1 1) ∷ []) ≡ false }
    ensures another_job_first_is_legal { IsLegal two_at_work
        (second_visit ++ Loaded (grid_key 1) ∷ Loaded (own_key 1 1) ∷ Given 1 1 ∷ []) }
    ensures another_job_first { is_planned_from two_at_work beginning
        (second_visit ++ Loaded (grid_key 1) ∷ Loaded (own_key 1 1) ∷ Given 1 1 ∷ []) ≡ false }
{}

/// One job passes the chunks of block 0 and then that of block 1, and chunk 1 alone in its second round.
pub fn a_plan_of_one_job()
    ensures visits { map (λ v. v.chunk) (plan_of one_at_work (no_miss ∷ no_miss ∷ no_miss ∷ no_miss ∷ no_miss ∷ [])).visits
        ≡ 1 ∷ 2 ∷ 1 ∷ 0 ∷ [] }
    ensures outcome { map (λ job. job.place) (plan_of one_at_work (no_miss ∷ no_miss ∷ no_miss ∷ no_miss ∷ [])).jobs
        ≡ Gone (Own (Rounds 100)) ∷ [] }
{}

/// A wait for more visits than there are ends where no job runs.
pub fn a_wait_for_nothing()
    ensures { map (λ v. v.chunk) (plan_of waiting_at_work (no_miss ∷ no_miss ∷ no_miss ∷ no_miss ∷ [])).visits
        ≡ 1 ∷ 2 ∷ 1 ∷ 0 ∷ [] }
{}

/// The second job comes in after one visit. From then on both ride together where both owe the chunk.
pub fn a_whole_journal()
    ensures planned { IsPlanned two_at_work whole_journal }
    ensures visits { map (λ v. v.chunk) (scene_of two_at_work whole_journal).visits ≡ 1 ∷ 0 ∷ 2 ∷ 1 ∷ 0 ∷ [] }
    ensures riders { map (λ v. v.riders) (scene_of two_at_work whole_journal).visits
        ≡ (grid_rider 0 1 ∷ own_rider 1 1 ∷ []) ∷ (grid_rider 1 0 ∷ []) ∷ (grid_rider 0 2 ∷ grid_rider 1 2 ∷ [])
        ∷ (grid_rider 0 1 ∷ own_rider 1 1 ∷ []) ∷ (grid_rider 0 0 ∷ []) ∷ [] }
    ensures tally { tally_of whole_journal ≡ counts 5 8 7 }
    ensures nothing_held { (scene_of two_at_work whole_journal).held ≡ [] }
    ensures outcomes { map (λ job. job.place) (seen_plan (scene_of two_at_work whole_journal)).jobs
        ≡ Gone (Own (Rounds 100)) ∷ Gone (Own (Rounds 101)) ∷ [] }
    ensures plan { plan_of two_at_work (no_miss ∷ no_miss ∷ no_miss ∷ no_miss ∷ no_miss ∷ no_miss ∷ [])
        ≡ seen_plan (scene_of two_at_work whole_journal) }
{}

/// A copy without memory ends the job with its key, and a failed load ends the riders.
pub fn a_failing_journal()
    ensures planned { IsPlanned two_at_work failing_journal }
    ensures outcomes { map (λ job. job.place) (seen_plan (scene_of two_at_work failing_journal)).jobs
        ≡ Gone (ReadFailed 2) ∷ Gone NoMemory ∷ [] }
    ensures plan { plan_of two_at_work (no_miss ∷ misses_by_visit (scene_of two_at_work failing_journal).visits)
        ≡ seen_plan (scene_of two_at_work failing_journal) }
{}
