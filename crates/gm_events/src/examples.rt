//! A journal that was counted by hand.

ghost use Rattle.std.specs.Prelude.{◌≡◌, []};
ghost use Rattle.gm_events.specs.Journals.{tally_of};
ghost use Rattle.gm_events.specs.Examples.{one_of_each_kind, shared_chunk, counts};

/// Seven events, one of each kind: one visit, one pass and one copy. A submitted line, a copy without memory, a load that failed
/// and a pass that was only given don't count. Without events nothing is counted.
pub fn tallies()
    ensures each_kind { tally_of one_of_each_kind ≡ counts 1 1 1 }
    ensures shared { tally_of shared_chunk ≡ counts 1 2 1 }
    ensures none { tally_of [] ≡ counts 0 0 0 }
{}
