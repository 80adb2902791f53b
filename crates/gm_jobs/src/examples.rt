//! The definition of the script of a text, computed on texts that were worked out by hand.

ghost use Rattle.std.specs.Prelude.{◌≡◌, true, ◌∷◌, [], ◌++◌, Ok, Err, codes, replicate};
ghost use Rattle.gm_base.specs.Graph.{edge};
ghost use Rattle.gm_jobs.specs.Examples.{AreRefused, AreTooMany};
ghost use Rattle.gm_jobs.specs.Scripts.{script_of, has_room, entries_after};
ghost use Rattle.gm_jobs.specs.StatedJobs.{jobs_of};

use crate::keyword::Keyword;
use crate::{JobsRefusal, Line, Why};
use gm_base::Spec;
use gm_changes::Change;

/// Every kind of line, comments, tabs, CR, an empty line, and no last line end.
pub fn script_of_all_lines()
    ensures { script_of 4 (codes "# all\r\njob a bfs 0\r\n\tmutate add 0 1 7 \n#\n mutate\tdel 2 3\n\nupdate\nadd 3 2 0\n \t#\r\ndel 1 1\njob b.2 rank 5\nwait 3\njob c wcc rounds 9\nupdate")
        ≡ Ok (Line.Job (codes "a") (Spec.Bfs 0 5) (Change.Add (edge 0 1 7) ∷ Change.Cut 2 3 ∷ [])
        ∷ Line.Update (Change.Add (edge 3 2 0) ∷ Change.Cut 1 1 ∷ [])
        ∷ Line.Job (codes "b.2") (Spec.Rank 5) []
        ∷ Line.Wait 3
        ∷ Line.Job (codes "c") (Spec.Wcc 9) []
        ∷ Line.Update []
        ∷ []) }
{}

/// The job text of the drill.
pub fn script_of_the_drill()
    ensures { script_of 1000 (codes "job levels bfs 0\njob walks sssp 0\nwait 3\nupdate\nadd 0 1 1\ndel 2 3\njob parts wcc\nmutate add 4 5 1\njob ranks rank 5\n")
        ≡ Ok (Line.Job (codes "levels") (Spec.Bfs 0 1001) []
        ∷ Line.Job (codes "walks") (Spec.Sssp 0 1001) []
        ∷ Line.Wait 3
        ∷ Line.Update (Change.Add (edge 0 1 1) ∷ Change.Cut 2 3 ∷ [])
        ∷ Line.Job (codes "parts") (Spec.Wcc 1001) (Change.Add (edge 4 5 1) ∷ [])
        ∷ Line.Job (codes "ranks") (Spec.Rank 5) []
        ∷ []) }
{}

/// Texts without jobs, and a `wait` line in front.
pub fn scripts_of_few_lines()
    ensures no_text { script_of 4 [] ≡ Ok [] }
    ensures no_entry { script_of 4 (codes "#job a wcc\n\n \r\n") ≡ Ok [] }
    ensures waits { script_of 4 (codes "# x\nwait 0\nwait 1000000000") ≡ Ok (Line.Wait 0 ∷ Line.Wait 1000000000 ∷ []) }
    ensures wait_first { script_of 1 (codes "wait 7\njob a sssp 0\n") ≡ Ok (Line.Wait 7 ∷ Line.Job (codes "a") (Spec.Sssp 0 2) [] ∷ []) }
{}

/// The bounds of rounds, of waits and of weights.
pub fn numbers_in_range()
    ensures least_bound { script_of 4 (codes "job a sssp 3 rounds 01") ≡ Ok (Line.Job (codes "a") (Spec.Sssp 3 1) [] ∷ []) }
    ensures greatest_bound { script_of 4 (codes "job a bfs 0 rounds 1000000") ≡ Ok (Line.Job (codes "a") (Spec.Bfs 0 1000000) [] ∷ []) }
    ensures greatest_rank { script_of 4 (codes "job a rank 1000000") ≡ Ok (Line.Job (codes "a") (Spec.Rank 1000000) [] ∷ []) }
    ensures greatest_weight { script_of 4 (codes "update\nadd 0 0 4294967295") ≡ Ok (Line.Update (Change.Add (edge 0 0 4294967295) ∷ []) ∷ []) }
{}

/// Each job has the updates above its line, and its own changes.
pub fn jobs_below_updates()
    ensures { jobs_of (Line.Job (codes "a") (Spec.Wcc 5) [] ∷ Line.Update (Change.Add (edge 0 3 1) ∷ []) ∷ Line.Wait 2
        ∷ Line.Job (codes "b") (Spec.Rank 1) (Change.Cut 0 1 ∷ []) ∷ Line.Update [] ∷ Line.Job (codes "c") (Spec.Wcc 5) [] ∷ [])
        ≡ record { number = 0; name = codes "a"; spec = Spec.Wcc 5; above = []; own = [] }
        ∷ record { number = 1; name = codes "b"; spec = Spec.Rank 1; above = (Change.Add (edge 0 3 1) ∷ []) ∷ []; own = Change.Cut 0 1 ∷ [] }
        ∷ record { number = 2; name = codes "c"; spec = Spec.Wcc 5; above = (Change.Add (edge 0 3 1) ∷ []) ∷ [] ∷ []; own = [] } ∷ [] }
{}

/// A first word that begins no line, and other words that may not stand where they do.
pub fn unknown_words()
    ensures unknown_word { AreRefused Why.UnknownWord ((1, codes "jobs a wcc\n") ∷ (1, codes "JOB a wcc\n") ∷ (1, codes "job a dfs 0\n")
        ∷ (1, codes "job a wcc round 2\n") ∷ (1, codes "job a bfs 0 #\n") ∷ (2, codes "job a wcc\nmutate put 0 1\n") ∷ []) }
{}

/// A `mutate` line behind a comment is in place. One below an `update` or a `wait` isn't, nor is `add` or `del` below a job.
pub fn places()
    ensures behind_comment { script_of 4 (codes "job a wcc\n\n# x\nmutate del 0 1\n") ≡ Ok (Line.Job (codes "a") (Spec.Wcc 5) (Change.Cut 0 1 ∷ []) ∷ []) }
    ensures out_of_place { AreRefused Why.OutOfPlace ((3, codes "job a wcc\nupdate\nmutate del 0 1\n") ∷ (3, codes "job a wcc\nwait 1\nmutate del 0 1\n")
        ∷ (1, codes "mutate\n") ∷ (3, codes "update\njob a wcc\nadd 0 1 1\n") ∷ (3, codes "update\nwait 1\ndel 0 1\n") ∷ (1, codes "add 9\n") ∷ []) }
{}

/// Lines that end too early.
pub fn short_lines()
    ensures short { AreRefused Why.Short ((1, codes "job\n") ∷ (1, codes "job a\n") ∷ (1, codes "job a bfs\n") ∷ (1, codes "job a wcc rounds\n")
        ∷ (1, codes "job a rank\n") ∷ (2, codes "job a wcc\nmutate\n") ∷ (2, codes "update\nadd 0 1\n") ∷ (2, codes "update\ndel 0\n") ∷ (1, codes "wait\n") ∷ []) }
{}

/// Lines that go on where they should end.
pub fn long_lines()
    ensures extra { AreRefused Why.Extra ((1, codes "job a wcc rounds 2 3\n") ∷ (1, codes "job a rank 2 rounds 3\n") ∷ (1, codes "update 1\n")
        ∷ (2, codes "update\nadd 0 1 2 3\n") ∷ (2, codes "update\ndel 0 1 2\n") ∷ (1, codes "wait 1 2\n") ∷ []) }
{}

/// Names that are none, and a name that a job above has. The case of a letter counts.
pub fn names()
    ensures other_case { script_of 4 (codes "job a wcc\njob A wcc\n") ≡ Ok (Line.Job (codes "a") (Spec.Wcc 5) [] ∷ Line.Job (codes "A") (Spec.Wcc 5) [] ∷ []) }
    ensures bad_name { AreRefused Why.BadName ((1, codes "job a! wcc\n") ∷ (1, codes "job 012345678901234567890123456789012 wcc\n") ∷ []) }
    ensures name_twice { AreRefused Why.NameTwice ((3, codes "job a wcc\nupdate\njob a\n") ∷ []) }
{}

/// Words that aren't numbers or aren't in their range, and numbers that are no vertex.
pub fn numbers_out_of_range()
    ensures bad_number { AreRefused Why.BadNumber ((1, codes "job a bfs x\n") ∷ (1, codes "job a bfs 18446744073709551616\n")
        ∷ (1, codes "job a wcc rounds 0\n") ∷ (1, codes "job a wcc rounds 1000001\n") ∷ (1, codes "job a rank 0\n")
        ∷ (2, codes "update\nadd 0 1 4294967296\n") ∷ (1, codes "wait 1000000001\n") ∷ []) }
    ensures no_vertex { AreRefused Why.NoVertex ((1, codes "job a bfs 4\n") ∷ (1, codes "job a sssp 18446744073709551615\n") ∷ (2, codes "update\ndel 3 4\n") ∷ []) }
{}

/// The first refused line decides, and in it the first refused word. Lines that mean nothing are counted.
pub fn first_refusals()
    ensures no_vertex { AreRefused Why.NoVertex ((3, codes "# x\n\njob a bfs 4\nwait\n") ∷ []) }
    ensures bad_name { AreRefused Why.BadName ((1, codes "job a! dfs\n") ∷ []) }
    ensures bad_number { AreRefused Why.BadNumber ((1, codes "job a rank 0 1\n") ∷ []) }
    ensures short { AreRefused Why.Short ((2, codes "update\nadd 0\n") ∷ []) }
{}

/// A 65th job and a 65,537th line of changes are one too many. Place comes first, then the count, then the words. A `wait` line is no change.
pub fn counts()
    ensures job { has_room (replicate 63 (Line.Job (codes "a") (Spec.Wcc 1) [])) Keyword.Job ≡ true }
    ensures update { has_room (replicate 65535 (Line.Update [])) Keyword.Update ≡ true }
    ensures wait { has_room (replicate 65536 (Line.Update [])) Keyword.Wait ≡ true }
    ensures job_too_many { entries_after 4 7 (replicate 64 (Line.Job (codes "a") (Spec.Wcc 1) [])) (codes "job" ∷ []) ≡ Err (JobsRefusal.TooManyJobs 7) }
    ensures changes_too_many { AreTooMany ((replicate 65536 (Line.Update []), codes "update" ∷ codes "x" ∷ [])
        ∷ (Line.Wait 1 ∷ Line.Update (replicate 65535 (Change.Cut 0 0)) ∷ [], codes "del" ∷ [])
        ∷ (Line.Job (codes "a") (Spec.Wcc 1) (replicate 65536 (Change.Cut 0 0)) ∷ [], codes "mutate" ∷ []) ∷ []) }
    ensures place_first { entries_after 4 7 (replicate 65536 (Line.Update []) ++ Line.Wait 1 ∷ []) (codes "add" ∷ []) ≡ Err (JobsRefusal.BadLine 7 Why.OutOfPlace) }
{}
