//! The text of a report, computed for small jobs.

ghost use Rattle.std.specs.Prelude.{◌≡◌, [], ◌∷◌, ◌++◌, codes};
ghost use Rattle.gm_report.specs.Report.{report_text};

use gm_base::{Outcome, TOP};

/// A job of four vertices that is done.
pub fn report_of_levels()
    ensures { report_text (
        record { name = codes "a"; version = 0; outcome = Outcome.Done 3 (0 ∷ 1 ∷ 1 ∷ 2 ∷ []) } ∷ [])
        ≡ codes "job a version 0 done rounds 3\n0 0\n1 1\n2 1\n3 2\n" }
{}

/// A vertex that isn't reached has a dash.
pub fn report_with_an_unreached_vertex()
    ensures { report_text (
        record { name = codes "b"; version = 12; outcome = Outcome.Done 1 (TOP ∷ 0 ∷ []) } ∷ [])
        ≡ codes "job b version 12 done rounds 1\n0 -\n1 0\n" }
{}

/// Jobs that failed, in file order.
pub fn report_of_failures()
    ensures { report_text (
        record { name = codes "c"; version = 0; outcome = Outcome.Rounds 3 }
        ∷ record { name = codes "d"; version = 1; outcome = Outcome.Read 1 2 }
        ∷ record { name = codes "e"; version = 0; outcome = Outcome.Changed 0 0 }
        ∷ record { name = codes "f"; version = 0; outcome = Outcome.Memory } ∷ [])
        ≡ codes "job c version 0 failed rounds 3\n" ++ codes "job d version 1 failed read 1 2\n"
        ++ codes "job e version 0 failed changed 0 0\n" ++ codes "job f version 0 failed memory\n" }
{}
