//! Laws of job texts.

ghost use Rattle.std.specs.Prelude.{◌≡◌, ℕ, ◌<◌, List, length, Ok, Err};
ghost use Rattle.gm_jobs.specs.declared.limits.TheConstants.{MAX_TEXT_BYTES};
ghost use Rattle.gm_jobs.specs.JobBounds.{IsScriptOver};
ghost use Rattle.gm_jobs.specs.Scripts.{script_of};

use crate::{JobsRefusal, Line};

/// A law: a text that is longer than a job text may be is refused by its length alone, so it may be refused unread.
pub fn long_text_is_refused()
    ensures { (n : ℕ) (text : List ℕ) → MAX_TEXT_BYTES < length text → script_of n text ≡ Err (JobsRefusal.TooLong (length text)) }
{}

/// A law: each job of a script makes at least one round, sources and the ends of changes are below n, and neither jobs nor changes are too many.
pub fn scripts_are_within_bounds()
    ensures { (n : ℕ) (text : List ℕ) (entries : List Line) → script_of n text ≡ Ok entries → IsScriptOver n entries }
{}
