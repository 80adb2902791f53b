//! Lines on standard error, computed for small inputs.
#![tactic(auto, unfolding(crate::specs::Failures::text_of))]

ghost use Rattle.std.specs.Prelude.{◌≡◌, codes};
ghost use Rattle.gm_words.specs.Commands.{run, build, info};
ghost use Rattle.gm_commands.specs.StandardError.{error_line};

use crate::{Failure, Operand, Refusal};
use gm_edges::EdgeListRefusal;
use gm_grid::GridError;
use gm_jobs::{JobsRefusal, Why};

/// What lines on standard error say.
pub fn error_lines()
    ensures bad_line { error_line (build (record { edges = codes "e.txt"; grid = codes "a"; shape = record { n = 4; parts = 2 } }))
        (Failure.Refused (Refusal.EdgeList (EdgeListRefusal.BadLine 2))) ≡ codes "graphm: e.txt: line 2: not an edge\n" }
    ensures missing { error_line (run (record { grid = codes "a.grid"; jobs = codes "j.txt"; chunk = 1 }))
        (Failure.Refused (Refusal.Missing Operand.Jobs)) ≡ codes "graphm: j.txt: no such file\n" }
    ensures size { error_line (run (record { grid = codes "a.grid"; jobs = codes "j.txt"; chunk = 1 }))
        (Failure.Refused (Refusal.Grid (GridError.BadSize 95 96))) ≡ codes "graphm: a.grid: size 95, expected 96\n" }
    ensures shape { error_line (run (record { grid = codes "a.grid"; jobs = codes "j.txt"; chunk = 1 }))
        (Failure.Refused (Refusal.Grid (GridError.BadShape 0 2))) ≡ codes "graphm: a.grid: bad shape n 0 parts 2\n" }
    ensures output { error_line (run (record { grid = codes "a.grid"; jobs = codes "j.txt"; chunk = 1 })) Failure.OutputFailed
        ≡ codes "graphm: output failed\n" }
{}

/// What lines on standard error say of a job text.
pub fn error_lines_of_a_job_text()
    ensures long { error_line (run (record { grid = codes "a.grid"; jobs = codes "j.txt"; chunk = 1 }))
        (Failure.Refused (Refusal.JobText (JobsRefusal.TooLong 1048577))) ≡ codes "graphm: j.txt: longer than 1048576 bytes\n" }
    ensures line { error_line (run (record { grid = codes "a.grid"; jobs = codes "j.txt"; chunk = 1 }))
        (Failure.Refused (Refusal.JobText (JobsRefusal.BadLine 2 Why.NameTwice))) ≡ codes "graphm: j.txt: line 2: name used twice\n" }
{}

/// What a line on standard error says of an info.
pub fn error_line_of_an_info()
    ensures { error_line (info (record { grid = codes "a.grid"; chunk = 1 }))
        (Failure.Refused (Refusal.Grid (GridError.TooManyChunks 1048577))) ≡ codes "graphm: a.grid: too many chunks 1048577\n" }
{}
