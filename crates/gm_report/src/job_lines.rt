//! The lines of a report.

ghost use Rattle.std.specs.Prelude.{◌≡◌, ◌≤◌, length};
ghost use Rattle.gm_output.specs.declared.line.TheConstants.{MAX_LINE_BYTES};
ghost use Rattle.gm_report.specs.Report.{value_line, job_line};

use gm_base::{JobLine, Outcome};
use gm_output::Line;

/// A vertex and its value.
pub(crate) fn value_line(vertex: u64, value: u64) -> Line
    ensures text { result ≡ value_line (vertex, value) }
    ensures short { length result ≤ MAX_LINE_BYTES }
{
    let mut line = Line::new();
    line.number(vertex);
    line.text(b" ");
    line.value(value);
    line.text(b"\n");
    line
}

/// The line of a job, without the values below it.
#[tactic(auto, unfolding(crate::specs::Report::job_line))]
pub(crate) fn job_line(job: &JobLine) -> Line
    ensures text { result ≡ job_line job.now }
    ensures short { length result ≤ MAX_LINE_BYTES }
{
    let mut line = Line::new();
    line.text(b"job ");
    line.text(job.name.as_slice());
    line.text(b" version ");
    line.number(u64::from(job.version));
    match &job.outcome {
        Outcome::Done { rounds, .. } => {
            line.text(b" done rounds ");
            line.number(u64::from(*rounds));
        }
        Outcome::Rounds { bound } => {
            line.text(b" failed rounds ");
            line.number(u64::from(*bound));
        }
        Outcome::Read { block, chunk } => {
            line.text(b" failed read ");
            line.number(u64::from(*block));
            line.text(b" ");
            line.number(u64::from(*chunk));
        }
        Outcome::Changed { block, chunk } => {
            line.text(b" failed changed ");
            line.number(u64::from(*block));
            line.text(b" ");
            line.number(u64::from(*chunk));
        }
        Outcome::Memory => line.text(b" failed memory"),
    }
    line.text(b"\n");
    line
}
