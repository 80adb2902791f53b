//! The report as a whole.
#![tactic(auto, using(gm_output::specs::PiecesRules::streaming))]

ghost use Rattle.std.specs.Prelude.{◌≡◌};
ghost use Rattle.gm_outside.specs.Frames.{Writes};
ghost use Rattle.gm_output.specs.Pieces.{Feeds};
ghost use Rattle.gm_report.specs.Report.{values_of, value_lines, result_lines, report_text};

use crate::job_lines::{job_line, value_line};
use gm_base::{JobLine, Outcome};
use gm_output::Pieces;
use gm_outside::{Sink, Trouble};

/// A line for each vertex.
fn push_values<K: Sink>(pieces: &mut Pieces, sink: &mut K, values: &[u64]) -> Result<(), Trouble>
    ensures { Feeds pieces.old pieces.new (value_lines 0 values.now) (K.state sink.old) (K.state sink.new) result }
{
    for (vertex, &value) in values.iter().enumerate() {
        let line = value_line(vertex as u64, value);
        pieces.push(sink, line.as_slice())?;
    }
    Ok(())
}

/// The values of a job that is done.
fn values_of(outcome: &Outcome) -> &[u64]
    ensures { result.now ≡ values_of outcome.now }
{
    match outcome {
        Outcome::Done { values, .. } => values.as_slice(),
        _ => &[],
    }
}

/// The line of a job and its values.
#[tactic(auto, using(gm_output::specs::PiecesRules::streaming), unfolding(crate::specs::Report::result_lines))]
fn push_job<K: Sink>(pieces: &mut Pieces, sink: &mut K, job: &JobLine) -> Result<(), Trouble>
    ensures { Feeds pieces.old pieces.new (result_lines job.now) (K.state sink.old) (K.state sink.new) result }
{
    let line = job_line(job);
    pieces.push(sink, line.as_slice())?;
    push_values(pieces, sink, values_of(&job.outcome))
}

/// Writes the report of the jobs' lines in pieces. After a refusal a first part of its text was written.
/// `Failed` comes only where the sink failed, `Memory` only where the sink found none: it takes none of its own.
pub fn write<K: Sink>(lines: &[JobLine], out: &mut K) -> Result<(), Trouble>
    ensures { Writes (report_text lines.now) (K.state out.old) (K.state out.new) result }
{
    let mut pieces = Pieces::new();
    push_jobs(&mut pieces, out, lines)?;
    pieces.finish(out)
}

/// The jobs in file order.
fn push_jobs<K: Sink>(pieces: &mut Pieces, sink: &mut K, jobs: &[JobLine]) -> Result<(), Trouble>
    ensures { Feeds pieces.old pieces.new (report_text jobs.now) (K.state sink.old) (K.state sink.new) result }
{
    for job in jobs {
        push_job(pieces, sink, job)?;
    }
    Ok(())
}
