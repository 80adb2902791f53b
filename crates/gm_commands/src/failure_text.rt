//! What the line of a failure says behind the names.

ghost use Rattle.std.specs.Prelude.{◌≡◌, ◌≤◌, length};
ghost use Rattle.gm_commands.specs.Failures.{grid_error_text, line_text, edge_list_text, job_text_text, refusal_text, text_of};

use crate::failure::{Failure, Refusal};
use gm_edges::EdgeListRefusal;
use gm_grid::GridError;
use gm_jobs::JobsRefusal;
use gm_output::Line;

/// A text alone.
fn plain_text(text: &[u8]) -> Line
    requires { length text.now ≤ 30 }
    ensures { result ≡ text.now }
{
    let mut line = Line::new();
    line.text(text);
    line
}

/// What is wrong with a grid.
fn grid_error_text(error: GridError) -> Line
    ensures { result ≡ grid_error_text error }
{
    let mut line = Line::new();
    match error {
        GridError::BadMagic => line.text(b"bad magic"),
        GridError::BadShape { n, parts } => {
            line.text(b"bad shape n ");
            line.number(u64::from(n));
            line.text(b" parts ");
            line.number(u64::from(parts));
        }
        GridError::TooManyEdges { edges } => {
            line.text(b"too many edges ");
            line.wide_number(edges);
        }
        GridError::BadSize { found, expected } => {
            line.text(b"size ");
            line.number(found);
            line.text(b", expected ");
            line.number(expected);
        }
        GridError::TooManyChunks { chunks } => {
            line.text(b"too many chunks ");
            line.number(chunks);
        }
        GridError::BadEdge { index } => {
            line.text(b"bad edge ");
            line.number(index);
        }
    }
    line
}

/// A line of a text by its number, and what is wrong with it.
fn line_text(number: u64, what: &[u8]) -> Line
    requires { length what.now ≤ 20 }
    ensures { result ≡ line_text number what.now }
{
    let mut line = Line::new();
    line.text(b"line ");
    line.number(number);
    line.text(b": ");
    line.text(what);
    line
}

/// What is wrong with an edge list.
fn edge_list_text(refusal: EdgeListRefusal) -> Line
    ensures { result ≡ edge_list_text refusal }
{
    match refusal {
        EdgeListRefusal::BadLine { line } => line_text(line, b"not an edge"),
        EdgeListRefusal::NoVertex { line } => line_text(line, b"no such vertex"),
        EdgeListRefusal::TooManyEdges { line } => line_text(line, b"too many edges"),
    }
}

/// What is wrong with a job text.
fn job_text_text(refusal: JobsRefusal) -> Line
    ensures { result ≡ job_text_text refusal }
{
    match refusal {
        JobsRefusal::TooLong { .. } => plain_text(b"longer than 1048576 bytes"),
        JobsRefusal::BadLine { line, why } => line_text(u64::from(line), why.text().as_bytes()),
        JobsRefusal::TooManyJobs { line } => line_text(u64::from(line), b"too many jobs"),
        JobsRefusal::TooManyChanges { line } => line_text(u64::from(line), b"too many changes"),
    }
}

fn refusal_text(refusal: Refusal) -> Line
    ensures { result ≡ refusal_text refusal }
{
    match refusal {
        Refusal::Missing(_) => plain_text(b"no such file"),
        Refusal::Grid(error) => grid_error_text(error),
        Refusal::EdgeList(refusal) => edge_list_text(refusal),
        Refusal::JobText(refusal) => job_text_text(refusal),
    }
}

#[tactic(auto, unfolding(crate::specs::Failures::text_of))]
pub(crate) fn text_of(failure: Failure) -> Line
    ensures { result ≡ text_of failure }
{
    match failure {
        Failure::Refused(refusal) => refusal_text(refusal),
        Failure::ReadFailed(_) => plain_text(b"read failed"),
        Failure::WriteFailed(_) => plain_text(b"write failed"),
        Failure::OutputFailed => plain_text(b"output failed"),
        Failure::OutOfMemory => plain_text(b"out of memory"),
    }
}
