//! The one line on standard error, and the status that goes with it.

ghost use Rattle.std.specs.Prelude.{◌≡◌, IfOk, IfErr, OnOk};
ghost use Rattle.gm_output.specs.Pieces.{texts_of};
ghost use Rattle.gm_words.specs.Commands.{said};
ghost use Rattle.gm_commands.specs.Failures.{status_of};
ghost use Rattle.gm_commands.specs.StandardError.{IsSaid, SaysNothing, usage_line, out_of_memory_line, error_line, word_of};

use crate::failure::{Failure, Operand};
use crate::failure_text::text_of;
use gm_output::write_texts;
use gm_outside::{Sink, Trouble};
use gm_words::Command;

/// What each line begins with.
const PROGRAM: &[u8] = b"graphm: ";

const USAGE: &[u8] =
    b"usage: run GRID JOBS WORKERS CHUNK, build EDGES GRID N PARTS, info GRID CHUNK, drill NUMBER SCALE WORKERS";

/// Says the line that these texts are. Where standard error fails, a first part of it was written.
fn say_texts<E: Sink>(err: &mut E, texts: &[&[u8]])
    ensures { IsSaid (texts_of texts.now) (E.state err.old) (E.state err.new) }
{
    let written = write_texts(err, texts);
    match written {
        Ok(()) => {}
        Err(Trouble::Failed) => {}
        Err(Trouble::Memory) => {}
    }
}

/// Says how the program is called, as [`conclude`] says a failure.
#[tactic(auto, unfolding(crate::specs::StandardError::usage_line))]
pub fn say_usage<E: Sink>(err: &mut E)
    ensures { IsSaid usage_line (E.state err.old) (E.state err.new) }
{
    say_texts(err, &[PROGRAM, USAGE, b"\n"]);
}

/// Says that there was no memory, before the words were known.
#[tactic(auto, unfolding(crate::specs::StandardError::out_of_memory_line))]
pub fn say_out_of_memory<E: Sink>(err: &mut E)
    ensures { IsSaid out_of_memory_line (E.state err.old) (E.state err.new) }
{
    say_texts(err, &[PROGRAM, b"out of memory\n"]);
}

/// The command's word for a file, empty where it has none.
fn word_of<'a>(command: &Command<'a>, operand: Operand) -> &'a str
    ensures { result.now ≡ word_of (said command.entry.now) operand }
{
    match (command, operand) {
        (Command::Run(run), Operand::Grid) => run.grid,
        (Command::Run(run), Operand::Jobs) => run.jobs,
        (Command::Build(build), Operand::Edges) => build.edges,
        (Command::Build(build), Operand::Grid) => build.grid,
        (Command::Info(info), Operand::Grid) => info.grid,
        _ => "",
    }
}

/// Says why a command failed, by its words for its files.
fn say<E: Sink>(err: &mut E, command: &Command<'_>, failure: Failure)
    ensures { IsSaid (error_line (said command.now) failure) (E.state err.old) (E.state err.new) }
{
    let text = text_of(failure);
    match failure.operand() {
        Some(operand) => {
            let name = word_of(command, operand).as_bytes();
            say_texts(err, &[PROGRAM, name, b": ", text.as_slice(), b"\n"])
        }
        None => say_texts(err, &[PROGRAM, text.as_slice(), b"\n"]),
    }
}

/// The status of a command that ended so. Where it failed its line is said, and else nothing.
pub fn conclude<E: Sink>(err: &mut E, command: &Command<'_>, outcome: Result<u8, Failure>) -> u8
    ensures status { IfOk outcome (λ status. result ≡ status) }
    ensures silence { OnOk outcome (SaysNothing (E.state err.old) (E.state err.new)) }
    ensures failed { IfErr outcome (λ failure. result ≡ status_of failure) }
    ensures line { IfErr outcome (λ failure.
        IsSaid (error_line (said command.now) failure) (E.state err.old) (E.state err.new)) }
{
    match outcome {
        Ok(status) => status,
        Err(failure) => {
            say(err, command, failure);
            failure.status()
        }
    }
}
