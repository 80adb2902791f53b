//! The words that a parse placed, read as a command.

ghost use Rattle.std.specs.Prelude.{◌≡◌, ◌≤◌, IfSome, option_map};
ghost use Rattle.gm_base.specs.declared.limits.TheConstants.{MAX_CHUNK_SIZE, MAX_VERTICES, MAX_PARTS};
ghost use Rattle.clap.specs.Words.{found_of, rows_of};
ghost use Rattle.gm_words.specs.Commands.{HasChunkSize, number_between, said};
ghost use Rattle.gm_words.specs.Usage.{build_in, command_in, info_in, operand_in, run_in};

use crate::command::{BuildCommand, Command, InfoCommand, RunCommand};
use clap::ArgMatches;
use gm_base::{MAX_CHUNK_SIZE, MAX_PARTS, MAX_VERTICES, Shape, number};

/// The number of a word, from `low` to `high`. `None` exactly where the word isn't 1 to 20 ASCII digits or its value is out of the range.
fn number_between(low: u64, high: u64, word: &str) -> Option<u64>
    ensures value { result ≡ number_between low high word.now }
    ensures range { IfSome result (λ number. (low ≤ number) × (number ≤ high)) }
{
    let value = number(word.as_bytes(), high)?;
    if low <= value { Some(value) } else { None }
}

/// The word at this place of a command's usage. After a parse there is one at each.
fn operand<'a>(operands: &ArgMatches<'a>, id: &str) -> &'a str
    ensures { result.now ≡ operand_in (rows_of (found_of operands.now)) id.now }
{
    operands.get_str(id).unwrap_or("")
}

fn read_run<'a>(operands: &ArgMatches<'a>) -> Option<Command<'a>>
    ensures value { option_map said result ≡ run_in (rows_of (found_of operands.now)) }
    ensures chunk { IfSome result (λ command. HasChunkSize (said command)) }
{
    let _workers = number_between(1, 1, operand(operands, "WORKERS"))?;
    let chunk = number_between(1, u64::from(MAX_CHUNK_SIZE), operand(operands, "CHUNK"))? as u32;
    let grid = operand(operands, "GRID");
    let jobs = operand(operands, "JOBS");
    Some(Command::Run(RunCommand { grid, jobs, chunk }))
}

fn read_build<'a>(operands: &ArgMatches<'a>) -> Option<Command<'a>>
    ensures value { option_map said result ≡ build_in (rows_of (found_of operands.now)) }
    ensures chunk { IfSome result (λ command. HasChunkSize (said command)) }
{
    let edges = operand(operands, "EDGES");
    let grid = operand(operands, "GRID");
    if edges == grid {
        return None;
    }
    let n = number_between(1, u64::from(MAX_VERTICES), operand(operands, "N"))?;
    let parts = number_between(1, u64::from(MAX_PARTS), operand(operands, "PARTS"))?;
    let shape = Shape::new(n as u32, parts as u32)?;
    Some(Command::Build(BuildCommand { edges, grid, shape }))
}

fn read_info<'a>(operands: &ArgMatches<'a>) -> Option<Command<'a>>
    ensures value { option_map said result ≡ info_in (rows_of (found_of operands.now)) }
    ensures chunk { IfSome result (λ command. HasChunkSize (said command)) }
{
    let chunk = number_between(1, u64::from(MAX_CHUNK_SIZE), operand(operands, "CHUNK"))? as u32;
    let grid = operand(operands, "GRID");
    Some(Command::Info(InfoCommand { grid, chunk }))
}

/// The command of this name. `None` exactly where a number is out of its range, or a build's files are one.
pub(crate) fn read_command<'a>(name: &str, operands: &ArgMatches<'a>) -> Option<Command<'a>>
    ensures value { option_map said result ≡ command_in name.now (rows_of (found_of operands.now)) }
    ensures chunk { IfSome result (λ command. HasChunkSize (said command)) }
{
    match name {
        "run" => read_run(operands),
        "build" => read_build(operands),
        "info" => read_info(operands),
        _ => None,
    }
}
