//! The call of the tools.

ghost use Rattle.std.specs.Prelude.{◌≡◌, false};
ghost use Rattle.gm_words.specs.Commands.{command_of};
ghost use Rattle.gm_commands.specs.Endings.{call_of, outside};
ghost use Rattle.gm_tools.specs.Tools.{is_tool, KeepsToolPromises};

use crate::build_tool::run_build;
use crate::info_tool::run_info;
use gm_base::{Memory, Words};
use gm_commands::{conclude, say_out_of_memory, say_usage};
use gm_outside::{Depot, Sink};
use gm_words::{Command, read_words};
use std::alloc::Global;

/// Does what the words say over the depot's files: `build EDGES GRID N PARTS` makes GRID the grid of the edges that EDGES lists, for N
/// vertices in PARTS ranges, and writes how many edges and blocks it has. The answer is the program's status.
///
/// 0: the grid and the output were written whole. 2: the words are no command of the tools. 3: there is no file EDGES. 4: a line of it is
/// refused. 6: the depot failed. 7: standard output failed. 8: want of memory. From 2 on a line went to `err`, or a first part where `err`
/// failed. No file but GRID changes.
pub fn tool<D: Depot, K: Sink, E: Sink>(
    alloc: Global,
    words: &Words,
    depot: &mut D,
    out: &mut K,
    err: &mut E,
) -> u8
    ensures usage { result ≡ 2 → is_tool (command_of words.now) ≡ false }
    ensures keeps { KeepsToolPromises (call_of words.now (outside (D.state depot.old) (K.state out.old))
        (outside (D.state depot.new) (K.state out.new)) (E.state err.old) (E.state err.new) result) }
{
    match read_words(alloc, words) {
        Ok(Some(Command::Build(build))) => {
            let outcome = run_build(alloc, &build, depot, out);
            conclude(err, &Command::Build(build), outcome)
        }
        Ok(Some(Command::Info(info))) => {
            let outcome = run_info(alloc, &info, depot, out);
            conclude(err, &Command::Info(info), outcome)
        }
        Ok(Some(Command::Run(_)) | None) => {
            say_usage(err);
            2
        }
        Err(Memory) => {
            say_out_of_memory(err);
            8
        }
    }
}
