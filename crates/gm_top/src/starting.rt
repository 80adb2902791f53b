//! The program from its arguments to its exit code.

ghost use Rattle.std.specs.Prelude.{◌≡◌, IfOk, drop, map, string_bytes};
ghost use Rattle.std.specs.Vec.Iter.{into_iter_items};
ghost use Rattle.std.specs.Process.{exit_status};
ghost use Rattle.gm_commands.specs.Endings.{call_of, outside};
ghost use Rattle.gm_top.specs.Promises.{argument_words, KeepsPromises};

use crate::top_call::graphm;
use gm_base::{Memory, Words};
use gm_commands::say_out_of_memory;
use gm_outside::{Depot, Gate, Sink};
use std::alloc::Global;
use std::env::Args;
use std::io::{self, ErrorKind};
use std::process::ExitCode;
use std::sync::Arc;

/// The arguments behind the first one, which is the program's name.
fn words_behind_name(alloc: Global, arguments: Args) -> Result<Words, Memory>
    ensures { IfOk result (λ words. words ≡ drop 1 (map string_bytes (into_iter_items arguments))) }
{
    let mut words = Words::new(alloc);
    let mut arguments = arguments;
    let _name = arguments.next();
    while let Some(word) = arguments.next() {
        words.push(word.as_str())?;
    }
    Ok(words)
}

/// The words of the arguments, none where they can't be read as text.
fn gather_words(alloc: Global, arguments: io::Result<Args>) -> Result<Words, Memory>
    ensures { IfOk result (λ words. words ≡ argument_words arguments) }
{
    match arguments {
        Ok(arguments) => words_behind_name(alloc, arguments),
        Err(error) if error.kind() == ErrorKind::OutOfMemory => Err(Memory),
        Err(_) => Ok(Words::new(alloc)),
    }
}

/// Does what the arguments behind the program's name say, as [`graphm`] does. The answer is the exit code, and the depot. Where there is
/// no memory for the words, or for the gate, it is 8, and nothing else happens but the line that says so.
pub fn program<R: AllocGlobal, D: Depot + Send, K: Sink, E: Sink, G: Gate + Send + Sync + Drop>(
    rt: &R,
    arguments: io::Result<Args>,
    depot: D,
    out: &mut K,
    err: &mut E,
    gate: G,
) -> (ExitCode, D)
    ensures { KeepsPromises (call_of (argument_words arguments) (outside (D.state depot) (K.state out.old))
        (outside (D.state result.1) (K.state out.new)) (E.state err.old) (E.state err.new) (exit_status result.0)) }
{
    let words = gather_words(rt.alloc(), arguments);
    let gate = Arc::new(rt.alloc(), gate);
    let (Ok(words), Ok(gate)) = (words, gate) else {
        say_out_of_memory(err);
        return (ExitCode::from(8), depot);
    };
    let (status, depot) = graphm(rt, &words, depot, out, err, gate);
    (ExitCode::from(status), depot)
}
