//! The words of a command line, read as a command.

ghost use Rattle.std.specs.Prelude.{◌≡◌, IfOk, IfSome, map, option_map, string_bytes, true};
ghost use Rattle.std.specs.List.{list_all};
ghost use Rattle.gm_words.specs.Commands.{HasChunkSize, command_of, is_plain, said};

use crate::command::Command;
use crate::operands::read_command;
use crate::usage::program;
use clap::error::ErrorKind;
use gm_base::{Memory, Words};
use std::alloc::Global;

/// Whether a word is neither empty nor an option.
fn is_plain(word: &str) -> bool
    ensures { result ≡ is_plain word.now }
{
    match word.as_bytes() {
        [] => false,
        [first, ..] => *first != b'-',
    }
}

fn are_plain(words: &[String]) -> bool
    ensures { result ≡ list_all is_plain (map string_bytes words.now) }
{
    for word in words {
        if !is_plain(word.as_str()) {
            return false;
        }
    }
    true
}

/// The command that these words say. No refusal of clap's goes further, but for want of memory.
fn parse<'a>(alloc: Global, words: &'a [String]) -> Result<Option<Command<'a>>, Memory>
    requires { list_all is_plain (map string_bytes words.now) ≡ true }
    ensures value { IfOk result (λ it. option_map said it ≡ command_of (map string_bytes words.entry.now)) }
    ensures chunk { IfOk result (λ it. IfSome it (λ command. HasChunkSize (said command))) }
{
    match program(alloc)?.try_get_matches_from(words) {
        Ok(matches) => match matches.subcommand() {
            Some((name, operands)) => Ok(read_command(name, operands)),
            None => Ok(None),
        },
        Err(error) => match error.kind() {
            ErrorKind::OutOfMemory => Err(Memory),
            _ => Ok(None),
        },
    }
}

/// The command that the words say. `None` exactly where they say none. Want of memory may come at any words.
///
/// clap would take an empty word, a lone `-` and what stands behind `--`, so it gets no such word.
pub fn read_words<'a>(alloc: Global, words: &'a Words) -> Result<Option<Command<'a>>, Memory>
    ensures value { IfOk result (λ it. option_map said it ≡ command_of words.entry.now) }
    ensures chunk { IfOk result (λ it. IfSome it (λ command. HasChunkSize (said command))) }
{
    let words = words.as_slice();
    if !are_plain(words) {
        return Ok(None);
    }
    parse(alloc, words)
}
