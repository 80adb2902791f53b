//! What `clap` is told of the program: its commands, and the words of each.

ghost use Rattle.std.specs.Prelude.{◌≡◌, IfOk, false};
ghost use Rattle.clap.specs.Words.{app_of, rule_of};
ghost use Rattle.clap.specs.declared.builder.command.Command.TheViews.{out-Command};
ghost use Rattle.gm_words.specs.Usage.{build_app, info_app, no_commands, program, required, run_app};

use clap::{Arg, Command};
use std::alloc::{AllocError, Global};

fn required<'a>(alloc: Global, id: &'a str) -> Arg<'a>
    ensures rule { rule_of result ≡ required id.entry.now }
    ensures local { result.global ≡ false }
{
    Arg::new(alloc, id).required(true)
}

fn run_words<'a>(alloc: Global) -> Result<Command<'a>, AllocError>
    ensures { IfOk result (λ it. (app_of it ≡ run_app) × ((out-Command it).has_globals ≡ false)) }
{
    Command::new(alloc, "run")
        .arg(required(alloc, "GRID"))?
        .arg(required(alloc, "JOBS"))?
        .arg(required(alloc, "WORKERS"))?
        .arg(required(alloc, "CHUNK"))
}

fn build_words<'a>(alloc: Global) -> Result<Command<'a>, AllocError>
    ensures { IfOk result (λ it. (app_of it ≡ build_app) × ((out-Command it).has_globals ≡ false)) }
{
    Command::new(alloc, "build")
        .arg(required(alloc, "EDGES"))?
        .arg(required(alloc, "GRID"))?
        .arg(required(alloc, "N"))?
        .arg(required(alloc, "PARTS"))
}

fn info_words<'a>(alloc: Global) -> Result<Command<'a>, AllocError>
    ensures { IfOk result (λ it. (app_of it ≡ info_app) × ((out-Command it).has_globals ≡ false)) }
{
    Command::new(alloc, "info")
        .arg(required(alloc, "GRID"))?
        .arg(required(alloc, "CHUNK"))
}

fn no_commands<'a>(alloc: Global) -> Command<'a>
    ensures { app_of result ≡ no_commands }
{
    Command::new(alloc, "graphm")
        .no_binary_name(true)
        .disable_help_flag(true)
        .disable_help_subcommand(true)
        .disable_version_flag(true)
        .subcommand_required(true)
}

/// The program with its commands. It has no flag, and no help of clap's own.
pub(crate) fn program<'a>(alloc: Global) -> Result<Command<'a>, AllocError>
    ensures { IfOk result (λ it. app_of it ≡ program) }
{
    let run = run_words(alloc)?;
    let build = build_words(alloc)?;
    let info = info_words(alloc)?;
    let with_run = no_commands(alloc).subcommand(run)?;
    let with_build = with_run.subcommand(build)?;
    with_build.subcommand(info)
}
