//! The program from its arguments to its exit code.
use crate::calls::{Ending, PATH, REPORT, USAGE, depot_of};
use gm_fakes::MemSink;
use gm_outside::OpenGate;
use gm_top::program;
use std::env::Args;
use std::io;
use std::process::Abort;
use std::test::Fail;

/// Arguments that are parted by a blank each, and how the program ends.
const ARGUMENTS: [(&str, Ending); 5] = [
    ("graphm run a.grid j.txt 1 1", (0, REPORT, b"")),
    (
        "graphm run a.grid b.txt 1 1",
        (3, b"", b"graphm: b.txt: no such file\n"),
    ),
    ("run a.grid j.txt 1 1", (2, b"", USAGE)),
    ("graphm run a.grid j.txt 1 1 ", (2, b"", USAGE)),
    ("", (2, b"", USAGE)),
];

fn arguments_of(rt: &HostRuntime, words: &str) -> Result<Args, Fail> {
    let mut arguments = Vec::new(rt.alloc());
    for word in words.split(' ') {
        arguments.push(String::from_str(rt.alloc(), word)?)?;
    }
    Ok(arguments.into_iter())
}

/// Calls the program. The answer is how its exit code is shown, and what it wrote.
fn call_program<R: AllocGlobal>(
    rt: &R,
    arguments: io::Result<Args>,
) -> Result<(String, MemSink, MemSink), Fail> {
    let depot = depot_of(rt, PATH, Vec::new(rt.alloc()))?;
    let mut out = MemSink::new(rt.alloc(), Vec::new(rt.alloc()));
    let mut err = MemSink::new(rt.alloc(), Vec::new(rt.alloc()));
    let (code, _depot) = program(rt, arguments, depot, &mut out, &mut err, OpenGate);
    Ok((format!(in rt.alloc(); "{code:?}")?, out, err))
}

/// The program ends so with these arguments.
fn check_program<R: AllocGlobal + Abort>(
    rt: &R,
    arguments: io::Result<Args>,
    ending: Ending,
    case: &str,
) -> Result<(), Fail> {
    let (status, report, line) = ending;
    let (code, out, err) = call_program(rt, arguments)?;
    let expected = format!(in rt.alloc(); "ExitCode(unix_exit_status({status}))")?;
    assert_eq!(rt; code, expected, "{case}");
    assert_eq!(rt; out.written(), report, "{case}");
    assert_eq!(rt; err.written(), line, "{case}");
    Ok(())
}

#[test]
fn the_first_argument_is_no_word(rt: HostRuntime) -> Result<(), Fail> {
    for (words, ending) in ARGUMENTS {
        check_program(&rt, Ok(arguments_of(&rt, words)?), ending, words)?;
    }
    Ok(())
}

/// Arguments that can't be read as text are no words.
#[test]
fn unreadable_arguments_are_no_command(rt: HostRuntime) -> Result<(), Fail> {
    let arguments = Err(io::Error::from(io::ErrorKind::InvalidData));
    check_program(&rt, arguments, (2, b"", USAGE), "unreadable")
}
