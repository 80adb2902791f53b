//! Words that are read with ample memory. What they say was worked out by hand from the usage line.

use crate::{Command, read_words};
use gm_base::Words;
use std::test::Fail;

fn words_from(rt: &HostRuntime, texts: &[&str]) -> Result<Words, Fail> {
    let mut words = Words::new(rt.alloc());
    for text in texts {
        words.push(text)?;
    }
    Ok(words)
}

#[test]
fn reads_runs(rt: HostRuntime) -> Result<(), Fail> {
    let rows: [([&str; 5], u32); 6] = [
        (["run", "a.grid", "jobs.txt", "1", "65536"], 65_536),
        (["run", "jobs", "grid", "1", "1"], 1),
        (["run", "a", "a", "01", "007"], 7),
        (["run", "run", "build", "1", "00000000000000000012"], 12),
        (["run", "help", "a-b", "1", "3"], 3),
        (["run", " ", "é", "1", "10"], 10),
    ];
    for (texts, chunk) in rows {
        let words = words_from(&rt, &texts)?;
        let is_expected = match read_words(rt.alloc(), &words) {
            Ok(Some(Command::Run(run))) => {
                run.grid == texts[1] && run.jobs == texts[2] && run.chunk == chunk
            }
            _ => false,
        };
        assert!(rt; is_expected, "{texts:?}");
    }
    Ok(())
}

#[test]
fn reads_builds(rt: HostRuntime) -> Result<(), Fail> {
    let rows: [([&str; 5], u32, u32); 5] = [
        (["build", "e.txt", "a.grid", "4", "2"], 4, 2),
        (["build", "a", "b", "1048576", "64"], 1_048_576, 64),
        (["build", "b", "a", "1", "1"], 1, 1),
        (["build", "build", "info", "64", "064"], 64, 64),
        (["build", "e", "E", "5", "3"], 5, 3),
    ];
    for (texts, n, parts) in rows {
        let words = words_from(&rt, &texts)?;
        let is_expected = match read_words(rt.alloc(), &words) {
            Ok(Some(Command::Build(build))) => {
                let is_named = build.edges == texts[1] && build.grid == texts[2];
                is_named && build.shape.n() == n && build.shape.parts() == parts
            }
            _ => false,
        };
        assert!(rt; is_expected, "{texts:?}");
    }
    Ok(())
}

#[test]
fn reads_infos(rt: HostRuntime) -> Result<(), Fail> {
    let rows: [([&str; 3], &str, u32); 3] = [
        (["info", "a.grid", "65536"], "a.grid", 65_536),
        (["info", "info", "1"], "info", 1),
        (["info", "x=1", "0010"], "x=1", 10),
    ];
    for (texts, grid, chunk) in rows {
        let words = words_from(&rt, &texts)?;
        let is_expected = match read_words(rt.alloc(), &words) {
            Ok(Some(Command::Info(info))) => info.grid == grid && info.chunk == chunk,
            _ => false,
        };
        assert!(rt; is_expected, "{texts:?}");
    }
    Ok(())
}

/// Words that are no command, whatever their numbers are.
const MISSHAPEN: [&[&str]; 23] = [
    &[],
    &[""],
    &["-"],
    &["--"],
    &["-h"],
    &["--help"],
    &["--version"],
    &["help"],
    &["help", "run"],
    &["run"],
    &["run", "--help"],
    &["run", "a", "j", "1"],
    &["run", "a", "j", "1", "1", "1"],
    &["run", "a", "j", "1", "1", ""],
    &["run", "--", "a", "j", "1", "1"],
    &["--", "run", "a", "j", "1", "1"],
    &["ru", "a", "j", "1", "1"],
    &["RUN", "a", "j", "1", "1"],
    &["build", "e", "a", "4"],
    &["build", "e", "a", "4", "2", "1"],
    &["info", "a"],
    &["info", "a", "1", "1"],
    &["drill", "1", "1", "1"],
];

/// A command's name and as many words as it shows, of which one number is out of its range, or two files are one.
const OUT_OF_RANGE: [&[&str]; 21] = [
    &["run", "a", "j", "0", "1"],
    &["run", "a", "j", "2", "1"],
    &["run", "a", "j", "65", "1"],
    &["run", "a", "j", "x", "1"],
    &["run", "a", "j", "1", "0"],
    &["run", "a", "j", "1", "65537"],
    &["run", "a", "j", "1", "000000000000000000001"],
    &["run", "a", "j", "1", "18446744073709551617"],
    &["run", "a", "j", "1", "+1"],
    &["run", "a", "j", "1", "1 "],
    &["build", "e", "a", "0", "1"],
    &["build", "e", "a", "1048577", "1"],
    &["build", "e", "a", "4", "0"],
    &["build", "e", "a", "4", "5"],
    &["build", "e", "a", "65", "65"],
    &["build", "e", "a", "000000000000000000004", "2"],
    &["build", "e", "a", "4", "2.0"],
    &["build", "a", "a", "4", "2"],
    &["info", "a", "0"],
    &["info", "a", "65537"],
    &["info", "1", "a"],
];

#[test]
fn takes_no_other_words(rt: HostRuntime) -> Result<(), Fail> {
    for texts in MISSHAPEN.iter().chain(OUT_OF_RANGE.iter()) {
        let words = words_from(&rt, texts)?;
        assert!(rt;
            matches!(read_words(rt.alloc(), &words), Ok(None)),
            "{texts:?}"
        );
    }
    Ok(())
}

/// The words of each command.
const COMMANDS: [&[&str]; 3] = [
    &["run", "a", "j", "1", "1"],
    &["build", "e", "a", "4", "2"],
    &["info", "a", "1"],
];

/// An empty word, and words that begin as an option does.
const REFUSED: [&str; 6] = ["", "-", "--", "-x", "--help", "-1"];

/// These texts, with another one at this place.
fn words_but_one(
    rt: &HostRuntime,
    texts: &[&str],
    place: usize,
    other: &str,
) -> Result<Words, Fail> {
    let mut words = Words::new(rt.alloc());
    for text in texts {
        words.push(if words.len() == place { other } else { text })?;
    }
    Ok(words)
}

#[test]
fn takes_no_empty_word_and_no_option_at_any_place(rt: HostRuntime) -> Result<(), Fail> {
    for texts in COMMANDS {
        let taken = words_from(&rt, texts)?;
        assert!(rt;
            matches!(read_words(rt.alloc(), &taken), Ok(Some(_))),
            "{texts:?}"
        );
        for place in 0..texts.len() {
            for refused in REFUSED {
                let words = words_but_one(&rt, texts, place, refused)?;
                assert!(rt;
                    matches!(read_words(rt.alloc(), &words), Ok(None)),
                    "{texts:?} {place} {refused:?}"
                );
            }
        }
    }
    Ok(())
}
