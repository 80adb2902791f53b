//! Job texts that are read with ample memory. The expected scripts and refusals were worked out by hand from the form of a job text.

use crate::{JobsError, Line, MAX_TEXT_BYTES, Why, read};
use gm_base::{Edge, Spec};
use gm_changes::Change;
use std::alloc::Global;
use std::test::Fail;

const fn edge(from: u32, to: u32, weight: u32) -> Change {
    Change::Add(Edge { from, to, weight })
}

const fn cut(from: u32, to: u32) -> Change {
    Change::Cut { from, to }
}

/// How many vertices there are.
const VERTICES: u32 = 7;

fn is_job(line: &Line, text: &[u8], job: Spec, changes: &[Change]) -> bool {
    match line {
        Line::Job { name, spec, own } => {
            name.as_slice() == text && *spec == job && own.as_slice() == changes
        }
        _ => false,
    }
}

fn is_update(line: &Line, changes: &[Change]) -> bool {
    match line {
        Line::Update { batch } => batch.as_slice() == changes,
        _ => false,
    }
}

fn is_wait(line: &Line, number: u64) -> bool {
    match line {
        Line::Wait { visits } => *visits == number,
        _ => false,
    }
}

/// Why the text is refused, or how many entries it has.
fn outcome(alloc: Global, text: &[u8]) -> Result<usize, JobsError> {
    let script = read(alloc, text, VERTICES)?;
    Ok(script.lines().len())
}

fn bad_line(line: u32, why: Why) -> Result<usize, JobsError> {
    Err(JobsError::BadLine { line, why })
}

/// Every kind of line, in a text with comments, tabs, CR and no last line end.
#[test]
fn reads_every_line(rt: HostRuntime) -> Result<(), Fail> {
    let text: &[u8] =
        b"# all\r\njob a bfs 0\r\n\tmutate add 0 1 7 \n#\n mutate\tdel 2 3\n\nupdate\nadd 3 2 0\n \t#\r\ndel 1 1\njob b.2 rank 5\nwait 3\njob c wcc rounds 9\nupdate";
    let script = read(rt.alloc(), text, VERTICES)?;
    let lines = script.lines();
    assert_eq!(rt; lines.len(), 6);
    let levels = Spec::Bfs {
        source: 0,
        bound: 8,
    };
    assert!(rt;
        is_job(&lines[0], b"a", levels, &[edge(0, 1, 7), cut(2, 3)]),
        "the first job"
    );
    assert!(rt;
        is_update(&lines[1], &[edge(3, 2, 0), cut(1, 1)]),
        "the first update"
    );
    assert!(rt;
        is_job(&lines[2], b"b.2", Spec::Rank { rounds: 5 }, &[]),
        "the second job"
    );
    assert!(rt; is_wait(&lines[3], 3), "the wait");
    assert!(rt;
        is_job(&lines[4], b"c", Spec::Wcc { bound: 9 }, &[]),
        "the third job"
    );
    assert!(rt; is_update(&lines[5], &[]), "the second update");
    Ok(())
}

#[test]
fn counts_entries(rt: HostRuntime) {
    let rows: [(&[u8], usize); 8] = [
        (b"", 0),
        (b"# job a wcc\n\n \t\r\n#", 0),
        (b"wait 1000000000\n#\nwait 0", 2),
        (b"job a sssp 6 rounds 1\njob A wcc rounds 1000000", 2),
        (b"job 01234567890123456789012345678901 rank 1000000", 1),
        (
            b"update\nadd 6 6 4294967295\nadd 00000000000000000003 0 0",
            1,
        ),
        (b"job a wcc\n\n# x\nmutate del 6 0\n", 1),
        (b"job job rank 1\njob wcc wcc", 2),
    ];
    for (text, entries) in rows {
        assert_eq!(rt; outcome(rt.alloc(), text), Ok(entries), "{text:?}");
    }
}

#[test]
fn refuses_lines(rt: HostRuntime) {
    let rows: [(&[u8], u32, Why); 18] = [
        (
            b"job a1\tbfs 1 rounds  1 \n \t#x y\n# job z wcc\njob  z \t\r wcc\r\n mutate\tdel 7\t \njob B2 \t\r bfs",
            5,
            Why::NoVertex,
        ),
        (b"\twait\n\twait 0 \n", 1, Why::Short),
        (
            b"\tjob\tz \t\r rank\t\xd9\xa1\n#\xff\x00\n\twait  1000000000\njob B0 rank  1\t \n",
            1,
            Why::BadNumber,
        ),
        (b"job z wcc\r\njob\tz\tdfs\n", 2, Why::NameTwice),
        (b"job B0  wcc \njob z  rank \nwait\t28 \n", 2, Why::Short),
        (b"job a wcc\nupdate\nmutate del 0 1\n", 3, Why::OutOfPlace),
        (
            b" job z wcc \r\nmutate \t\r at \t\r 1.0 \t\r del 1 1\t \r\n",
            2,
            Why::UnknownWord,
        ),
        (b"job a wcc\nwait 1\nmutate del 0 1\n", 3, Why::OutOfPlace),
        (b"update\njob a wcc\nadd 0 1 1\n", 3, Why::OutOfPlace),
        (b"add x\n", 1, Why::OutOfPlace),
        (b"job a+b wcc\n", 1, Why::BadName),
        (b"job a wcc rounds 0\n", 1, Why::BadNumber),
        (b"job a wcc rounds 1000001\n", 1, Why::BadNumber),
        (b"wait 1000000001\n", 1, Why::BadNumber),
        (b"update\nadd 0 1 4294967296\n", 2, Why::BadNumber),
        (b"update #\njob A rank 3\n", 1, Why::Extra),
        (b"job a rank 2 rounds 3\n", 1, Why::Extra),
        (b"\n\nJob a wcc\nwait\n", 3, Why::UnknownWord),
    ];
    for (text, line, why) in rows {
        assert_eq!(rt; outcome(rt.alloc(), text), bad_line(line, why), "{text:?}");
    }
}

/// 64 jobs are taken, and the 65th is refused at its first word, even where its words are wrong.
#[test]
fn most_jobs(rt: HostRuntime) -> Result<(), Fail> {
    let mut text = Vec::new(rt.alloc());
    for job in 0..64u8 {
        text.extend_from_slice(b"job ")?;
        text.push(b'0' + job / 10)?;
        text.push(b'0' + job % 10)?;
        text.extend_from_slice(b" wcc\n")?;
    }
    assert_eq!(rt; outcome(rt.alloc(), &text), Ok(64));
    text.extend_from_slice(b"#\njob 00 x\njob\n")?;
    let expected = JobsError::TooManyJobs { line: 66 };
    assert_eq!(rt; outcome(rt.alloc(), &text), Err(expected));
    Ok(())
}

/// 65,536 lines of changes are taken, between them `wait` lines, and one more is refused, but a `wait` line isn't.
#[test]
fn most_changes(rt: HostRuntime) -> Result<(), Fail> {
    let mut text = b"update\nwait 1\n".repeat(rt.alloc(), 32_768)?;
    text.extend_from_slice(b"job a wcc\n")?;
    for _ in 0..32_768u32 {
        text.extend_from_slice(b"mutate del 0 0\n")?;
    }
    text.extend_from_slice(b"wait 2\nupdate")?;
    let expected = JobsError::TooManyChanges { line: 98_307 };
    assert_eq!(rt; outcome(rt.alloc(), &text), Err(expected));
    text.truncate(text.len() - 7);
    assert_eq!(rt; outcome(rt.alloc(), &text), Ok(65_538));
    Ok(())
}

/// A wrong line, and a comment that makes the text as long as a job text may be, and one byte longer.
#[test]
fn longest_text(rt: HostRuntime) -> Result<(), Fail> {
    let mut text = Vec::from_slice(rt.alloc(), b"job\n#")?;
    text.resize(MAX_TEXT_BYTES, b'x')?;
    assert_eq!(rt; text.len(), 1_048_576);
    assert_eq!(rt; outcome(rt.alloc(), &text), bad_line(1, Why::Short));
    text.push(b'x')?;
    let expected = JobsError::TooLong { bytes: 1_048_577 };
    assert_eq!(rt; outcome(rt.alloc(), &text), Err(expected));
    Ok(())
}
