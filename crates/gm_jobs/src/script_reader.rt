//! The reader of job texts.

ghost use Rattle.std.specs.Prelude.{◌≡◌, ◌≤◌, ◌<◌, [], Some, Ok, IfOk, IfErr, OnOk, IsTrue};
ghost use Rattle.gm_base.specs.declared.limits.TheConstants.{MAX_CHANGES, MAX_VERTICES};
ghost use Rattle.gm_text.specs.Texts.{words_of};
ghost use Rattle.gm_jobs.specs.declared.limits.TheConstants.{MAX_WAIT};
ghost use Rattle.gm_jobs.specs.JobsErrors.{refusal_of, IsRefusalUnlessMemory, LeavesUnlessMemory};
ghost use Rattle.gm_jobs.specs.LineErrors.{TakesUnlessMemory};
ghost use Rattle.gm_jobs.specs.LineWords.{result_map, at_end, last_number};
ghost use Rattle.gm_jobs.specs.Readers.{IsTallied, takes_changes};
ghost use Rattle.gm_jobs.specs.Scripts.{names_of, is_job, is_update, ends_with, is_in_place, has_room, one_too_many, with_change, with_entry, job_in, entries_with, entries_after_keyword, entries_after, script_of};

use crate::keyword::Keyword;
use crate::line_error::LineError;
use crate::line_words::{LineWords, addition, change, cut, last_number, spec};
use crate::name_set::NameSet;
use crate::{JobsError, Line, MAX_JOBS, MAX_TEXT_BYTES, MAX_WAIT, Script, Why};
use gm_base::{Items, MAX_CHANGES, Memory};
use gm_changes::Change;
use gm_text::{means_something, next_line};
use std::alloc::Global;

/// The last entry gets the change.
fn change_last(lines: &mut Vec<Line>, change: Change) -> Result<(), Memory>
    ensures { OnOk result (lines.new.items ≡ with_change lines.old.items change) }
{
    match lines.last_mut() {
        Some(entry) => entry.add(change),
        None => Ok(()),
    }
}

/// Whether the last entry is a job.
fn ends_with_job(lines: &[Line]) -> bool
    ensures { result ≡ ends_with is_job lines.now }
{
    match lines.last() {
        Some(entry) => entry.is_job(),
        None => false,
    }
}

/// Whether the last entry is an update.
fn ends_with_update(lines: &[Line]) -> bool
    ensures { result ≡ ends_with is_update lines.now }
{
    match lines.last() {
        Some(entry) => entry.is_update(),
        None => false,
    }
}

/// The refusal of a line that begins so and is one too many.
fn one_too_many(keyword: Keyword, line: u32) -> JobsError
    ensures { refusal_of result ≡ Some (one_too_many line keyword) }
{
    match keyword {
        Keyword::Job => JobsError::TooManyJobs { line },
        _ => JobsError::TooManyChanges { line },
    }
}

/// Reads a job text line by line. It keeps the entries, and counts what there may be only so many of.
#[derive(Drop)]
struct ScriptReader<'t> {
    alloc: Global,
    lines: Vec<Line>,
    names: NameSet<'t>,
    jobs: u32,
    changes: u32,
}

impl<'t> ScriptReader<'t> {
    /// A reader that has read nothing yet. It takes no memory yet.
    fn new(alloc: Global) -> ScriptReader<'t>
        ensures tallied { IsTallied result }
        ensures lines { result.lines.items ≡ [] }
    {
        ScriptReader {
            alloc,
            lines: Vec::new(alloc),
            names: NameSet::new(alloc),
            jobs: 0,
            changes: 0,
        }
    }

    /// Whether a line that begins so may stand below the entries so far.
    fn is_in_place(&self, keyword: Keyword) -> bool
        ensures { result ≡ is_in_place self.now.lines.items keyword }
    {
        match keyword {
            Keyword::Job | Keyword::Update | Keyword::Wait => true,
            Keyword::Mutate => ends_with_job(&self.lines),
            Keyword::Add | Keyword::Del => ends_with_update(&self.lines),
        }
    }

    /// Whether one line more that begins so is not one too many.
    fn has_room(&self, keyword: Keyword) -> bool
        requires { IsTallied self.now }
        ensures { result ≡ has_room self.now.lines.items keyword }
    {
        match keyword {
            Keyword::Job => self.jobs < MAX_JOBS,
            Keyword::Wait => true,
            _ => self.changes < MAX_CHANGES,
        }
    }

    /// Takes a `job` line, by the words behind `job`.
    fn take_job(&mut self, mut words: LineWords<'t>, n: u32) -> Result<(), LineError>
        requires tallied { IsTallied self.old }
        requires room { IsTrue (has_room self.old.lines.items Keyword.Job) }
        requires vertices { n ≤ MAX_VERTICES }
        ensures answer { TakesUnlessMemory result self.new.lines.items (result_map (with_entry self.old.lines.items) (job_in n (names_of self.old.lines.items) words.entry)) }
        ensures tallied { OnOk result (IsTallied self.new) }
    {
        let name = self.names.take(self.alloc, words.next()?)?;
        let spec = spec(words, n)?;
        let own = Items::new(self.alloc);
        self.lines.push(Line::Job { name, spec, own })?;
        self.jobs += 1;
        Ok(())
    }

    /// Takes an `update` line.
    fn take_update(&mut self, words: LineWords<'t>) -> Result<(), LineError>
        requires tallied { IsTallied self.old }
        requires room { IsTrue (has_room self.old.lines.items Keyword.Update) }
        ensures answer { TakesUnlessMemory result self.new.lines.items (at_end (with_entry self.old.lines.items (Line.Update [])) words.entry) }
        ensures tallied { OnOk result (IsTallied self.new) }
    {
        words.end()?;
        let batch = Items::new(self.alloc);
        self.lines.push(Line::Update { batch })?;
        self.changes += 1;
        Ok(())
    }

    /// Takes a `wait` line.
    fn take_wait(&mut self, words: LineWords<'t>) -> Result<(), LineError>
        requires tallied { IsTallied self.old }
        ensures answer { TakesUnlessMemory result self.new.lines.items (result_map (λ visits. with_entry self.old.lines.items (Line.Wait visits)) (last_number 0 MAX_WAIT words.entry)) }
        ensures tallied { OnOk result (IsTallied self.new) }
    {
        let visits = last_number(words, 0, MAX_WAIT)?;
        self.lines.push(Line::Wait { visits })?;
        Ok(())
    }

    /// Takes a change of the last entry.
    fn take_change(&mut self, change: Change) -> Result<(), LineError>
        requires tallied { IsTallied self.old }
        requires place { IsTrue (ends_with takes_changes self.old.lines.items) }
        requires room { self.old.changes < MAX_CHANGES }
        ensures lines { OnOk result (self.new.lines.items ≡ with_change self.old.lines.items change) }
        ensures err { IfErr result (λ error. error ≡ LineError.Memory) }
        ensures tallied { OnOk result (IsTallied self.new) }
    {
        change_last(&mut self.lines, change)?;
        self.changes += 1;
        Ok(())
    }

    /// Takes a line that is in place and isn't one too many, by its first word and the words behind it.
    fn take_words(
        &mut self,
        keyword: Keyword,
        words: LineWords<'t>,
        n: u32,
    ) -> Result<(), LineError>
        requires tallied { IsTallied self.old }
        requires place { IsTrue (is_in_place self.old.lines.items keyword) }
        requires room { IsTrue (has_room self.old.lines.items keyword) }
        requires vertices { n ≤ MAX_VERTICES }
        ensures answer { TakesUnlessMemory result self.new.lines.items (entries_with n self.old.lines.items keyword words.entry) }
        ensures tallied { OnOk result (IsTallied self.new) }
    {
        match keyword {
            Keyword::Job => self.take_job(words, n),
            Keyword::Update => self.take_update(words),
            Keyword::Wait => self.take_wait(words),
            Keyword::Mutate => self.take_change(change(words, n)?),
            Keyword::Add => self.take_change(addition(words, n)?),
            Keyword::Del => self.take_change(cut(words, n)?),
        }
    }

    /// Takes a line by its first word and the words behind it: its place is looked at first, then the count, then the words.
    fn take_statement(
        &mut self,
        keyword: Keyword,
        words: LineWords<'t>,
        line: u32,
        n: u32,
    ) -> Result<(), JobsError>
        requires tallied { IsTallied self.old }
        requires vertices { n ≤ MAX_VERTICES }
        ensures answer { LeavesUnlessMemory result self.new.lines.items (entries_after_keyword n line self.old.lines.items words.entry (Some keyword)) }
        ensures tallied { OnOk result (IsTallied self.new) }
    {
        if !self.is_in_place(keyword) {
            return Err(JobsError::BadLine {
                line,
                why: Why::OutOfPlace,
            });
        }
        if !self.has_room(keyword) {
            return Err(one_too_many(keyword, line));
        }
        match self.take_words(keyword, words, n) {
            Ok(()) => Ok(()),
            Err(LineError::Bad(why)) => Err(JobsError::BadLine { line, why }),
            Err(LineError::Memory) => Err(JobsError::Memory),
        }
    }

    /// Takes the line with this number.
    fn take_line(&mut self, text: &'t [u8], line: u32, n: u32) -> Result<(), JobsError>
        requires tallied { IsTallied self.old }
        requires vertices { n ≤ MAX_VERTICES }
        ensures answer { LeavesUnlessMemory result self.new.lines.items (entries_after n line self.old.lines.items (words_of text.now)) }
        ensures tallied { OnOk result (IsTallied self.new) }
    {
        if !means_something(text) {
            return Ok(());
        }
        let mut words = LineWords::of(text);
        let Ok(word) = words.next() else {
            return Ok(());
        };
        match Keyword::of(word) {
            Some(keyword) => self.take_statement(keyword, words, line, n),
            None => Err(JobsError::BadLine {
                line,
                why: Why::UnknownWord,
            }),
        }
    }
}

/// The script of a text over n vertices, 1 to [`gm_base::MAX_VERTICES`], or its first refusal. Any bytes are taken. A text that is
/// longer than [`MAX_TEXT_BYTES`] is refused before any line is looked at. The error is `Memory` where there was no memory.
pub fn read(alloc: Global, text: &[u8], n: u32) -> Result<Script, JobsError>
    requires { (1 ≤ n) × (n ≤ MAX_VERTICES) }
    ensures ok { IfOk result (λ script. script_of n text.now ≡ Ok script) }
    ensures err { IfErr result (λ error. IsRefusalUnlessMemory error (script_of n text.now)) }
{
    if text.len() > MAX_TEXT_BYTES {
        return Err(JobsError::TooLong {
            bytes: text.len() as u64,
        });
    }
    let mut reader = ScriptReader::new(alloc);
    let mut line = 1;
    let mut rest = text;
    while !rest.is_empty() {
        let (front, more) = next_line(rest);
        reader.take_line(front, line, n)?;
        line += 1;
        rest = more;
    }
    Ok(Script::of(reader.lines))
}
