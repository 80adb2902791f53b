//! The words of a line, read from left to right.

ghost use Rattle.std.specs.Prelude.{◌≡◌, ◌≤◌, ◌<◌, ◌^◌, [], ◌∷◌, Ok, Err, MatchResult};
ghost use Rattle.gm_base.specs.declared.limits.TheConstants.{MAX_VERTICES};
ghost use Rattle.gm_text.specs.Texts.{words_of};
ghost use Rattle.gm_jobs.specs.LineWords.{number_between, vertex_of, first_word, end_of, last_number, bound_in, spec_in, addition_in, cut_in, change_in};

use crate::{MAX_ROUNDS, MAX_WEIGHT, Why};
use gm_base::{Edge, Spec, TOP, number};
use gm_changes::Change;
use gm_text::next_word;
use std::marker::Model;

/// The words of a line that weren't read yet.
#[derive(Drop)]
pub struct LineWords<'t> {
    rest: &'t [u8],
}

impl<'t> Model for LineWords<'t> {
    ghost use Rattle.std.specs.Prelude.{ℕ, List};
    ghost use Rattle.gm_text.specs.Texts.{words_of};

    ghost Value = { List (List ℕ) };

    ghost view = { λ a. words_of a.rest.now };
}

/// The number that a word writes, from the least to the most.
fn number_between(word: &[u8], least: u64, most: u64) -> Result<u64, Why>
    ensures { result ≡ number_between least most word.now }
{
    let value = number(word, TOP).ok_or(Why::BadNumber)?;
    if least <= value && value <= most {
        Ok(value)
    } else {
        Err(Why::BadNumber)
    }
}

/// The vertex of a graph of n vertices that a word names.
fn vertex(word: &[u8], n: u32) -> Result<u32, Why>
    ensures { result ≡ vertex_of n word.now }
{
    let vertex = number(word, TOP).ok_or(Why::BadNumber)?;
    if vertex < u64::from(n) {
        Ok(vertex as u32)
    } else {
        Err(Why::NoVertex)
    }
}

impl<'t> LineWords<'t> {
    /// All words of a line.
    pub fn of(line: &'t [u8]) -> LineWords<'t>
        ensures { result ≡ words_of line.now }
    {
        LineWords { rest: line }
    }

    /// The next word. It is refused exactly where there is none.
    pub fn next(&mut self) -> Result<&'t [u8], Why>
        ensures { MatchResult result (λ word. self.old ≡ word.now ∷ self.new) (λ why. (self.old ≡ []) × (why ≡ Why.Short)) }
    {
        match next_word(self.rest) {
            Some((word, rest)) => {
                self.rest = rest;
                Ok(word)
            }
            None => Err(Why::Short),
        }
    }

    /// No further word. It is refused exactly where there is one.
    pub fn end(&self) -> Result<(), Why>
        ensures { result ≡ end_of self.now }
    {
        match next_word(self.rest) {
            Some(_) => Err(Why::Extra),
            None => Ok(()),
        }
    }

    /// The next word as a number, from the least to the most.
    fn number(&mut self, least: u64, most: u64) -> Result<u64, Why>
        ensures { MatchResult result (λ number. first_word (number_between least most) self.old ≡ Ok (number, self.new)) (λ why. first_word (number_between least most) self.old ≡ Err why) }
    {
        number_between(self.next()?, least, most)
    }

    /// The next word as a vertex.
    fn vertex(&mut self, n: u32) -> Result<u32, Why>
        ensures { MatchResult result (λ vertex. first_word (vertex_of n) self.old ≡ Ok (vertex, self.new)) (λ why. first_word (vertex_of n) self.old ≡ Err why) }
    {
        vertex(self.next()?, n)
    }
}

/// A number that the last word writes, from the least to the most.
pub fn last_number(mut words: LineWords, least: u64, most: u64) -> Result<u64, Why>
    ensures { result ≡ last_number least most words.entry }
{
    let number = words.number(least, most)?;
    words.end()?;
    Ok(number)
}

/// The rounds that the last word states.
fn rounds(words: LineWords) -> Result<u32, Why>
    ensures { result ≡ last_number 1 MAX_ROUNDS words.entry }
{
    let rounds = last_number(words, 1, MAX_ROUNDS)?;
    Ok(rounds as u32)
}

/// The bound that the last words state: n + 1 where there are none.
fn bound(mut words: LineWords, n: u32) -> Result<u32, Why>
    requires { n ≤ MAX_VERTICES }
    ensures { result ≡ bound_in n words.entry }
{
    match words.next() {
        Err(_) => Ok(n + 1),
        Ok(b"rounds") => rounds(words),
        Ok(_) => Err(Why::UnknownWord),
    }
}

/// What a job computes, by the words behind its name.
pub fn spec(mut words: LineWords, n: u32) -> Result<Spec, Why>
    requires { n ≤ MAX_VERTICES }
    ensures { result ≡ spec_in n words.entry }
{
    match words.next()? {
        b"bfs" => {
            let source = words.vertex(n)?;
            let bound = bound(words, n)?;
            Ok(Spec::Bfs { source, bound })
        }
        b"sssp" => {
            let source = words.vertex(n)?;
            let bound = bound(words, n)?;
            Ok(Spec::Sssp { source, bound })
        }
        b"wcc" => {
            let bound = bound(words, n)?;
            Ok(Spec::Wcc { bound })
        }
        b"rank" => {
            let rounds = rounds(words)?;
            Ok(Spec::Rank { rounds })
        }
        _ => Err(Why::UnknownWord),
    }
}

/// The edge that the last three words add.
pub fn addition(mut words: LineWords, n: u32) -> Result<Change, Why>
    ensures { result ≡ addition_in n words.entry }
{
    let from = words.vertex(n)?;
    let to = words.vertex(n)?;
    let weight = words.number(0, MAX_WEIGHT)? as u32;
    words.end()?;
    Ok(Change::Add(Edge { from, to, weight }))
}

/// The edges that the last two words cut.
pub fn cut(mut words: LineWords, n: u32) -> Result<Change, Why>
    ensures { result ≡ cut_in n words.entry }
{
    let from = words.vertex(n)?;
    let to = words.vertex(n)?;
    words.end()?;
    Ok(Change::Cut { from, to })
}

/// The change that the words behind `mutate` state.
pub fn change(mut words: LineWords, n: u32) -> Result<Change, Why>
    ensures { result ≡ change_in n words.entry }
{
    match words.next()? {
        b"add" => addition(words, n),
        b"del" => cut(words, n),
        _ => Err(Why::UnknownWord),
    }
}
