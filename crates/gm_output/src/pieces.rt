//! A text on its way into a sink, in pieces.

ghost use Rattle.std.specs.Prelude.{◌≡◌, ◌+◌, ◌≤◌, [], ◌++◌, length, OnErr};
ghost use Rattle.arrayvec.specs.ArrayVec.{array_vec_len};
ghost use Rattle.gm_outside.specs.Frames.{Writes};
ghost use Rattle.gm_output.specs.Pieces.{Feeds, texts_of};

use arrayvec::ArrayVec;
use gm_outside::{Sink, Trouble};
use std::marker::Model;

/// How many bytes one write takes at most.
pub const PIECE: usize = 4096;

/// What of a text isn't written yet. Each write takes [`PIECE`] bytes, the last one what is left.
#[derive(Drop)]
pub struct Pieces {
    pending: ArrayVec<u8, PIECE>,
}

impl Pieces {
    /// Nothing is pending.
    pub fn new() -> Pieces
        ensures { result ≡ [] }
    {
        Pieces {
            pending: ArrayVec::new(),
        }
    }

    /// Adds bytes to the text, and writes a piece where one is full. After a refusal a first part of the text was written, and nothing is
    /// pending.
    pub fn push<K: Sink>(&mut self, sink: &mut K, bytes: &[u8]) -> Result<(), Trouble>
        requires { length bytes.now ≤ PIECE }
        ensures fed { Feeds self.old self.new bytes.now (K.state sink.old) (K.state sink.new) result }
        ensures dropped { OnErr result (self.new ≡ []) }
    {
        let room = PIECE - self.pending.len();
        if bytes.len() <= room {
            extend(&mut self.pending, bytes);
            return Ok(());
        }
        let (front, back) = bytes.split_at(room);
        extend(&mut self.pending, front);
        self.send(sink)?;
        extend(&mut self.pending, back);
        Ok(())
    }

    /// Writes what is pending. Then nothing is, also after a refusal.
    fn send<K: Sink>(&mut self, sink: &mut K) -> Result<(), Trouble>
        ensures writes { Writes self.old (K.state sink.old) (K.state sink.new) result }
        ensures nothing { self.new ≡ [] }
    {
        let written = sink.write(self.pending.as_slice());
        self.pending.clear();
        written
    }

    /// The same for bytes of any length.
    pub fn push_all<K: Sink>(&mut self, sink: &mut K, bytes: &[u8]) -> Result<(), Trouble>
        ensures fed { Feeds self.old self.new bytes.now (K.state sink.old) (K.state sink.new) result }
        ensures dropped { OnErr result (self.new ≡ []) }
    {
        let mut rest = bytes;
        while rest.len() > PIECE {
            let (front, back) = rest.split_at(PIECE);
            self.push(sink, front)?;
            rest = back;
        }
        self.push(sink, rest)
    }

    /// The same for one text after the other.
    fn push_texts<K: Sink>(&mut self, sink: &mut K, texts: &[&[u8]]) -> Result<(), Trouble>
        ensures { Feeds self.old self.new (texts_of texts.now) (K.state sink.old) (K.state sink.new) result }
    {
        for text in texts {
            self.push_all(sink, text)?;
        }
        Ok(())
    }

    /// Writes what is left of the text.
    pub fn finish<K: Sink>(self, sink: &mut K) -> Result<(), Trouble>
        ensures { Writes self (K.state sink.old) (K.state sink.new) result }
    {
        if self.pending.is_empty() {
            return Ok(());
        }
        sink.write(self.pending.as_slice())
    }
}

impl Model for Pieces {
    ghost use Rattle.std.specs.Prelude.{ℕ, List};

    ghost Value = { List ℕ };

    ghost view = { λ a. a.pending.items };
}

/// Writes one text after the other, in one write where they are short. After a refusal a first part of them was written.
pub fn write_texts<K: Sink>(sink: &mut K, texts: &[&[u8]]) -> Result<(), Trouble>
    ensures { Writes (texts_of texts.now) (K.state sink.old) (K.state sink.new) result }
{
    let mut pieces = Pieces::new();
    pieces.push_texts(sink, texts)?;
    pieces.finish(sink)
}

fn extend(pending: &mut ArrayVec<u8, PIECE>, bytes: &[u8])
    requires { array_vec_len pending.old + length bytes.now ≤ PIECE }
    ensures items { pending.new.items ≡ pending.old.items ++ bytes.now }
    ensures len { array_vec_len pending.new ≡ array_vec_len pending.old + length bytes.now }
{
    let extended = pending.try_extend_from_slice(bytes);
    extended.unwrap();
}
