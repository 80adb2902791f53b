//! One line of text on the stack.

ghost use Rattle.std.specs.Prelude.{◌≡◌, ◌+◌, ◌≤◌, [], ◌++◌, length, decimal};

use arrayvec::ArrayVec;
use gm_base::{MAX_DIGITS, TOP};
use itoa::Buffer;
use std::marker::Model;

/// How many bytes a line has at most.
pub const MAX_LINE_BYTES: usize = 160;

/// How many decimal digits a number of 128 bits has at most.
pub const MAX_WIDE_DIGITS: usize = 39;

/// The bytes of a line: a text of at most [`MAX_LINE_BYTES`] bytes.
#[derive(Drop)]
pub struct Line {
    bytes: ArrayVec<u8, MAX_LINE_BYTES>,
}

impl Model for Line {
    ghost use Rattle.std.specs.Prelude.{ℕ, List};

    ghost Value = { List ℕ };

    ghost view = { λ a. a.bytes.items };
}

impl Line {
    ghost use Rattle.gm_output.specs.Lines.{value_text};

    /// No bytes.
    pub fn new() -> Line
        ensures { result ≡ [] }
    {
        Line {
            bytes: ArrayVec::new(),
        }
    }

    /// Adds a text.
    pub fn text(&mut self, text: &[u8])
        requires { length self.old + length text.now ≤ MAX_LINE_BYTES }
        ensures { self.new ≡ self.old ++ text.now }
    {
        let extended = self.bytes.try_extend_from_slice(text);
        extended.unwrap();
    }

    /// Adds a number in decimal, at most [`MAX_DIGITS`] digits.
    pub fn number(&mut self, number: u64)
        requires { length self.old + MAX_DIGITS ≤ MAX_LINE_BYTES }
        ensures text { self.new ≡ self.old ++ decimal number }
        ensures short { length self.new ≤ length self.old + MAX_DIGITS }
    {
        let mut buffer = Buffer::new();
        self.text(buffer.format(number).as_bytes());
    }

    /// Adds a number of up to 128 bits in decimal, at most [`MAX_WIDE_DIGITS`] digits.
    pub fn wide_number(&mut self, number: u128)
        requires { length self.old + MAX_WIDE_DIGITS ≤ MAX_LINE_BYTES }
        ensures text { self.new ≡ self.old ++ decimal number }
        ensures short { length self.new ≤ length self.old + MAX_WIDE_DIGITS }
    {
        let mut buffer = Buffer::new();
        self.text(buffer.format(number).as_bytes());
    }

    /// Adds a value, a dash for a vertex that isn't reached.
    pub fn value(&mut self, value: u64)
        requires { length self.old + MAX_DIGITS ≤ MAX_LINE_BYTES }
        ensures text { self.new ≡ self.old ++ value_text value }
        ensures short { length self.new ≤ length self.old + MAX_DIGITS }
    {
        if value == TOP {
            self.text(b"-");
        } else {
            self.number(value);
        }
    }

    /// The bytes.
    pub fn as_slice(&self) -> &[u8]
        ensures { result.now ≡ self.now }
    {
        self.bytes.as_slice()
    }
}
