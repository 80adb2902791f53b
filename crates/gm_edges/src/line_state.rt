//! One line of an edge list, byte by byte.

ghost use Rattle.std.specs.Prelude.{◌≡◌};
ghost use Rattle.gm_edges.specs.LineStates.{line_at, with_digit, after_digit, after_blank, after_other, line_after, meaning_at_end};

use gm_base::{MAX_DIGITS, TOP};

/// What a line means.
#[derive(Clone, Copy)]
pub(crate) enum Meaning {
    /// It's without a word, or a comment.
    Nothing,
    /// It's an edge, if both ends are vertices.
    Lists { from: u64, to: u64, weight: u32 },
    /// It's none of the forms that a line may have.
    Refused,
}

/// Where in a line a reader is.
#[derive(Clone, Copy)]
pub(crate) enum WordPlace {
    /// In the first word or before it.
    First,
    /// In the second word or before it.
    Second,
    /// In the third word or before it.
    Third,
    /// Behind the third word.
    Full,
    /// In a comment.
    Comment,
    /// In a line that is none of the forms.
    Bad,
}

/// A line so far. The small fields stand side by side: all of it is copied at each byte, and what lies between fields too.
#[derive(Clone, Copy)]
pub(crate) struct LineState {
    pub place: WordPlace,
    /// How many digits the present word has so far: 0 between words.
    pub digits: u8,
    /// The number of the third word, where that has ended.
    pub weight: u32,
    /// The number that the digits of the present word write.
    pub value: u64,
    /// The numbers of the words before.
    pub first: u64,
    pub second: u64,
}

impl LineState {
    /// A line at this place, with no number so far.
    pub fn at(place: WordPlace) -> LineState
        ensures { result ≡ line_at place }
    {
        LineState {
            place,
            digits: 0,
            weight: 0,
            value: 0,
            first: 0,
            second: 0,
        }
    }

    /// The line with one more digit in the present word, while that writes a number.
    fn with_digit(self, digit: u64) -> LineState
        ensures { result ≡ with_digit self digit }
    {
        let is_number = self.value <= TOP / 10 && self.value * 10 <= TOP - digit;
        if !is_number || usize::from(self.digits) >= MAX_DIGITS {
            return LineState::at(WordPlace::Bad);
        }
        LineState {
            digits: self.digits + 1,
            value: self.value * 10 + digit,
            ..self
        }
    }

    fn after_digit(self, digit: u64) -> LineState
        ensures { result ≡ after_digit self.place self digit }
    {
        match self.place {
            WordPlace::First | WordPlace::Second | WordPlace::Third => self.with_digit(digit),
            WordPlace::Full => LineState::at(WordPlace::Bad),
            WordPlace::Comment | WordPlace::Bad => self,
        }
    }

    /// Ends the present word, where there is one.
    fn after_blank(self) -> LineState
        ensures { result ≡ after_blank self }
    {
        if self.digits == 0 {
            return self;
        }
        match self.place {
            WordPlace::First => LineState {
                place: WordPlace::Second,
                digits: 0,
                value: 0,
                first: self.value,
                ..self
            },
            WordPlace::Second => LineState {
                place: WordPlace::Third,
                digits: 0,
                value: 0,
                second: self.value,
                ..self
            },
            WordPlace::Third if self.value <= u64::from(u32::MAX) => LineState {
                place: WordPlace::Full,
                digits: 0,
                value: 0,
                weight: self.value as u32,
                ..self
            },
            WordPlace::Third => LineState::at(WordPlace::Bad),
            WordPlace::Full | WordPlace::Comment | WordPlace::Bad => self,
        }
    }

    fn after_other(self, byte: u8) -> LineState
        ensures { result ≡ after_other self.place self byte }
    {
        match self.place {
            WordPlace::First if self.digits == 0 && byte == b'#' => LineState::at(
                WordPlace::Comment,
            ),
            WordPlace::Comment => self,
            _ => LineState::at(WordPlace::Bad),
        }
    }

    /// The line after a byte that is no line end.
    pub fn after(self, byte: u8) -> LineState
        ensures { result ≡ line_after self byte }
    {
        match byte {
            b'0'..=b'9' => self.after_digit(u64::from(byte - b'0')),
            b' ' | b'\t' | b'\r' => self.after_blank(),
            _ => self.after_other(byte),
        }
    }

    /// What the line means if it ends here.
    pub fn meaning(self) -> Meaning
        ensures { result ≡ meaning_at_end self }
    {
        let line = self.after_blank();
        match line.place {
            WordPlace::First | WordPlace::Comment => Meaning::Nothing,
            WordPlace::Third => Meaning::Lists {
                from: line.first,
                to: line.second,
                weight: 1,
            },
            WordPlace::Full => Meaning::Lists {
                from: line.first,
                to: line.second,
                weight: line.weight,
            },
            WordPlace::Second | WordPlace::Bad => Meaning::Refused,
        }
    }
}
