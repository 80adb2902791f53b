//! The definitions of lines and words, computed on texts that were worked out by hand.

ghost use Rattle.std.specs.Prelude.{◌≡◌, [], ◌∷◌, codes, Some, None};
ghost use Rattle.gm_text.specs.Texts.{lines_of, ended_lines_of, words_of, number_in, statements_of};

/// A line ends with LF or with the text; an empty rest is no line.
pub fn lines_of_texts()
    ensures two { lines_of (codes "a b\n\nc") ≡ codes "a b" ∷ [] ∷ codes "c" ∷ [] }
    ensures ended { lines_of (codes "a\n") ≡ codes "a" ∷ [] }
    ensures nothing { lines_of [] ≡ [] }
    ensures empty { lines_of (codes "\n") ≡ [] ∷ [] }
{}

/// The lines that have ended in a text so far.
pub fn ended_lines_of_texts()
    ensures rest { ended_lines_of (codes "a b\n\nc") ≡ codes "a b" ∷ [] ∷ [] }
    ensures ended { ended_lines_of (codes "a\n") ≡ codes "a" ∷ [] }
    ensures begun { ended_lines_of (codes "a") ≡ [] }
    ensures nothing { ended_lines_of [] ≡ [] }
{}

/// Words are parted by spaces, tabs and CR.
pub fn words_of_lines()
    ensures blanks { words_of (codes " job\t a \r") ≡ codes "job" ∷ codes "a" ∷ [] }
    ensures nothing { words_of (codes " \t\r") ≡ [] }
    ensures number { number_in (codes "007") ≡ Some 7 }
    ensures greatest { number_in (codes "18446744073709551615") ≡ Some 18446744073709551615 }
    ensures too_great { number_in (codes "18446744073709551616") ≡ None }
{}

/// Empty lines and comments mean nothing.
pub fn statements_of_a_text()
    ensures { statements_of (codes "# x\n\n \r\njob a\n#") ≡ (codes "job" ∷ codes "a" ∷ []) ∷ [] }
{}
