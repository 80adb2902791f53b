//! Lines, words and statements of a text, one after another, as parts of the text itself.

ghost use Rattle.std.specs.Prelude.{◌≡◌, ◌<◌, ◌≤◌, [], ◌∷◌, length, not, MatchOption};
ghost use Rattle.std.specs.List.{position, position_or_len};
ghost use Rattle.gm_text.specs.Texts.{is_line_end, is_blank, lines_of, words_of, begins_comment, means_something, statements_of};

/// Space, tab and CR.
fn is_blank(byte: u8) -> bool
    ensures { result ≡ is_blank byte }
{
    byte == b' ' || byte == b'\t' || byte == b'\r'
}

/// Where the first line end stands.
fn line_end(text: &[u8]) -> Option<usize>
    ensures { result ≡ position is_line_end text.now }
{
    text.iter().position(|&byte| byte == b'\n')
}

/// Where the first byte stands that isn't blank.
fn word_start(line: &[u8]) -> Option<usize>
    ensures { result ≡ position (λ byte. not (is_blank byte)) line.now }
{
    line.iter().position(|&byte| !is_blank(byte))
}

/// Where the first blank stands.
fn word_end(line: &[u8]) -> Option<usize>
    ensures { result ≡ position is_blank line.now }
{
    line.iter().position(|&byte| is_blank(byte))
}

/// How many bytes stand before the first blank.
fn word_length(line: &[u8]) -> usize
    ensures length { result ≡ position_or_len is_blank line.now }
    ensures within { result ≤ length line.now }
{
    word_end(line).unwrap_or(line.len())
}

/// The first line of a text that isn't empty, without its line end, and what follows it.
pub fn next_line(text: &[u8]) -> (&[u8], &[u8])
    requires { 0 < length text.now }
    ensures lines { lines_of text.now ≡ result.0.now ∷ lines_of result.1.now }
    ensures shorter { length result.1.now < length text.now }
{
    match line_end(text) {
        Some(end) => (&text[..end], &text[end + 1..]),
        None => (text, &text[text.len()..]),
    }
}

/// The first word of a line, and what follows it. `None` exactly where there is none.
pub fn next_word(line: &[u8]) -> Option<(&[u8], &[u8])>
    ensures { MatchOption result (words_of line.now ≡ []) (λ word. words_of line.now ≡ word.0.now ∷ words_of word.1.now) }
{
    let (_, word) = line.split_at(word_start(line)?);
    Some(word.split_at(word_length(word)))
}

fn begins_comment(word: &[u8]) -> bool
    ensures { result ≡ begins_comment word.now }
{
    word.first() == Some(&b'#')
}

/// Whether a line has a word, and its first one doesn't begin with `#`.
pub fn means_something(line: &[u8]) -> bool
    ensures { result ≡ means_something (words_of line.now) }
{
    match next_word(line) {
        Some((word, _)) => !begins_comment(word),
        None => false,
    }
}

/// The first line that means something, and the text behind it. `None` exactly where there is none.
pub fn next_statement(text: &[u8]) -> Option<(&[u8], &[u8])>
    ensures { MatchOption result (statements_of text.now ≡ []) (λ line. statements_of text.now ≡ words_of line.0.now ∷ statements_of line.1.now) }
{
    let mut rest = text;
    while !rest.is_empty() {
        let (line, more) = next_line(rest);
        if means_something(line) {
            return Some((line, more));
        }
        rest = more;
    }
    None
}
