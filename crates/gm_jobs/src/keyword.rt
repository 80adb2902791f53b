//! The words that begin a line.

ghost use Rattle.std.specs.Prelude.{◌≡◌};
ghost use Rattle.gm_jobs.specs.Scripts.{keyword_of, inner_keyword_of};

/// What a line is about, by its first word.
#[derive(Clone, Copy)]
pub enum Keyword {
    /// `job`
    Job,
    /// `update`
    Update,
    /// `wait`
    Wait,
    /// `mutate`
    Mutate,
    /// `add`
    Add,
    /// `del`
    Del,
}

impl Keyword {
    /// The keyword that a word is.
    pub fn of(word: &[u8]) -> Option<Keyword>
        ensures { result ≡ keyword_of word.now }
    {
        if word == b"job".as_slice() {
            Some(Keyword::Job)
        } else if word == b"update".as_slice() {
            Some(Keyword::Update)
        } else if word == b"wait".as_slice() {
            Some(Keyword::Wait)
        } else {
            Keyword::inner(word)
        }
    }

    /// The keyword that a word is, of those whose lines belong to an entry above them.
    fn inner(word: &[u8]) -> Option<Keyword>
        ensures { result ≡ inner_keyword_of word.now }
    {
        if word == b"mutate".as_slice() {
            return Some(Keyword::Mutate);
        }
        match word {
            b"add" => Some(Keyword::Add),
            b"del" => Some(Keyword::Del),
            _ => None,
        }
    }
}
