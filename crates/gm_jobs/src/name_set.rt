//! The names that are taken.

ghost use Rattle.std.specs.Prelude.{◌≡◌, ℕ, List, [], ◌∷◌, ◌++◌, not, IfOk, OnOk};
ghost use Rattle.std.specs.List.{list_any};
ghost use Rattle.std.specs.Str.{bytes_eq};
ghost use Rattle.gm_jobs.specs.LineErrors.{IsUnlessMemory};
ghost use Rattle.gm_jobs.specs.LineWords.{name_of};
ghost use Rattle.gm_jobs.specs.NameSets.{HasNames};

use crate::Why;
use crate::line_error::LineError;
use gm_base::{Memory, Name, NameError};
use std::alloc::Global;
use std::collections::BTreeSet;

/// Names, as parts of the text that they stand in.
#[derive(Drop)]
pub struct NameSet<'t> {
    names: BTreeSet<&'t [u8], Global>,
}

impl<'t> NameSet<'t> {
    /// No names. It takes no memory yet.
    pub fn new(alloc: Global) -> NameSet<'t>
        ensures { HasNames [] result }
    {
        NameSet {
            names: BTreeSet::new(alloc),
        }
    }

    /// Takes the name. The answer is `false` exactly where it was taken.
    fn insert(&mut self, name: &'t [u8]) -> Result<bool, Memory>
        ensures test { (names : List (List ℕ)) → HasNames names self.old → IfOk result (λ added. added ≡ not (list_any (bytes_eq name.now) names)) }
        ensures names { (names : List (List ℕ)) → HasNames names self.old → OnOk result (HasNames (names ++ name.now ∷ []) self.new) }
    {
        let added = self.names.insert(name)?;
        Ok(added)
    }

    /// Takes the name that a word is. It is refused exactly where the word is no name, or one that was taken.
    pub fn take(&mut self, alloc: Global, word: &'t [u8]) -> Result<Name, LineError>
        ensures answer { (names : List (List ℕ)) → HasNames names self.old → IsUnlessMemory result (name_of names word.now) }
        ensures names { (names : List (List ℕ)) → HasNames names self.old → IfOk result (λ name. HasNames (names ++ name ∷ []) self.new) }
    {
        let name = match Name::new(alloc, word) {
            Ok(name) => name,
            Err(NameError::BadName) => return Err(LineError::Bad(Why::BadName)),
            Err(NameError::Memory) => return Err(LineError::Memory),
        };
        if self.insert(word)? {
            Ok(name)
        } else {
            Err(LineError::Bad(Why::NameTwice))
        }
    }
}
