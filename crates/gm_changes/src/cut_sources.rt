//! The sources of edges that are cut, and which of them a chunk has.

ghost use Rattle.std.specs.Prelude.{◌≡◌, true, List, [], ◌∷◌, ◌++◌, ℕ, IfOk, OnOk};
ghost use Rattle.std.specs.List.{list_any};
ghost use Rattle.gm_changes.specs.declared.change.Change.{Change as AnyChange};
ghost use Rattle.gm_changes.specs.Concerns.{lists};
ghost use Rattle.gm_changes.specs.Sources.{cuts_from, TellsSources};

use crate::Change;
use gm_base::{Memory, Sources};
use std::alloc::Global;
use std::collections::BTreeMap;

/// The source of each cut, with whether the chunk has it. Other sources of the chunk aren't kept: no cut asks for them.
#[derive(Drop)]
pub struct CutSources {
    listed: BTreeMap<u32, bool>,
}

impl CutSources {
    /// The sources of these cuts, for a chunk without sources. Without a cut it takes no memory.
    pub fn of(alloc: Global, changes: &[Change]) -> Result<CutSources, Memory>
        ensures { IfOk result (λ told. TellsSources changes.now [] told) }
    {
        let mut told = CutSources {
            listed: BTreeMap::new(alloc),
        };
        for change in changes {
            told.note(change)?;
        }
        Ok(told)
    }

    /// Notes the source of one more cut.
    fn note(&mut self, change: &Change) -> Result<(), Memory>
        ensures { OnOk result ((changes : List AnyChange) → TellsSources changes [] self.old
            → TellsSources (changes ++ change.now ∷ []) [] self.new) }
    {
        if let Change::Cut { from, .. } = *change {
            self.listed.insert(from, false)?;
        }
        Ok(())
    }

    /// The chunk has this source too.
    pub fn add(&mut self, source: u32)
        ensures { (changes : List AnyChange) (sources : List ℕ) → TellsSources changes sources self.old
            → TellsSources changes (source ∷ sources) self.new }
    {
        if let Some(listed) = self.listed.get_mut(&source) {
            *listed = true;
        }
    }

    /// The chunk has these sources.
    pub fn add_all(&mut self, sources: &Sources)
        ensures { (changes : List AnyChange) → TellsSources changes [] self.old
            → TellsSources changes sources.now self.new }
    {
        if !self.listed.is_empty() {
            for source in sources.as_slice() {
                self.add(*source);
            }
        }
    }

    /// Whether the chunk has the source of a cut.
    pub fn has(&self, source: u32) -> bool
        ensures { (changes : List AnyChange) (sources : List ℕ) → TellsSources changes sources self.now
            → list_any (cuts_from source) changes ≡ true
            → result ≡ lists sources source }
    {
        match self.listed.get(&source) {
            Some(&listed) => listed,
            None => false,
        }
    }
}
