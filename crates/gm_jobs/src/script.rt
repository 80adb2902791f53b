//! What a job text says: its entries, in their order.

ghost use Rattle.std.specs.Prelude.{◌≡◌, OnOk};
ghost use Rattle.gm_jobs.specs.Scripts.{is_job, is_update, changed_by};

use gm_base::{Memory, Name, Spec};
use gm_changes::{Change, Changes};
use std::marker::Model;

/// An entry of a script.
#[derive(Drop)]
pub enum Line {
    /// A job, and the changes that it makes to its own view of the graph.
    Job {
        name: Name,
        spec: Spec,
        own: Changes,
    },
    /// An update of the graph, for the jobs below it.
    Update {
        batch: Changes,
    },
    /// What follows is due at so many visits, or when no job runs.
    Wait {
        visits: u64,
    },
}

impl Line {
    pub(crate) fn is_job(&self) -> bool
        ensures { result ≡ is_job self.now }
    {
        matches!(self, Line::Job { .. })
    }

    pub(crate) fn is_update(&self) -> bool
        ensures { result ≡ is_update self.now }
    {
        matches!(self, Line::Update { .. })
    }

    /// Adds the change to those of a job or an update.
    pub(crate) fn add(&mut self, change: Change) -> Result<(), Memory>
        ensures { OnOk result (self.new ≡ changed_by change self.old) }
    {
        match self {
            Line::Job { own, .. } => own.push(change),
            Line::Update { batch } => batch.push(change),
            Line::Wait { .. } => Ok(()),
        }
    }
}

/// The entries of a job text.
#[derive(Drop)]
pub struct Script {
    lines: Vec<Line>,
}

impl Model for Script {
    ghost use Rattle.std.specs.Prelude.{List};
    ghost use Rattle.gm_jobs.specs.declared.script.Line.{Line};

    ghost Value = { List Line };

    ghost view = { λ a. a.lines.items };
}

impl Script {
    /// The script of these entries. It takes no memory.
    pub(crate) fn of(lines: Vec<Line>) -> Script
        ensures { result ≡ lines.items }
    {
        Script { lines }
    }

    /// The entries, in file order.
    pub fn lines(&self) -> &[Line]
        ensures { result.now ≡ self.now }
    {
        self.lines.as_slice()
    }

    /// The entries as a list of their own, in file order. It takes no memory.
    pub fn into_lines(self) -> Vec<Line>
        ensures { result.items ≡ self }
    {
        self.lines
    }
}
