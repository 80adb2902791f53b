//! The labels of all chunks, in one list.

ghost use Rattle.std.specs.Prelude.{◌≡◌, ◌+◌, ◌-◌, ◌<◌, ◌≤◌, [], length, sum_by, slice_set, slice_index_or, replicate, max, vec_len, vec_capacity, IfOk, OnOk, OnErr};
ghost use Rattle.gm_base.specs.declared.limits.TheConstants.{MAX_EDGES};
ghost use Rattle.gm_label.specs.Stored.{LabelTable};

use crate::label::ChunkLabel;
use gm_base::Memory;
use std::alloc::Global;
use std::marker::Model;

/// Where a chunk's label stands among all pairs.
#[derive(Clone, Copy)]
pub struct Span {
    pub start: u32,
    pub count: u32,
}

/// The labels of all chunks: their pairs one behind the other, and where each label stands among them. Contracts see them as
/// lists, beside how many pairs may still come.
#[derive(Drop)]
pub struct Labels {
    pairs: Vec<(u32, u32)>,
    spans: Vec<Span>,
    left: u32,
}

impl Model for Labels {
    ghost use Rattle.std.specs.Prelude.{map};
    ghost use Rattle.gm_label.specs.Stored.{LabelTable, stretch, AreStretches};

    ghost Value = { LabelTable };

    ghost view = { λ a. record { lists = map (stretch a.pairs.items) a.spans.items; left = a.left } };

    ghost invariant = { λ a. AreStretches a.pairs.items a.spans.items a.left };
}

/// Takes room for so many more pairs where it is missing: for as many as there are, but not for more than may still come.
fn make_room(pairs: &mut Vec<(u32, u32)>, more: u32, left: u32) -> Result<(), Memory>
    requires { more ≤ left }
    ensures items { pairs.new.items ≡ pairs.old.items }
    ensures fits { OnOk result (vec_len pairs.new + more ≤ vec_capacity pairs.new) }
    ensures most { vec_capacity pairs.new ≤ max (vec_capacity pairs.old) (vec_len pairs.old + left) }
{
    if pairs.capacity() - pairs.len() < more as usize {
        let growth = pairs.len().min(left as usize).max(more as usize);
        pairs.reserve_exact(growth)?;
    }
    Ok(())
}

impl Labels {
    /// So many labels without a source, and room for none yet. At most so many pairs come.
    pub fn empty(alloc: Global, chunks: usize, left: u32) -> Result<Labels, Memory>
        requires { left ≤ MAX_EDGES }
        ensures { IfOk result (λ labels. labels ≡ record { lists = replicate chunks []; left = left }) }
    {
        let mut spans = Vec::new(alloc);
        spans.resize(chunks, Span { start: 0, count: 0 })?;
        Ok(Labels {
            pairs: Vec::new(alloc),
            spans,
            left,
        })
    }

    /// How many pairs all labels have.
    pub fn pairs(&self) -> usize
        ensures { result ≡ sum_by (λ label. length label) self.now.lists }
    {
        self.pairs.len()
    }

    /// The label of a chunk.
    pub fn get(&self, chunk: usize) -> &[(u32, u32)]
        requires { chunk < length self.now.lists }
        ensures { result.now ≡ slice_index_or self.now.lists chunk [] }
    {
        let span = self.spans[chunk];
        let start = span.start as usize;
        &self.pairs[start..start + span.count as usize]
    }

    /// Gives a chunk of so many edges its label. A refusal changes nothing.
    pub fn set<L: ChunkLabel>(&mut self, chunk: usize, label: &L, edges: u32) -> Result<(), Memory>
        requires within { chunk < length self.old.lists }
        requires fresh { slice_index_or self.old.lists chunk [] ≡ [] }
        requires few { length (L.pairs label.now) ≤ edges }
        requires left { edges ≤ self.old.left }
        ensures ok { OnOk result (self.new ≡ record { lists = slice_set self.old.lists chunk (L.pairs label.now); left = self.old.left - edges }) }
        ensures err { OnErr result (self.new ≡ self.old) }
    {
        let start = self.pairs.len();
        make_room(&mut self.pairs, edges, self.left)?;
        label.append_to(&mut self.pairs)?;
        self.spans[chunk] = Span {
            start: start as u32,
            count: (self.pairs.len() - start) as u32,
        };
        self.left -= edges;
        Ok(())
    }
}
