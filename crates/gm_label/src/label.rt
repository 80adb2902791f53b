//! Labels of chunks.

ghost use Rattle.std.specs.Prelude.{◌≡◌, ◌==◌, ◌+◌, ◌<◌, ◌≤◌, ◌^◌, ◌++◌, ◌≢◌, ℕ, List, [], length, slice_index, map, take, IfOk, OnOk, OnErr};
ghost use Rattle.std.specs.List.{list_any};
ghost use Rattle.std.specs.List.Sorted.{IsNonDecreasing};
ghost use Rattle.gm_base.specs.declared.limits.TheConstants.{MAX_EDGES};
ghost use Rattle.gm_label.specs.Labels.{label_of, label_of_sources, sources_of, AscendsFrom, IsLabel};

use gm_base::{Edge, Memory};
use std::alloc::Global;
use std::marker::Model;

/// A label that a catalogue can take over into its own list of pairs.
pub trait ChunkLabel {
    /// The label's pairs.
    ghost pairs: { Self → List (ℕ × ℕ) };

    /// Adds the pairs at the end of the list. A refusal leaves it as it was.
    fn append_to(&self, list: &mut Vec<(u32, u32)>) -> Result<(), Memory>
        ensures ok { OnOk result (list.new.items ≡ list.old.items ++ pairs self.now) }
        ensures err { OnErr result (list.new.items ≡ list.old.items) };
}

/// The label of a chunk: its sources, ascending, each with the number of its edges. Contracts see the list of the pairs.
#[derive(Drop)]
pub struct Label {
    pairs: Vec<(u32, u32)>,
}

impl Model for Label {
    ghost use Rattle.std.specs.Prelude.{ℕ, List};
    ghost use Rattle.gm_label.specs.Labels.{IsLabel};

    ghost Value = { List (ℕ × ℕ) };

    ghost view = { λ a. a.pairs.items };

    ghost invariant = { λ a. IsLabel a.pairs.items };
}

impl Label {
    /// The label of these edges.
    pub fn of(alloc: Global, edges: &[Edge]) -> Result<Label, Memory>
        requires { length edges.now ≤ MAX_EDGES }
        ensures { IfOk result (λ label. label ≡ label_of edges.now) }
    {
        let mut sources = Vec::new(alloc);
        let mut pairs = Vec::new(alloc);
        label_by_sorting(edges, &mut sources, &mut pairs)?;
        Ok(Label { pairs })
    }

    /// A label of these pairs.
    pub fn from_slice(alloc: Global, pairs: &[(u32, u32)]) -> Result<Label, Memory>
        requires { IsLabel pairs.now }
        ensures { IfOk result (λ label. label ≡ pairs.now) }
    {
        let mut copied = Vec::new(alloc);
        copied.extend_from_slice(pairs)?;
        Ok(Label { pairs: copied })
    }

    /// The pairs, by source.
    pub fn as_slice(&self) -> &[(u32, u32)]
        ensures value { result.now ≡ self.now }
        ensures is_label { IsLabel self.now }
    {
        self.pairs.as_slice()
    }

    /// How many sources it has.
    pub fn len(&self) -> usize
        ensures { result ≡ length self.now }
    {
        self.pairs.len()
    }

    /// Whether it has none.
    pub fn is_empty(&self) -> bool
        ensures { result ≡ (length self.now == 0) }
    {
        self.pairs.is_empty()
    }
}

impl ChunkLabel for Label {
    ghost pairs = { λ label. label };

    fn append_to(&self, list: &mut Vec<(u32, u32)>) -> Result<(), Memory> {
        list.extend_from_slice(self.pairs.as_slice())?;
        Ok(())
    }
}

/// Makes the label of these edges by sorting their sources. The lists are emptied before; their room is used again.
pub(crate) fn label_by_sorting(
    edges: &[Edge],
    sources: &mut Vec<u32>,
    pairs: &mut Vec<(u32, u32)>,
) -> Result<(), Memory>
    requires { length edges.now ≤ MAX_EDGES }
    ensures { OnOk result (pairs.new.items ≡ label_of edges.now) }
{
    pairs.clear();
    if let [edge] = edges {
        pairs.push((edge.from, 1))?;
        return Ok(());
    }
    sources.clear();
    sources.reserve_exact(edges.len())?;
    for edge in edges {
        sources.push(edge.from)?;
    }
    sources.sort_unstable();
    push_runs(sources.as_slice(), pairs)
}

/// How many of them are this source before another one comes.
fn run_length(sources: &[u32], source: u32) -> usize
    ensures within { result ≤ length sources.now }
    ensures same { (k : ℕ) → k < result → slice_index sources.now k ≡ source }
    ensures other { result < length sources.now → slice_index sources.now result ≢ source }
{
    for (at, &other) in sources.iter().enumerate() {
        if other != source {
            return at;
        }
    }
    sources.len()
}

/// Adds the label of ascending sources.
fn push_runs(sources: &[u32], pairs: &mut Vec<(u32, u32)>) -> Result<(), Memory>
    requires ascending { IsNonDecreasing sources.now }
    requires few { length sources.now ≤ MAX_EDGES }
    ensures { OnOk result (pairs.new.items ≡ pairs.old.items ++ label_of_sources sources.now) }
{
    let mut at = 0;
    while at < sources.len() {
        let source = sources[at];
        let run = run_length(&sources[at..], source);
        pairs.push((source, run as u32))?;
        at += run;
    }
    Ok(())
}

/// Whether an ascending label has a source.
pub(crate) fn lists(label: &[(u32, u32)], source: u32) -> bool
    requires { IsLabel label.now }
    ensures { result ≡ list_any (λ s. s == source) (sources_of label.now) }
{
    label.binary_search_by_key(&source, |pair| pair.0).is_ok()
}
