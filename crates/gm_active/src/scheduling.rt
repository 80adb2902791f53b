//! Which chunks a job needs: GridGraph's selective scheduling, chunk by chunk.

ghost use Rattle.std.specs.Prelude.{◌≡◌, ◌&&◌, ◌||◌, ◌*◌, ◌<◌, ◌≤◌, ℕ, length, All};
ghost use Rattle.std.specs.List.{list_any};
ghost use Rattle.gm_label.specs.Catalogues.{sources_at, AreChunksOf};
ghost use Rattle.gm_label.specs.Overlays.{added_at, AreOverlays};
ghost use Rattle.gm_active.specs.Bits.{is_in};
ghost use Rattle.gm_active.specs.Needs.{has_source, is_column_active, needed_chunks_under, counted_chunks_under};
ghost use Rattle.gm_active.specs.Adding.{AreMarksOver, with_all, between, is_needed_for};

use crate::active::Active;
use crate::chunk_set::ChunkSet;
use gm_label::{Catalogue, Overlay, Overlays};
use std::ops::Range;

/// Whether a vertex of a block's column is active and counts: the kernel goes both ways, and one of the destinations that edges of
/// the block may have is active.
fn is_column_active(cat: &Catalogue, active: &Active, two_way: bool, block: u32) -> bool
    requires vertices { length active.now ≡ cat.now.dimensions.n }
    ensures { result ≡ is_column_active cat.now.dimensions two_way (is_in active.now) block }
{
    let shape = cat.shape();
    let first = block % shape.parts() * shape.width();
    let end = (first + shape.width()).min(shape.n());
    two_way && active.any(first, end)
}

/// Whether one of the sources of a label is active. It looks no further than the first one.
fn has_active_source(label: &[(u32, u32)], active: &Active) -> bool
    requires { All (λ pair. pair.0 < length active.now) label.now }
    ensures { result ≡ list_any (λ pair. is_in active.now pair.0) label.now }
{
    label.iter().any(|pair| active.has(pair.0))
}

/// Adds those of these chunks that have a source.
fn add_with_source(cat: &Catalogue, chunks: Range<u32>, into: &mut ChunkSet)
    requires chunks { length into.old ≡ length cat.now.places }
    requires end { chunks.end ≤ length cat.now.places }
    ensures { into.new
        ≡ with_all into.old (between chunks.start chunks.end (λ c. has_source (sources_at cat.now c))) }
{
    for c in chunks.start..chunks.end {
        if !cat.label(c).is_empty() {
            into.add(c);
        }
    }
}

/// Adds those of these chunks of which a source is active.
fn add_with_active_source(cat: &Catalogue, active: &Active, chunks: Range<u32>, into: &mut ChunkSet)
    requires marks { AreMarksOver cat.now active.now into.old }
    requires end { chunks.end ≤ length cat.now.places }
    ensures { into.new
        ≡ with_all into.old
        (between chunks.start chunks.end (λ c. list_any (is_in active.now) (sources_at cat.now c))) }
{
    for c in chunks.start..chunks.end {
        if has_active_source(cat.label(c), active) {
            into.add(c);
        }
    }
}

/// Adds the chunks that are needed for their labels, of a block's chunks. A block whose row, and for a two-way kernel whose column,
/// has no active vertex is passed over.
fn add_of_block(
    cat: &Catalogue,
    active: &Active,
    two_way: bool,
    block: u32,
    chunks: Range<u32>,
    into: &mut ChunkSet,
)
    requires block { block < cat.now.dimensions.parts * cat.now.dimensions.parts }
    requires chunks { AreChunksOf cat.now block chunks.start chunks.end }
    requires marks { AreMarksOver cat.now active.now into.old }
    ensures { into.new
        ≡ with_all into.old
        (between chunks.start chunks.end
        (λ c. is_needed_for cat.now two_way active.now c (sources_at cat.now c))) }
{
    if is_column_active(cat, active, two_way, block) {
        add_with_source(cat, chunks, into);
    } else if active.any(cat.first_source(block), cat.end_source(block)) {
        add_with_active_source(cat, active, chunks, into);
    }
}

/// Adds the chunks that are needed for their labels, block by block.
fn add_by_labels(cat: &Catalogue, active: &Active, two_way: bool, into: &mut ChunkSet)
    requires marks { AreMarksOver cat.now active.now into.old }
    ensures { into.new
        ≡ with_all into.old (λ c. is_needed_for cat.now two_way active.now c (sources_at cat.now c)) }
{
    let chunks = cat.chunks();
    let mut at = 0;
    while at < chunks {
        let block = cat.chunk(at).block;
        let of_block = cat.chunks_of(block);
        let end = of_block.end;
        add_of_block(cat, active, two_way, block, of_block, into);
        at = end;
    }
}

/// Whether the column of a block is active and counts, where this is known of another block, or of the same one.
fn column_beside(
    cat: &Catalogue,
    active: &Active,
    two_way: bool,
    block: u32,
    known: (u32, bool),
) -> bool
    requires vertices { length active.now ≡ cat.now.dimensions.n }
    requires known { known.1 ≡ is_column_active cat.now.dimensions two_way (is_in active.now) known.0 }
    ensures { result ≡ is_column_active cat.now.dimensions two_way (is_in active.now) block }
{
    if block == known.0 {
        known.1
    } else {
        is_column_active(cat, active, two_way, block)
    }
}

/// Whether one of the sources is active. It looks no further than the first one.
fn is_one_active(sources: &[u32], active: &Active) -> bool
    requires { All (λ source. source < length active.now) sources.now }
    ensures { result ≡ list_any (is_in active.now) sources.now }
{
    sources.iter().any(|&source| active.has(source))
}

/// Whether a chunk is needed for the sources that are added to it, where the column of its block is active or isn't.
fn needs_added(added: &[u32], active: &Active, column: bool) -> bool
    requires { All (λ source. source < length active.now) added.now }
    ensures { result ≡ (has_source added.now && (list_any (is_in active.now) added.now || column)) }
{
    if column {
        !added.is_empty()
    } else {
        is_one_active(added, active)
    }
}

/// Adds the chunks that are needed for the sources that overlays add. Of the blocks of such chunks each is looked at once.
fn add_by_overlays(
    cat: &Catalogue,
    overlays: &[Overlay],
    active: &Active,
    two_way: bool,
    into: &mut ChunkSet,
)
    requires marks { AreMarksOver cat.now active.now into.old }
    requires overlays { AreOverlays cat.now overlays.now }
    ensures { into.new
        ≡ with_all into.old (λ c. is_needed_for cat.now two_way active.now c (added_at overlays.now c)) }
{
    let mut known = (0, is_column_active(cat, active, two_way, 0));
    for overlay in overlays {
        let chunk = overlay.key.chunk;
        let block = cat.chunk(chunk).block;
        let column = column_beside(cat, active, two_way, block, known);
        known = (block, column);
        if needs_added(overlay.added.as_slice(), active, column) {
            into.add(chunk);
        }
    }
}

/// Adds the chunks to which overlays add a source.
fn add_with_added(cat: &Catalogue, overlays: &[Overlay], into: &mut ChunkSet)
    requires chunks { length into.old ≡ length cat.now.places }
    requires overlays { AreOverlays cat.now overlays.now }
    ensures { into.new ≡ with_all into.old (λ c. has_source (added_at overlays.now c)) }
{
    for overlay in overlays {
        if !overlay.added.is_empty() {
            into.add(overlay.key.chunk);
        }
    }
}

/// Makes `into` the chunks that a job needs in a round with these active vertices: those with a source of which one is active, or,
/// for a two-way kernel, in whose block's column a vertex is active. It takes no memory.
pub fn owed(
    cat: &Catalogue,
    overlays: &Overlays,
    active: &Active,
    two_way: bool,
    into: &mut ChunkSet,
)
    requires vertices { length active.now ≡ cat.now.dimensions.n }
    requires chunks { length into.old ≡ length cat.now.places }
    requires overlays { AreOverlays cat.now overlays.now }
    ensures { into.new ≡ needed_chunks_under cat.now overlays.now two_way (is_in active.now) }
{
    into.clear();
    add_by_labels(cat, active, two_way, into);
    add_by_overlays(cat, overlays.as_slice(), active, two_way, into);
}

/// Makes `into` the chunks that a job needs where it counts out-degrees: those with a source. It takes no memory.
pub fn owed_in_counting(cat: &Catalogue, overlays: &Overlays, into: &mut ChunkSet)
    requires chunks { length into.old ≡ length cat.now.places }
    requires overlays { AreOverlays cat.now overlays.now }
    ensures { into.new ≡ counted_chunks_under cat.now overlays.now }
{
    into.clear();
    add_with_source(cat, 0..cat.chunks(), into);
    add_with_added(cat, overlays.as_slice(), into);
}
