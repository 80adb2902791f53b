//! Laws of a file and its catalogue.

ghost use Rattle.std.specs.Prelude.{◌≡◌, ◌≤◌, ℕ, List, length, sum_by, None};
ghost use Rattle.gm_base.specs.declared.limits.TheConstants.{MAX_EDGES};
ghost use Rattle.gm_base.specs.Dimensions.{AreDimensions};
ghost use Rattle.gm_base.specs.Graph.{IsGraph};
ghost use Rattle.gm_grid.specs.GridBytes.{edges_in};
ghost use Rattle.gm_grid.specs.GridRefusals.{grid_refusal};
ghost use Rattle.gm_label.specs.Catalogues.{Catalogue, IsOver};
ghost use Rattle.gm_source.specs.Openings.{IsCatalogueOf};

use gm_grid::laws::{grid_reads_back, refused_where_no_grid};

/// A law: a file that has a catalogue isn't refused, and the chunks count all of its edges.
pub fn catalogued_files_are_grids()
    ensures taken { (bytes : List ℕ) (size : ℕ) (cat : Catalogue) → IsCatalogueOf bytes size cat
        → grid_refusal size bytes ≡ None }
    ensures edges { (bytes : List ℕ) (size : ℕ) (cat : Catalogue) → IsCatalogueOf bytes size cat
        → sum_by (λ place. place.count) cat.places ≡ length (edges_in bytes) }
{
    grid_reads_back();
    refused_where_no_grid();
}

/// A law: a file's catalogue is over the file's edges. They are a graph of its vertices, and no more than a grid may have.
pub fn catalogues_are_over_their_edges()
    ensures over { (bytes : List ℕ) (size : ℕ) (cat : Catalogue) → IsCatalogueOf bytes size cat
        → IsOver cat (edges_in bytes) }
    ensures graph { (bytes : List ℕ) (size : ℕ) (cat : Catalogue) → IsCatalogueOf bytes size cat
        → IsGraph cat.dimensions.n (edges_in bytes) }
    ensures few { (bytes : List ℕ) (size : ℕ) (cat : Catalogue) → IsCatalogueOf bytes size cat
        → length (edges_in bytes) ≤ MAX_EDGES }
    ensures dimensions { (bytes : List ℕ) (size : ℕ) (cat : Catalogue) → IsCatalogueOf bytes size cat
        → AreDimensions cat.dimensions.n cat.dimensions.parts }
{
    grid_reads_back();
}
