//! The reader of edge lists.

ghost use Rattle.std.specs.Prelude.{◌≡◌, ◌≤◌, ℕ, List, [], ◌++◌, length, Ok, Err, IfOk, IfErr, MatchResult, IsOk};
ghost use Rattle.gm_base.specs.declared.limits.TheConstants.{MAX_EDGES, MAX_VERTICES};
ghost use Rattle.gm_base.specs.Graph.{IsGraph};
ghost use Rattle.gm_edges.specs.EdgeText.{edge_list_of, ended_edges_of};
ghost use Rattle.gm_edges.specs.EdgeErrors.{IsRefusalUnlessMemory, IsRefusedAs, IsUnlessMemory};
ghost use Rattle.gm_edges.specs.ReaderStates.{HasRead};

use crate::EdgeError;
use crate::scanner::Scanner;
use gm_base::Edges;
use std::alloc::Global;
use std::marker::Model;

/// Reads an edge list that comes in pieces. It keeps the edges and a few numbers of the present line, and nothing of the text.
/// After a refusal it stays refused.
#[derive(Drop)]
pub struct EdgeReader {
    state: Result<Scanner, EdgeError>,
}

impl Model for EdgeReader {
    ghost use Rattle.gm_edges.specs.ReaderStates.{ReaderState};

    ghost Value = { ReaderState };

    ghost view = { λ a. a.state };
}

impl EdgeReader {
    /// A reader that has read nothing yet, for a graph of n vertices. It takes no memory yet.
    pub fn new(alloc: Global, n: u32) -> EdgeReader
        requires some_vertex { 1 ≤ n }
        requires vertices { n ≤ MAX_VERTICES }
        ensures nothing { HasRead n [] result }
        ensures fresh { IsOk result }
    {
        EdgeReader {
            state: Ok(Scanner::new(alloc, n)),
        }
    }

    /// Reads the next piece of the text. It is refused exactly where a line that has ended by then is refused, with the refusal of the
    /// first of them, or where memory runs out. After a refusal each later call is refused in the same way.
    pub fn feed(&mut self, piece: &[u8]) -> Result<(), EdgeError>
        ensures reads { (n : ℕ) (text : List ℕ) → HasRead n text self.old → HasRead n (text ++ piece.now) self.new }
        ensures refused { (n : ℕ) (text : List ℕ) → HasRead n text self.old
            → IsRefusedAs result (ended_edges_of (text ++ piece.now) n) }
        ensures decides { (n : ℕ) (text rest : List ℕ) → HasRead n text self.old
            → IfErr result (λ error. IsRefusalUnlessMemory error (edge_list_of (text ++ piece.now ++ rest) n)) }
        ensures answer { MatchResult result (λ _. IsOk self.new) (λ error. self.new ≡ Err error) }
        ensures stays { IfErr self.old (λ error. (self.new ≡ Err error) × (result ≡ Err error)) }
    {
        let scanner = match &mut self.state {
            Ok(scanner) => scanner,
            Err(error) => return Err(*error),
        };
        let result = scanner.read(piece);
        if let Err(error) = result {
            self.state = Err(error);
        }
        result
    }

    /// The list of edges of the whole text, or its first refusal. Memory may run out at the last line.
    pub fn finish(self) -> Result<Edges, EdgeError>
        ensures answer { (n : ℕ) (text : List ℕ) → HasRead n text self → IsUnlessMemory result (edge_list_of text n) }
        ensures graph { (n : ℕ) (text : List ℕ) → HasRead n text self → IfOk result (IsGraph n) }
        ensures few { (n : ℕ) (text : List ℕ) → HasRead n text self → IfOk result (λ edges. length edges ≤ MAX_EDGES) }
        ensures stays { IfErr self (λ error. result ≡ Err error) }
    {
        self.state?.finish()
    }
}
