//! Reading the text of an edge list in pieces.

ghost use Rattle.std.specs.Prelude.{◌≡◌, ◌+◌, ◌*◌, ◌≤◌, ℕ, length, IfOk, IfErr, OnOk, IfSome, Some, vec_len};
ghost use Rattle.std.specs.Int.{div_ceil};
ghost use Rattle.gm_base.specs.declared.limits.TheConstants.{MAX_EDGES, MAX_VERTICES};
ghost use Rattle.gm_base.specs.Graph.{IsGraph};
ghost use Rattle.gm_outside.specs.declared.traits.TheConstants.{MAX_COUNT};
ghost use Rattle.gm_outside.specs.Files.{size_of};
ghost use Rattle.gm_outside.specs.Frames.{OnlyReads};
ghost use Rattle.gm_commands.specs.Readings.{DepotServed, IsReadingFailure, IsUnrefusedBefore, ReadsFiles, rest_of_reading};
ghost use Rattle.gm_tools.specs.EdgeReadings.{failure_of, edges_reading, ListsEdges, HasReadFront, AreLinesTaken, ReadsInPieces};

use gm_base::Edges;
use gm_commands::{Failure, Operand, Refusal, file_size};
use gm_edges::{EdgeError, EdgeReader};
use gm_outside::Depot;
use std::alloc::{AllocError, Global};

/// How many bytes of the text are read at once.
pub const TEXT_PIECE: usize = 65_536;

/// The failure of a call on the file of edges.
const READ_FAILED: Failure = Failure::ReadFailed(Operand::Edges);

/// The failure that a reader's error is.
fn failure_of(error: EdgeError) -> Failure
    ensures { result ≡ failure_of error }
{
    match error.refusal() {
        Some(refusal) => Failure::Refused(Refusal::EdgeList(refusal)),
        None => Failure::OutOfMemory,
    }
}

/// Reads the next bytes of the text, as many as `into` takes.
fn read_piece<D: Depot>(
    depot: &mut D,
    name: &str,
    pos: u64,
    into: &mut [u8],
    reader: &mut EdgeReader,
) -> Result<(), Failure>
    ensures front { (n size : ℕ) → HasReadFront n (D.state depot.old).files name.now size pos reader.old
        → OnOk result (HasReadFront n (D.state depot.old).files name.now size (pos + length into.old)
        reader.new) }
    ensures lines { (n size : ℕ) → HasReadFront n (D.state depot.old).files name.now size pos reader.old
        → OnOk result (AreLinesTaken n (D.state depot.old).files name.now (pos + length into.old)) }
    ensures err { (n size : ℕ) → HasReadFront n (D.state depot.old).files name.now size pos reader.old
        → pos + length into.old ≤ size
        → IfErr result (IsReadingFailure (rest_of_reading (edges_reading n name.now))
        (D.state depot.old) (D.state depot.new)) }
    ensures served { OnOk result (DepotServed (D.state depot.old) (D.state depot.new)) }
    ensures frame { OnlyReads 0 1 (D.state depot.old) (D.state depot.new) }
{
    match depot.read_at(name, pos, into) {
        Ok(()) => {}
        Err(trouble) => return Err(READ_FAILED.by(trouble)),
    }
    match reader.feed(into) {
        Ok(()) => Ok(()),
        Err(error) => Err(failure_of(error)),
    }
}

/// Reads the whole text into a reader, piece by piece, up to the first refused line.
fn read_text<D: Depot>(
    alloc: Global,
    depot: &mut D,
    name: &str,
    size: u64,
    n: u32,
    buffer: &mut [u8],
) -> Result<EdgeReader, Failure>
    requires room { length buffer.old ≡ TEXT_PIECE }
    requires some_vertex { 1 ≤ n }
    requires vertices { n ≤ MAX_VERTICES }
    requires size { IfSome (D.state depot.old).files (λ files. Some size ≡ size_of files name.now) }
    ensures front { IfOk result (λ reader.
        HasReadFront n (D.state depot.old).files name.now size size reader) }
    ensures served { OnOk result (DepotServed (D.state depot.old) (D.state depot.new)) }
    ensures err { IfErr result (IsReadingFailure (rest_of_reading (edges_reading n name.now))
        (D.state depot.old) (D.state depot.new)) }
    ensures unrefused { IsUnrefusedBefore (edges_reading n name.now)
        (D.state depot.old) (D.state depot.new) Operand.Edges }
    ensures frame { OnlyReads 0 (div_ceil size TEXT_PIECE) (D.state depot.old) (D.state depot.new) }
{
    let mut reader = EdgeReader::new(alloc, n);
    for index in 0..size.div_ceil(TEXT_PIECE as u64) {
        let pos = index * TEXT_PIECE as u64;
        let count = (size - pos).min(TEXT_PIECE as u64);
        read_piece(depot, name, pos, &mut buffer[..count as usize], &mut reader)?;
    }
    Ok(reader)
}

/// The edges that the text of a file lists, for a graph of n vertices.
pub(crate) fn list_edges<D: Depot>(
    alloc: Global,
    depot: &mut D,
    name: &str,
    n: u32,
) -> Result<Edges, Failure>
    requires some_vertex { 1 ≤ n }
    requires vertices { n ≤ MAX_VERTICES }
    ensures lists { IfSome (D.state depot.old).files (λ files.
        IfOk result (λ edges. ListsEdges files name.now n edges)) }
    ensures graph { IfOk result (λ edges. IsGraph n edges) }
    ensures few { IfOk result (λ edges. length edges ≤ MAX_EDGES) }
    ensures frame { OnlyReads 1 MAX_COUNT (D.state depot.old) (D.state depot.new) }
    ensures reads { ReadsFiles 1 MAX_COUNT (edges_reading n name.now)
        (D.state depot.old) (D.state depot.new) result }
    ensures pieces { (status : ℕ) → ReadsInPieces n name.now (D.state depot.old) (D.state depot.new) status }
{
    let size = file_size(depot, name, Operand::Edges)?;
    let mut buffer = zeros(alloc, TEXT_PIECE)?;
    let reader = read_text(alloc, depot, name, size, n, &mut buffer)?;
    match reader.finish() {
        Ok(edges) => Ok(edges),
        Err(error) => Err(failure_of(error)),
    }
}

/// So many zeros, as room for a piece.
fn zeros(alloc: Global, count: usize) -> Result<Vec<u8>, AllocError>
    ensures { IfOk result (λ zeros. vec_len zeros ≡ count) }
{
    vec![in alloc; 0; count]
}
