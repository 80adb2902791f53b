//! The greatest sizes that are taken, and the value that stands for none.

/// The greatest number of vertices of a graph, 2^20.
pub const MAX_VERTICES: u32 = 1_048_576;

/// The greatest number of ranges into which the vertices are cut.
pub const MAX_PARTS: u32 = 64;

/// The greatest number of edges of a grid, 2^24.
pub const MAX_EDGES: u64 = 16_777_216;

/// The greatest number of changes of a job file. A version of a graph has at most [`MAX_EDGES`] and so many edges.
pub const MAX_CHANGES: u32 = 65_536;

/// The greatest number of edges of a chunk of a grid.
pub const MAX_CHUNK_SIZE: u32 = 65_536;

/// The greatest number of chunks of a grid, 2^20.
pub const MAX_CHUNKS: u32 = 1_048_576;

/// The greatest number of bytes of a job's name.
pub const MAX_NAME_BYTES: usize = 32;

/// The greatest number of digits of a numeral.
pub const MAX_DIGITS: usize = 20;

/// The value of a vertex that isn't reached.
pub const TOP: u64 = u64::MAX;
