//! How many bytes the fields of a grid's file have.

/// How many bytes the head has: what every grid's file begins with, n and parts.
pub const HEAD_SIZE: usize = 16;

/// How many bytes an entry of the index has: the number of edges of a block.
pub const ENTRY_SIZE: usize = 8;

/// How many bytes an edge has: its source, its destination and its weight.
pub const EDGE_SIZE: usize = 12;
