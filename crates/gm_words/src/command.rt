//! The commands, with their words and numbers.

use gm_base::Shape;

/// `run GRID JOBS WORKERS CHUNK` with one worker, and a chunk size of 1 to 65,536 edges.
#[derive(Clone, Copy)]
pub struct RunCommand<'a> {
    pub grid: &'a str,
    pub jobs: &'a str,
    pub chunk: u32,
}

/// `build EDGES GRID N PARTS`, for a grid of N vertices in PARTS ranges.
#[derive(Clone, Copy)]
pub struct BuildCommand<'a> {
    pub edges: &'a str,
    pub grid: &'a str,
    pub shape: Shape,
}

/// `info GRID CHUNK`, with a chunk size of 1 to 65,536 edges.
#[derive(Clone, Copy)]
pub struct InfoCommand<'a> {
    pub grid: &'a str,
    pub chunk: u32,
}

/// What the command line asks for.
#[derive(Clone, Copy)]
pub enum Command<'a> {
    Run(RunCommand<'a>),
    Build(BuildCommand<'a>),
    Info(InfoCommand<'a>),
}
