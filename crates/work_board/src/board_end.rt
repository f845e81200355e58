use block_heap::Cell;
use fusion_core::{Dock, Done};

/// What a board gives back when all its jobs are done.
#[derive(Drop)]
pub struct BoardEnd {
    /// The cells, in order of their numbers.
    pub cells: Vec<Cell>,
    /// The docks, in order of their numbers.
    pub docks: Vec<Dock>,
    /// The numbers of free cells: those that no job drew, and those that were freed. It has room for as many numbers as
    /// there are cells.
    pub free: Vec<u32>,
    /// The answers, by the numbers of the jobs.
    pub done: Vec<Done>,
}
