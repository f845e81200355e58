use block_heap::Cell;
use fusion_core::{Dock, Job};

/// Out of memory for a board: what it was to be made of comes back.
#[derive(Drop)]
pub struct NoBoard {
    /// The jobs.
    pub jobs: Vec<Job>,
    /// The cells, in order of their numbers.
    pub cells: Vec<Cell>,
    /// The docks, in order of their numbers.
    pub docks: Vec<Dock>,
    /// The numbers of free cells, with the room that they had.
    pub free: Vec<u32>,
}
