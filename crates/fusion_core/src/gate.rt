/// What a worker passes before each piece of its work: a test may hold it there.
pub trait Gate: Sync {
    /// Called before each row of a round that touches keys, `piece` being the row, and before each turn of a round that
    /// works on a board, `piece` being the number of turns that this worker entered before. Workers are numbered from 0.
    fn enter(&self, worker: u32, piece: u32);
}

/// A gate that holds nobody.
#[derive(Clone, Copy, Debug, PartialEq, Eq)]
pub struct NoGate;

impl Gate for NoGate {
    fn enter(&self, _worker: u32, _piece: u32) {}
}
