/// What a worker has in hand.
#[derive(Clone, Copy, Debug, PartialEq, Eq)]
pub enum Hand {
    /// Nothing.
    Idle,
    /// A job, by its number, with the cell and the dock that it names, and the free cell that was drawn for it.
    Works(u32, Option<u32>),
}
