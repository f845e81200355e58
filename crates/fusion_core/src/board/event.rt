/// One step of a worker, who is named by a number.
#[derive(Clone, Copy, Debug, PartialEq, Eq)]
pub enum Event {
    /// The worker takes the next job, with the cell and the dock that it names.
    Claim(u32),
    /// The worker takes the next free cell for its job.
    Draw(u32),
    /// The worker does its job, and gives back all that it has in hand.
    Finish(u32),
}
