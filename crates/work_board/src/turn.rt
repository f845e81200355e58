/// What one turn did.
#[derive(Clone, Copy, Debug, PartialEq, Eq)]
pub enum Turn {
    /// The job of this number, whole.
    Did(u32),
    /// Nothing: the claim number that was drawn in this turn is at least the number of jobs.
    Empty { drawn: u64 },
}
