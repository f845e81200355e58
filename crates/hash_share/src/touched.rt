/// What a touch of a key came to. An entry is one of the shared words: a node has another number once the
/// share is closed.
#[derive(Clone, Copy, Debug, Drop, PartialEq, Eq)]
pub enum Touched {
    /// This call placed the key at this entry.
    New(u32),
    /// This call saw the key at this entry.
    Old(u32),
    /// Neither the shared table nor the keys that this seat touched have the key, and the number that this
    /// call drew for a node is at least the number of nodes.
    Spent { drawn: u64 },
}
