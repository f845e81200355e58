use spatial_hash::HashTable;

/// How a round of touching ended.
#[derive(Drop)]
pub enum TouchEnd {
    /// The table with the keys of the shared one, each with its cell, and those of the band, new ones with no
    /// cell (`u32::MAX`).
    All(HashTable),
    /// No node was left for a key. A worker drew this number for one; it is at least the number of nodes.
    Spent { drawn: u64 },
}
