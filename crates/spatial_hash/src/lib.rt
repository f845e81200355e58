//! A hash table from the keys of blocks to cells.
#![tactic(auto)]

mod full;
mod hash;
mod linked_node;
mod lookup;
mod table;

pub use full::Full;
pub use hash::bucket;
pub use table::HashTable;

#[cfg(test)]
mod tests;
