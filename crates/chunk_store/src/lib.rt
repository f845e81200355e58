//! Packed blocks by their keys, chunk by chunk.
#![tactic(auto)]

mod blocks;
mod place;
mod row;
mod rows;
mod store;

pub use blocks::Blocks;
pub use store::ChunkStore;

#[cfg(test)]
mod tests;
