//! Blocks of voxels, and the keys that name them.
#![tactic(auto)]

mod block;
mod chunk;
mod key;
pub mod laws;
mod no_memory;
mod packed;
mod parts;
mod summary;
mod unpack;
mod voxel;

pub use block::Block;
pub use chunk::ChunkKey;
pub use key::BlockKey;
pub use no_memory::NoMemory;
pub use packed::{Packed, pack_into};
pub use summary::Summary;
pub use unpack::{BadPacked, unpack_into};
pub use voxel::Voxel;

#[cfg(test)]
mod tests;
