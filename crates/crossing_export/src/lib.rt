//! The surface points of a map, and the file of such points.
#![tactic(auto)]

mod around;
mod block;
mod crossing;
mod offset;
mod ply;

pub use block::block_crossings;
pub use crossing::Crossing;
pub use ply::{append_ply, ply_text};

#[cfg(test)]
mod tests;
