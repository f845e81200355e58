//! For each tile of pixels, which points of their walks are to be tried: those that may read a voxel of given parts of
//! blocks.
#![tactic(auto)]

mod boxes;
pub mod laws;
mod parts;
mod pixels;
mod point_range;
mod projector;
mod ranges;
mod reach;
mod shape;
mod span;
mod tile_box;
mod widening;

pub use point_range::PointRange;
pub use ranges::Ranges;

#[cfg(test)]
mod tests;
