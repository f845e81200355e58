//! The points of the walk of a pixel's ray through the grid: their depths, and the voxel nearest to each.
#![tactic(auto)]

mod division;
mod form;
pub mod laws;
mod points;
mod ray;
mod voxels;
mod walks;

pub use points::{point_count, point_depth};
pub use walks::Walks;

#[cfg(test)]
mod tests;
