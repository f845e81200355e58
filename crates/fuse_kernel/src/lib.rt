//! The update of a block by a frame.
#![tactic(auto)]

mod corner;
mod estimates;
mod kernel;
pub mod laws;
mod mean;
mod near_cam_q30;
mod pixel_axis;
mod truncation;
mod voxel_steps;

pub use kernel::Kernel;

#[cfg(test)]
mod tests;
