//! A view: a depth map, the camera that took it, and the pose that it was taken from.
#![tactic(auto)]

mod depth;
mod depths;
pub mod laws;

pub use depth::depth_at;
pub use depths::Depths;

#[cfg(test)]
mod tests;
