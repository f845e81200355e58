//! A camera: its rays and projection, the depths that it takes, the opening test, the active sphere and the grid.
#![tactic(auto)]

mod camera;
mod drift;
mod grid;
pub mod laws;
mod opening;
mod projection;
mod ray;
mod sample_range;
mod shared;
mod slopes;
mod sphere;
mod visibility;

pub use camera::{BadCamera, Camera, CameraFields, Sight};
pub use opening::first_failing;
pub use sample_range::SampleRange;
pub use slopes::Slopes;

#[cfg(test)]
mod tests;
