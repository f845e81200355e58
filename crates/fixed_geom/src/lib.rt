//! Fixed-point vectors, poses and decimals: lengths in whole micrometres, rotations in units of `2^-30`.
#![tactic(auto)]

mod bounds;
pub mod cam_q30;
pub mod decimal;
pub mod division;
pub mod laws;
mod near;
pub mod pose;
mod products;
pub mod quotients;
pub mod row_products;
mod spelling;
#[cfg(test)]
mod tests;
pub mod vector;

pub use cam_q30::CamQ30;
pub use decimal::{BadNumber, read_decimal};
pub use division::{floor_div, round_div};
pub use pose::{BadPose, Pose, PoseRows};
pub use quotients::{quotient, reciprocal};
pub use row_products::{dot, micrometres};
pub use vector::Vec3;
