//! Renders: the picture that a camera would take of a map, as a depth map.
#![tactic(auto)]

mod last_block;
pub mod laws;
mod low;
mod picture;
mod surface;
mod trials;
mod view;

pub use picture::{render, render_row};

#[cfg(test)]
mod tests;
