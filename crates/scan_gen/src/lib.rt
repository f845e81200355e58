//! Generated scans: a source of large scans that are made from a number, without a camera.
#![tactic(auto)]

mod ball;
mod depth;
mod gen_source;
mod part;
mod raster;
mod root;
#[cfg(test)]
mod tests;
mod view;

pub use gen_source::GenSource;
