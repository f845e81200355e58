//! The blocks of a frame's truncation band, row by row.
#![tactic(auto)]

mod adding;
mod band;
mod blocks;
pub mod laws;
mod memo;
mod pixel;
mod samples;
mod segment;
mod side;
mod steps;
mod walk;

pub use band::Band;
pub use memo::Memo;
pub use walk::BandWalk;

#[cfg(test)]
mod tests;
