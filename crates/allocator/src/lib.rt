//! The keys of a frame's truncation band, touched by many workers at once.
#![tactic(auto)]

mod crew;
mod end;
mod round;
mod rows;
mod touching;
mod worker;

pub use end::TouchEnd;
pub use round::touch_round;

#[cfg(test)]
mod tests;
