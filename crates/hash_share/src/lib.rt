//! A hash table whose keys several seats touch at once, with no lock.
#![tactic(auto)]

mod buckets;
mod chains;
mod hand;
mod hop;
pub mod laws;
mod refill;
mod rule;
mod seat;
mod share;
mod spares;
mod spot;
mod touched;
mod view;
mod walks;

pub use seat::TouchSeat;
pub use share::HashShare;
pub use touched::Touched;
pub use view::View;

#[cfg(test)]
mod tests;
