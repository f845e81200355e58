//! Jobs on owned cells and docks, which several seats claim one after another, with no lock.
#![tactic(auto)]

mod board;
mod board_end;
mod jobs;
pub mod laws;
mod no_board;
mod queue;
mod rows;
mod rule;
mod seat;
mod taking;
mod turn;
mod view;
mod words;

pub use board::Board;
pub use board_end::BoardEnd;
pub use no_board::NoBoard;
pub use seat::BoardSeat;
pub use turn::Turn;
pub use view::View;

#[cfg(test)]
mod tests;
