//! A heap of blocks: a fixed number of cells with a block each, which keys own and give up.
#![tactic(auto)]

mod cell;
mod heap;

pub use cell::Cell;
pub use heap::Heap;

#[cfg(test)]
mod tests;
