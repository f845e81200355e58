//! The model: a frame, the map of blocks that it is fused into, and the state that frames leave. Beside it, two machines: of
//! a board, on which workers do jobs on blocks, and of touching keys in one hash table.
#![tactic(auto)]

mod board;
mod frame;
mod gate;
pub mod laws;
mod not_allowed;
mod refusal;
mod settings;
mod touch;
pub mod touch_laws;

pub use board::{Core, Dock, Done, Event, Hand, Job, Slot, Tools, Work, doing, moving};
pub use frame::Frame;
pub use gate::{Gate, NoGate};
pub use not_allowed::NotAllowed;
pub use refusal::Refusal;
pub use settings::Settings;
pub use touch::{Touch, TouchCore};

#[cfg(test)]
mod tests;
