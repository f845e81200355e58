//! The machine of a board: jobs on blocks that workers claim one after another, in any order of their steps.

mod core_laws;
mod core_steps;
mod dock;
pub mod doing;
mod done;
mod event;
mod hand;
mod job;
mod machine;
pub mod moving;
mod slot;
mod tools;
mod work;

pub use dock::Dock;
pub use done::Done;
pub use event::Event;
pub use hand::Hand;
pub use job::Job;
pub use machine::Core;
pub use slot::Slot;
pub use tools::Tools;
pub use work::Work;

#[cfg(test)]
mod tests;
