//! The touch machine: seats touch keys in one hash table, one step at a time.

mod bucket;
mod event;
mod machine;
mod seat;
mod size;

pub use event::Touch;
pub use machine::TouchCore;

#[cfg(test)]
mod tests;
