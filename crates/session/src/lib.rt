//! The map that a scan's frames are fused into, and the answer to each record.
#![tactic(auto)]

mod collecting;
mod error;
mod fused_map;
mod fusing;
mod known;
mod moving;
mod points;
mod room;
mod scratch;
mod session;
mod totals;
mod updating;

pub use error::{FrameError, ReadError, RenderError};
pub use fused_map::Picture;
pub use session::Session;

#[cfg(test)]
mod tests;
