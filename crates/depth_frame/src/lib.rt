//! Depth maps: what a depth camera measures in one frame, and their files, binary PGMs (Netpbm).
#![tactic(auto)]

mod bytes;
mod error;
mod frame;
mod header;
mod pgm;
mod raster;
mod samples;

pub use bytes::pgm_bytes;
pub use error::{BadPgm, PgmError, PgmKind};
pub use frame::DepthFrame;
pub use pgm::{files_are_read, other_refusals_stay, read_pgm, short_is_at_the_end};

#[cfg(test)]
mod tests;
