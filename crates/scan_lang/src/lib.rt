//! The language of scans: the configuration, the records, and the replies to them.
#![tactic(auto)]

mod config;
mod coordinate;
mod entry;
mod error;
mod head;
pub mod laws;
mod line;
mod reader;
mod reply;
mod words;

pub use config::{BadConfig, Config, ConfigError, ConfigFields, read_config};
pub use entry::Entry;
pub use error::{BadScan, BadWhat, ScanError};
pub use reader::ScanReader;
pub use reply::{FrameDone, KnownVoxel, Place, PointList, Reply, Totals, VoxelList, reply_bytes};

#[cfg(test)]
mod tests;
