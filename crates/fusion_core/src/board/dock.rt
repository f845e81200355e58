use voxel_block::{BlockKey, Packed};

/// A place for one packed block.
#[derive(Drop)]
pub enum Dock {
    /// No key's. Its bytes mean nothing.
    Bare(Packed),
    /// The packed block of this key.
    Full(BlockKey, Packed),
}
