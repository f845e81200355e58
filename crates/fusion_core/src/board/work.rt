use crate::Frame;
use depth_view::Depths;

/// What the jobs of a board are done by.
#[derive(Drop)]
pub enum Work {
    /// Blocks are updated by this frame, by the depths of its pixels.
    Fuse { frame: Frame, depths: Depths },
    /// Blocks are moved and looked at. No voxel of them weighs more than `max_weight`.
    Look { max_weight: u8 },
}
