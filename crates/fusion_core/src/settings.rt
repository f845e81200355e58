use camera::Camera;

/// What frames are judged and fused by.
#[derive(Clone, Copy, Debug, PartialEq, Eq)]
pub struct Settings {
    /// The version of the rules, which says what the truncation band is.
    pub version: u8,
    /// The camera that took the frames.
    pub camera: Camera,
    /// The greatest weight of a voxel.
    pub max_weight: u8,
    /// How many blocks may be active for a frame.
    pub heap_blocks: u32,
}
