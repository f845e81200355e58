ghost use Rattle.std.specs.Prelude.{◌≡◌};

use depth_frame::DepthFrame;
use fixed_geom::PoseRows;
use voxel_block::BlockKey;

/// A record of a scan.
#[derive(Drop)]
pub enum Entry {
    /// The first three rows of a camera-to-world matrix, and the depth map that was taken there.
    Frame(PoseRows, DepthFrame),
    /// A request to remove the blocks that hold no surface.
    Collect,
    /// A request for a picture of the map from the last accepted frame's pose.
    Render,
    /// A request for all known voxels.
    Voxels,
    /// A request for the surface's points.
    Points,
    /// A request for totals over the map.
    Sum,
    /// A request for the place of a block.
    Place(BlockKey),
    /// The end of the scan.
    End,
}

impl Entry {
    ghost use Rattle.scan_lang.specs.Entries.{is_end};

    /// Whether it is the last record of a scan.
    pub fn is_end(&self) -> bool
        ensures { result ≡ is_end self.now }
    {
        matches!(self, Entry::End)
    }
}
