use crate::entry::Entry;
use fixed_geom::PoseRows;

/// What a line begins.
#[derive(Drop)]
pub enum Head {
    /// A frame, whose depth map follows the line.
    Frame(PoseRows),
    /// A whole record.
    Whole(Entry),
}
