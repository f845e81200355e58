use voxel_block::Summary;

/// What is known of a job that is done.
#[derive(Clone, Copy, Debug, PartialEq, Eq)]
pub enum Done {
    /// The block lies in this cell: the answer of Fresh, Stay and Enter.
    Cell(u32),
    /// This cell is free: the answer of Leave.
    Freed(u32),
    /// The block has this summary: the answer of Check.
    Looked(Summary),
}
