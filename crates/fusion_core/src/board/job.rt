use voxel_block::BlockKey;

/// What is to be done with one block. Cells and docks are named by their numbers.
#[derive(Clone, Copy, Debug, PartialEq, Eq)]
pub enum Job {
    /// A free cell becomes this key's, with new voxels, which are updated.
    Fresh { key: BlockKey },
    /// The block of an owned cell is updated.
    Stay { cell: u32 },
    /// The block of a full dock comes into a free cell, and is updated.
    Enter { dock: u32 },
    /// The block of an owned cell is packed into a bare dock.
    Leave { cell: u32, dock: u32 },
    /// The block of an owned cell is looked at.
    Check { cell: u32 },
}
