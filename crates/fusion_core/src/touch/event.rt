use voxel_block::BlockKey;

/// A step of a seat. Words and entries are numbered as in the hash table.
#[derive(Debug, Clone, Copy, PartialEq, Eq)]
pub enum Touch {
    /// The seat loads the next word on its walk for a key.
    Seen { word: u32, key: BlockKey },
    /// The seat places a key at the next entry on its walk, which is free.
    Place { entry: u32, key: BlockKey },
    /// The seat draws a number: a node, or one past the nodes, which marks the seat.
    Node,
    /// The seat stores a key in its unlinked node.
    Fill { key: BlockKey },
    /// The seat links its unlinked node at the next link on its walk for the node's key, which leads nowhere.
    Link { word: u32 },
}
