ghost use Rattle.std.specs.Prelude.{◌≡◌, option_map};
ghost use Rattle.std.specs.Borrow.{sem};
ghost use Rattle.block_heap.specs.Cells.{content, freed as freed_of, is_free as is_free_of, owned_by as owned_by_of, with_owner as with_owner_of};
ghost use Rattle.block_heap.specs.Lending.{LendsBlock};

use voxel_block::{Block, BlockKey};

/// A place for one block.
#[derive(Drop)]
pub enum Cell {
    /// No key's. Its voxels mean nothing.
    Free(Block),
    /// The block of this key.
    Owned(BlockKey, Block),
}

impl Cell {
    // Whether it is free.
    pub(crate) fn is_free(&self) -> bool
        ensures { result ≡ is_free_of self.now }
    {
        matches!(self, Cell::Free(_))
    }

    // The same block in a free cell.
    pub(crate) fn freed(self) -> Cell
        ensures { result ≡ freed_of self }
    {
        match self {
            Cell::Free(block) => Cell::Free(block),
            Cell::Owned(_, block) => Cell::Free(block),
        }
    }

    // The same block with new voxels, in a cell that this key owns.
    pub(crate) fn owned_by(self, key: BlockKey) -> Cell
        ensures { result ≡ owned_by_of key }
    {
        let mut block = match self {
            Cell::Free(block) => block,
            Cell::Owned(_, block) => block,
        };
        block.reset();
        Cell::Owned(key, block)
    }

    // The cell of this key with new voxels, or the free cell with the same block.
    pub(crate) fn with_owner(self, owner: Option<BlockKey>) -> Cell
        ensures { result ≡ with_owner_of self owner }
    {
        match owner {
            Some(key) => self.owned_by(key),
            None => self.freed(),
        }
    }

    // The block of an owned cell, to be changed. `None` exactly where it is free.
    pub(crate) fn block_mut(&mut self) -> Option<&mut Block>
        ensures* writes_back { sem 𝓛 (LendsBlock self.entry result) }
        ensures value { option_map (λ b. b.now) result ≡ option_map (λ p. p.1) (content self.old) }
    {
        match self {
            Cell::Free(_) => None,
            Cell::Owned(_, block) => Some(block),
        }
    }
}
