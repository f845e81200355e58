ghost use Rattle.std.specs.Prelude.{◌≡◌};
ghost use Rattle.voxel_block.specs.Chunks.{chunk_of};

use crate::BlockKey;

/// The coordinates of a chunk of 8 by 8 by 8 blocks in the grid, in chunks. Ordered by x, then y, then z.
#[derive(Clone, Copy, Debug, PartialEq, Eq, PartialOrd, Ord, Hash)]
pub struct ChunkKey {
    pub x: i16,
    pub y: i16,
    pub z: i16,
}

impl BlockKey {
    /// The chunk that the block lies in: each coordinate divided by 8, rounded down.
    pub fn chunk(self) -> ChunkKey
        ensures { result ≡ chunk_of self }
    {
        ChunkKey {
            x: self.x.div_euclid(8),
            y: self.y.div_euclid(8),
            z: self.z.div_euclid(8),
        }
    }
}
