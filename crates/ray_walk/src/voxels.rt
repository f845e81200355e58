//! The voxel of a raised coordinate, by its block and by its offset in the block.
ghost use Rattle.std.specs.Prelude.{◌≡◌, ◌^◌, ◌*◌, ◌/◌, ◌%◌, ◌<◌, ◌≤◌, IsTrue, unsigned_abs};
ghost use Rattle.std.specs.Prelude.{pos, neg_ℤ, ◌-ℤ◌, ◌*ℤ◌, ◌≤ℤ◌, ◌<ℤ◌};
ghost use Rattle.fixed_geom.specs.Vectors.{IsWithin};
ghost use Rattle.camera.specs.Grid.{is_key};
ghost use Rattle.ray_walk.specs.Raising.{reciprocal as reciprocal_of, world_raise};
ghost use Rattle.ray_walk.specs.RaisedVoxels.{raised_block, raised_index};

use voxel_block::BlockKey;

/// The coordinates of a voxel in the grid, each raised by the same number of blocks, so that none is below 0.
#[derive(Clone, Copy)]
pub(crate) struct RaisedVoxel {
    pub(crate) x: u64,
    pub(crate) y: u64,
    pub(crate) z: u64,
}

/// The number of blocks of voxels of this size that a coordinate of the world is raised by: they reach past 152 metres.
pub(crate) fn raised_blocks(size: i64) -> i64
    requires size { pos 1000 ≤ℤ size }
    requires size_high { size ≤ℤ pos 100000 }
    ensures low { pos 152000000 ≤ℤ (pos 8 *ℤ size *ℤ result) }
    ensures high { (pos 8 *ℤ size *ℤ result) ≤ℤ pos 152800000 }
    ensures least { pos 1 ≤ℤ result }
    ensures most { result ≤ℤ pos 19001 }
{
    152_000_000i64.div_euclid(8 * size) + 1
}

/// What a coordinate of the world is raised by.
pub(crate) fn raise_of(size: i64, blocks: i64) -> i64
    requires size { pos 1000 ≤ℤ size }
    requires size_high { size ≤ℤ pos 100000 }
    requires low { pos 152000000 ≤ℤ (pos 8 *ℤ size *ℤ blocks) }
    requires high { (pos 8 *ℤ size *ℤ blocks) ≤ℤ pos 152800000 }
    ensures value { result ≡ world_raise size blocks }
    ensures bound { IsWithin (pos 152850000) result }
{
    size.div_euclid(2) + length(size, blocks)
}

/// The length of blocks.
fn length(size: i64, blocks: i64) -> i64
    requires size { IsWithin (pos 100000) size }
    requires low { pos 152000000 ≤ℤ (pos 8 *ℤ size *ℤ blocks) }
    requires high { (pos 8 *ℤ size *ℤ blocks) ≤ℤ pos 152800000 }
    ensures value { result ≡ pos 8 *ℤ size *ℤ blocks }
    ensures low { pos 152000000 ≤ℤ result }
    ensures high { result ≤ℤ pos 152800000 }
{
    8 * size * blocks
}

/// The reciprocal of the size of a voxel, in parts of `2^45`, rounded up.
pub(crate) fn reciprocal(size: u64) -> u64
    requires { 1000 ≤ size }
    ensures value { result ≡ reciprocal_of (2 ^ 45) size }
    ensures bound { result ≤ 35184372089 }
{
    0x1fff_ffff_ffff / size + 1
}

/// The floor of `q` by the size of a voxel, by the reciprocal.
pub(crate) fn quotient(q: i64, reciprocal: u64) -> u64
    requires low { pos 0 ≤ℤ q }
    requires high { q <ℤ pos 310000000 }
    requires reciprocal { reciprocal ≤ 35184372089 }
    ensures { result ≡ unsigned_abs q * reciprocal / 2 ^ 45 }
{
    (q as u64 * reciprocal) >> 45
}

/// The block of a voxel whose coordinates are raised by some blocks.
pub(crate) fn block_of(voxel: RaisedVoxel, blocks: i64) -> BlockKey
    requires blocks { IsWithin (pos 19001) blocks }
    requires key { IsTrue (is_key (raised_block blocks voxel)) }
    ensures { result ≡ raised_block blocks voxel }
{
    BlockKey {
        x: block_axis(voxel.x, blocks),
        y: block_axis(voxel.y, blocks),
        z: block_axis(voxel.z, blocks),
    }
}

/// A coordinate of the block.
fn block_axis(voxel: u64, blocks: i64) -> i16
    requires blocks { IsWithin (pos 19001) blocks }
    requires low { (neg_ℤ (pos 32768)) ≤ℤ (pos (voxel / 8) -ℤ blocks) }
    requires high { (pos (voxel / 8) -ℤ blocks) ≤ℤ pos 32767 }
    ensures { result ≡ pos (voxel / 8) -ℤ blocks }
{
    ((voxel >> 3) as i64 - blocks) as i16
}

/// The index of that voxel in its block: x runs fastest, then y, then z.
pub(crate) fn index_of(voxel: RaisedVoxel) -> u16
    ensures value { result ≡ raised_index voxel }
    ensures bound { result < 512 }
{
    offset(voxel.x) + 8 * offset(voxel.y) + 64 * offset(voxel.z)
}

/// The offset of a raised coordinate in its block.
fn offset(voxel: u64) -> u16
    ensures value { result ≡ voxel % 8 }
    ensures bound { result < 8 }
{
    (voxel & 7) as u16
}
