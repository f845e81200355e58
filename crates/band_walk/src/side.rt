//! The block that a world point lies in, by the reciprocal of a block's side.
ghost use Rattle.std.specs.Prelude.{◌≡◌, ◌≤◌, ◌<◌, ◌+◌, ◌-◌, ◌*◌, ◌/◌, ◌^◌, pos, Some, ◌+ℤ◌, ◌-ℤ◌, ◌*ℤ◌, ◌≤ℤ◌, unsigned_abs};
ghost use Rattle.fixed_geom.specs.Division.{floor_div};
ghost use Rattle.fixed_geom.specs.Vectors.{AreWithin, IsWithin};
ghost use Rattle.voxel_block.specs.Words.{key_of, key_with};
ghost use Rattle.camera.specs.Grid.{block_at as block_at_of};

use fixed_geom::{Vec3, quotient, reciprocal};
use voxel_block::BlockKey;

/// The side of a block, whose voxels have a size of 1 to 100 millimetres.
#[derive(Clone, Copy)]
pub(crate) struct BlockSide {
    voxel: i64,
    reciprocal: u64,
    ghost least: { pos 1000 ≤ℤ voxel },
    ghost most: { voxel ≤ℤ pos 100000 },
    ghost made: { reciprocal ≡ (2 ^ 64 - 1) / (8 * unsigned_abs voxel) + 1 },
}

impl BlockSide {
    pub(crate) fn of(voxel: i64) -> BlockSide
        requires least { pos 1000 ≤ℤ voxel }
        requires most { voxel ≤ℤ pos 100000 }
        ensures { result.voxel ≡ voxel }
    {
        BlockSide {
            voxel,
            reciprocal: reciprocal(8 * voxel as u64),
        }
    }

    /// The block that a point lies in.
    pub(crate) fn block_at(self, p: Vec3) -> RaisedKey
        requires { AreWithin (pos 151006226) p }
        ensures { key_with result.x result.y result.z ≡ block_at_of self.voxel p }
    {
        RaisedKey {
            x: self.raised_axis(p.x),
            y: self.raised_axis(p.y),
            z: self.raised_axis(p.z),
        }
    }

    /// One coordinate of it, raised.
    fn raised_axis(self, x: i64) -> u64
        requires { IsWithin (pos 151006226) x }
        ensures value { pos result -ℤ pos 32768 ≡ floor_div x (pos 8 *ℤ self.voxel) }
        ensures bound { result < 65536 }
    {
        whole_blocks(
            raised(x, self.voxel),
            8 * self.voxel as u64,
            self.reciprocal,
        )
    }

    /// The number of whole halves of a block in an offset.
    pub(crate) fn half_blocks(self, offset: u64) -> u32
        requires { offset ≤ 302012452 }
        ensures value { result ≡ unsigned_abs (floor_div (pos 2 *ℤ pos offset) (pos 8 *ℤ self.voxel)) }
        ensures bound { result ≤ 75503 }
    {
        few_blocks(2 * offset, 8 * self.voxel as u64, self.reciprocal) as u32
    }
}

/// The key of a block, each coordinate raised by 32768 so that it is not negative.
#[derive(Clone, Copy)]
pub(crate) struct RaisedKey {
    x: u64,
    y: u64,
    z: u64,
    ghost x_bound: { x < 65536 },
    ghost y_bound: { y < 65536 },
    ghost z_bound: { z < 65536 },
}

impl RaisedKey {
    /// The key's word.
    pub(crate) fn word(self) -> u64
        ensures { key_of result ≡ Some (key_with self.x self.y self.z) }
    {
        1 + self.x * 0x1_0000_0000 + self.y * 0x1_0000 + self.z
    }

    /// The key.
    pub(crate) fn key(self) -> BlockKey
        ensures { result ≡ key_with self.x self.y self.z }
    {
        BlockKey {
            x: lowered(self.x),
            y: lowered(self.y),
            z: lowered(self.z),
        }
    }
}

/// A coordinate, raised by 32768 blocks so that it is not negative.
fn raised(x: i64, voxel: i64) -> u64
    requires least { pos 1000 ≤ℤ voxel }
    requires most { voxel ≤ℤ pos 100000 }
    requires x { IsWithin (pos 151006226) x }
    ensures value { pos result ≡ x +ℤ pos 262144 *ℤ voxel }
    ensures bound { result < 65536 * (8 * unsigned_abs voxel) }
{
    (x + 262_144 * voxel) as u64
}

/// The number of whole blocks in a raised coordinate.
fn whole_blocks(n: u64, side: u64, reciprocal: u64) -> u64
    requires least { 2 ≤ side }
    requires most { side ≤ 800000 }
    requires n { n < 65536 * side }
    requires reciprocal { reciprocal ≡ (2 ^ 64 - 1) / side + 1 }
    ensures value { result ≡ n / side }
    ensures bound { result < 65536 }
{
    quotient(n, side, reciprocal)
}

/// The number of whole blocks in twice an offset.
fn few_blocks(n: u64, side: u64, reciprocal: u64) -> u64
    requires least { 8000 ≤ side }
    requires most { side ≤ 800000 }
    requires n { n ≤ 604024904 }
    requires reciprocal { reciprocal ≡ (2 ^ 64 - 1) / side + 1 }
    ensures value { result ≡ n / side }
    ensures bound { result ≤ 75503 }
{
    quotient(n, side, reciprocal)
}

/// A block's coordinate as it was before it was raised.
fn lowered(block: u64) -> i16
    requires { block < 65536 }
    ensures { result ≡ pos block -ℤ pos 32768 }
{
    (block as i32 - 32768) as i16
}
