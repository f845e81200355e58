//! The parts of blocks.
ghost use Rattle.std.specs.Prelude.{◌≡◌, ◌^◌, ◌*◌, ◌/◌, ◌%◌, ◌<◌, ◌≤◌, ◌↔◌, pos, ◌+ℤ◌, ◌*ℤ◌, ◌≤ℤ◌, None, IfSome, IsTrue};
ghost use Rattle.fixed_geom.specs.PoseTest.{pose_of};
ghost use Rattle.fixed_geom.specs.Vectors.{IsWithin};
ghost use Rattle.ray_ranges.specs.Boxes.{Covers, HasNoPoint, IsInside, IsNearby};
ghost use Rattle.ray_ranges.specs.Cubes.{IsReadable, part_least as least_of};

use crate::boxes::PixelBox;
use crate::projector::Projector;
use fixed_geom::Vec3;
use voxel_block::BlockKey;

/// How far from the origin a block may lie that a walk reads, on each axis, in micrometres.
const READABLE: i64 = 152_000_000;

/// A box of the pixels and points whose nearest voxel is in a part of a block. `None` only where there is no such
/// point.
pub(crate) fn part_box(projector: &Projector, key: BlockKey, part: u16) -> Option<PixelBox>
    requires { part < 8 }
    ensures covers { IfSome result (λ b. Covers projector.now.fields (pose_of projector.now.rows) (least_of key part) (pos 4) b) }
    ensures inside { IfSome result (λ b. IsInside projector.now.fields b) }
    ensures none { result ≡ None → HasNoPoint projector.now.fields (pose_of projector.now.rows) (least_of key part) (pos 4) }
{
    if !is_readable(projector.fields.voxel, key) {
        return None;
    }
    projector.cube_box(part_least(key, part), 4)
}

/// Whether a block is so near that walks may read it.
fn is_readable(voxel: i64, key: BlockKey) -> bool
    requires voxel { pos 1 ≤ℤ voxel }
    requires voxel_high { voxel ≤ℤ pos 100000 }
    ensures { IsTrue result ↔ IsReadable voxel key }
{
    if !is_readable_axis(voxel, key.x) {
        return false;
    }
    if !is_readable_axis(voxel, key.y) {
        return false;
    }
    is_readable_axis(voxel, key.z)
}

/// The same on one axis.
fn is_readable_axis(voxel: i64, coordinate: i16) -> bool
    requires voxel { pos 1 ≤ℤ voxel }
    requires voxel_high { voxel ≤ℤ pos 100000 }
    ensures { IsTrue result ↔ IsWithin (pos 152000000) (voxel *ℤ (pos 8 *ℤ coordinate)) }
{
    let start = block_start(voxel, coordinate);
    -READABLE <= start && start <= READABLE
}

/// Where a block starts on one axis, in micrometres.
fn block_start(voxel: i64, coordinate: i16) -> i64
    requires voxel { pos 1 ≤ℤ voxel }
    requires voxel_high { voxel ≤ℤ pos 100000 }
    ensures { result ≡ voxel *ℤ (pos 8 *ℤ coordinate) }
{
    voxel * (8 * i64::from(coordinate))
}

/// The least voxel of a part of a block.
fn part_least(key: BlockKey, part: u16) -> Vec3
    requires { part < 8 }
    ensures { result ≡ least_of key part }
{
    Vec3 {
        x: least_axis(key.x, part),
        y: least_axis(key.y, part / 2),
        z: least_axis(key.z, part / 4),
    }
}

/// The same on one axis, by the lowest bit of `half`.
fn least_axis(coordinate: i16, half: u16) -> i64
    ensures { result ≡ pos 8 *ℤ coordinate +ℤ pos (4 * (half % 2)) }
{
    8 * i64::from(coordinate) + 4 * i64::from(half % 2)
}
