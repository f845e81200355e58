ghost use Rattle.std.specs.Prelude.{◌≡◌, ◌<◌, pos, ◌+ℤ◌, ◌*ℤ◌, ◌≤ℤ◌};
ghost use Rattle.std.specs.Option.{option_copied};
ghost use Rattle.fixed_geom.specs.Vectors.{AreWithin, IsWithin};
ghost use Rattle.camera.specs.Grid.{point_of, voxel_coordinates};
ghost use Rattle.camera.specs.Values.{value_in, value_of};
ghost use Rattle.camera.specs.Visibility.{IsInReach};
ghost use Rattle.crossing_export.specs.Crossings.{crossing_along, moved as moved_of};
ghost use Rattle.crossing_export.specs.declared.crossing.Axis.TheVariants.{X as on_x, Y as on_y, Z as on_z};
ghost use Rattle.crossing_export.specs.Steps.{InEachMap};

use crate::crossing::{Axis, Crossing, moved};
use crate::offset::offset;
use fixed_geom::Vec3;
use voxel_block::{Block, BlockKey};

/// A block, and the next block on each axis, if there is one.
#[derive(Clone, Copy)]
pub(crate) struct Around<'a> {
    pub(crate) key: BlockKey,
    pub(crate) here: &'a Block,
    pub(crate) x: Option<&'a Block>,
    pub(crate) y: Option<&'a Block>,
    pub(crate) z: Option<&'a Block>,
}

impl<'a> Around<'a> {
    /// The crossing between the voxel of this index and the next one along an axis.
    pub(crate) fn along(&self, axis: Axis, size: i64, i: u16) -> Option<Crossing>
        requires size { pos 1 ≤ℤ size }
        requires size_high { size ≤ℤ pos 100000 }
        requires reach { IsInReach size self.now.key }
        requires index { i < 512 }
        ensures { InEachMap self.now
            (λ m. result ≡ crossing_along m size (voxel_coordinates self.now.key i) axis) }
    {
        let d = offset(size, self.value(i), self.next(axis, i))?;
        Some(moved(axis, point(size, self.key, i), d))
    }

    /// The value of the voxel of this index, if it is known.
    fn value(&self, i: u16) -> Option<i16>
        requires { i < 512 }
        ensures { InEachMap self.now (λ m. result ≡ value_of m (voxel_coordinates self.now.key i)) }
    {
        self.here.get(i).known_value()
    }

    /// The value of the voxel next to it along an axis, if it is known.
    fn next(&self, axis: Axis, i: u16) -> Option<i16>
        requires { i < 512 }
        ensures { InEachMap self.now
            (λ m. result ≡ value_of m (moved_of axis (pos 1) (voxel_coordinates self.now.key i))) }
    {
        match axis {
            Axis::X => self.next_on_x(i),
            Axis::Y => self.next_on_y(i),
            Axis::Z => self.next_on_z(i),
        }
    }

    fn next_on_x(&self, i: u16) -> Option<i16>
        requires { i < 512 }
        ensures { InEachMap self.now
            (λ m. result ≡ value_of m (moved_of on_x (pos 1) (voxel_coordinates self.now.key i))) }
    {
        if i % 8 < 7 {
            self.here.get(i + 1).known_value()
        } else {
            value(self.x, i - 7)
        }
    }

    fn next_on_y(&self, i: u16) -> Option<i16>
        requires { i < 512 }
        ensures { InEachMap self.now
            (λ m. result ≡ value_of m (moved_of on_y (pos 1) (voxel_coordinates self.now.key i))) }
    {
        if i / 8 % 8 < 7 {
            self.here.get(i + 8).known_value()
        } else {
            value(self.y, i - 56)
        }
    }

    fn next_on_z(&self, i: u16) -> Option<i16>
        requires { i < 512 }
        ensures { InEachMap self.now
            (λ m. result ≡ value_of m (moved_of on_z (pos 1) (voxel_coordinates self.now.key i))) }
    {
        if i / 64 < 7 {
            self.here.get(i + 64).known_value()
        } else {
            value(self.z, i - 448)
        }
    }
}

/// The value of a voxel of a block, if there is a block and the value is known.
fn value(block: Option<&Block>, i: u16) -> Option<i16>
    requires { i < 512 }
    ensures { result ≡ value_in (option_copied block.entry) i }
{
    block?.get(i).known_value()
}

/// The world point of a voxel of a block.
fn point(size: i64, key: BlockKey, i: u16) -> Vec3
    requires size { pos 1 ≤ℤ size }
    requires size_high { size ≤ℤ pos 100000 }
    requires reach { IsInReach size key }
    requires index { i < 512 }
    ensures value { result ≡ point_of size key i }
    ensures bound { AreWithin (pos 1074441824) result }
{
    Vec3 {
        x: coordinate(size, key.x, i % 8),
        y: coordinate(size, key.y, i / 8 % 8),
        z: coordinate(size, key.z, i / 64),
    }
}

/// A coordinate of this point, by the block's coordinate and the voxel's offset in the block.
fn coordinate(size: i64, block: i16, offset: u16) -> i64
    requires size { pos 1 ≤ℤ size }
    requires size_high { size ≤ℤ pos 100000 }
    requires reach { IsWithin (pos 1073741824) (pos 8 *ℤ size *ℤ block) }
    requires offset { offset < 8 }
    ensures value { result ≡ (pos 8 *ℤ block +ℤ pos offset) *ℤ size }
    ensures bound { IsWithin (pos 1074441824) result }
{
    (8 * i64::from(block) + i64::from(offset)) * size
}
