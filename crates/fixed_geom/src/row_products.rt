//! Products of a row or a column of a rotation with a point, by 64 bits.
ghost use Rattle.std.specs.Prelude.{◌≡◌, ◌^◌, pos, ◌*ℤ◌};
ghost use Rattle.fixed_geom.specs.Division.{floor_div};
ghost use Rattle.fixed_geom.specs.Poses.{entry_bound, unit};
ghost use Rattle.fixed_geom.specs.Vectors.{AreWithin, IsWithin, dot as dot_of};

use crate::vector::Vec3;

/// The sum of the products of the coordinates of a row or a column of a rotation, in units of `2^-30`, and a point
/// within `2^29` micrometres on each axis. It is in units of `2^-30` micrometres.
pub fn dot(row: Vec3, p: Vec3) -> i64
    requires row { AreWithin entry_bound row }
    requires p { AreWithin (pos (2 ^ 29)) p }
    ensures value { result ≡ dot_of row p }
    ensures bound { IsWithin (pos (2 ^ 62)) result }
{
    times(row.x, p.x) + times(row.y, p.y) + times(row.z, p.z)
}

fn times(entry: i64, coordinate: i64) -> i64
    requires entry { IsWithin entry_bound entry }
    requires coordinate { IsWithin (pos (2 ^ 29)) coordinate }
    ensures value { result ≡ entry *ℤ coordinate }
    ensures bound { IsWithin (pos (2 ^ 60)) result }
{
    entry * coordinate
}

/// The floor, in whole micrometres, of a length in units of `2^-30` micrometres.
pub fn micrometres(q30: i64) -> i64
    ensures value { result ≡ floor_div q30 unit }
    ensures bound { IsWithin (pos (2 ^ 33)) result }
{
    q30 >> 30
}
