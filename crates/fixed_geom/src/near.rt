//! World points of camera points within 17 metres on each axis, by products of 64 bits.
ghost use Rattle.std.specs.Prelude.{◌≡◌, pos, ◌+ℤ◌};
ghost use Rattle.fixed_geom.specs.Division.{floor_div};
ghost use Rattle.fixed_geom.specs.Poses.{entry_bound, translation_bound, unit};
ghost use Rattle.fixed_geom.specs.Vectors.{AreWithin, IsWithin, dot as dot_of};

use crate::row_products::{dot, micrometres};
use crate::vector::Vec3;

/// One coordinate of the world point, by the translation's and by the row of the rotation.
pub(crate) fn world_axis(t: i64, row: Vec3, c: Vec3) -> i64
    requires t { IsWithin translation_bound t }
    requires row { AreWithin entry_bound row }
    requires c { AreWithin (pos 17000000) c }
    ensures { result ≡ t +ℤ floor_div (dot_of row c) unit }
{
    t + micrometres(dot(row, c))
}
