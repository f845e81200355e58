//! Linear forms: a coordinate of the world point of a ray's point, by one sum of products.
ghost use Rattle.std.specs.Prelude.{◌≡◌, ◌^◌, pos, ◌+ℤ◌, ◌-ℤ◌, ◌*ℤ◌, ◌≤ℤ◌};
ghost use Rattle.fixed_geom.specs.Division.{floor_div};
ghost use Rattle.fixed_geom.specs.Poses.{entry_bound, translation_bound, unit};
ghost use Rattle.fixed_geom.specs.Vectors.{AreWithin, IsWithin, dot as dot_of};
ghost use Rattle.ray_walk.specs.Raising.{ray_raise};

use crate::ray::RAISE;
use fixed_geom::{Vec3, dot, micrometres};

/// A row of a rotation, and what its products with a raised point of a ray are added to, in units of `2^-30`.
#[derive(Clone, Copy)]
pub(crate) struct Form {
    row: Vec3,
    start: i64,
    ghost row_bound: { AreWithin entry_bound row },
    ghost start_bound: { IsWithin (pos (2 ^ 59)) start },
}

impl Form {
    ghost use Rattle.ray_walk.specs.Forms.{IsForm};

    /// The form of a row and of the translation's coordinate `t`, which is raised.
    pub(crate) fn make(row: Vec3, t: i64, raise: i64) -> Form
        requires row { AreWithin entry_bound row }
        requires t { IsWithin translation_bound t }
        requires raise { IsWithin (pos 152850000) raise }
        ensures { IsForm row t raise result }
    {
        Form {
            row,
            start: raised(t, raise) - ray_part(row.x) - ray_part(row.y),
        }
    }

    /// The floor of the form at a raised point of a ray, in micrometres.
    pub(crate) fn at(&self, p: Vec3) -> i64
        requires { AreWithin (pos 34000001) p }
        ensures { result ≡ floor_div (self.now.start +ℤ dot_of self.now.row p) unit }
    {
        micrometres(self.start + dot(self.row, p))
    }
}

/// A raised coordinate in units of `2^-30`.
fn raised(t: i64, raise: i64) -> i64
    requires t { IsWithin translation_bound t }
    requires raise { IsWithin (pos 152850000) raise }
    ensures value { result ≡ unit *ℤ (t +ℤ raise) }
    ensures bound { IsWithin (pos 271510767206809600) result }
{
    0x4000_0000 * (t + raise)
}

/// The product of an entry and what a ray's point is raised by.
fn ray_part(entry: i64) -> i64
    requires { IsWithin entry_bound entry }
    ensures value { result ≡ entry *ℤ ray_raise }
    ensures bound { IsWithin (pos (2 ^ 55)) result }
{
    entry * RAISE
}
