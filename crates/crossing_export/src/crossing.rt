ghost use Rattle.std.specs.Prelude.{◌≡◌, pos, ◌≤ℤ◌};
ghost use Rattle.fixed_geom.specs.Vectors.{AreWithin, vec};
ghost use Rattle.crossing_export.specs.Crossings.{crossing_of, moved as moved_of};

use fixed_geom::Vec3;

/// A point of the surface, in whole micrometres.
#[derive(Clone, Copy, Debug, PartialEq, Eq)]
pub struct Crossing {
    pub x: i32,
    pub y: i32,
    pub z: i32,
}

/// An axis of the grid.
#[derive(Clone, Copy)]
pub(crate) enum Axis {
    X,
    Y,
    Z,
}

/// The crossing at `d` behind a point, along an axis.
pub(crate) fn moved(axis: Axis, p: Vec3, d: i64) -> Crossing
    requires p { AreWithin (pos 1074441824) p }
    requires low { pos 0 ≤ℤ d }
    requires high { d ≤ℤ pos 100000 }
    ensures { result ≡ crossing_of (moved_of axis d p) }
{
    match axis {
        Axis::X => as_crossing(p.x + d, p.y, p.z),
        Axis::Y => as_crossing(p.x, p.y + d, p.z),
        Axis::Z => as_crossing(p.x, p.y, p.z + d),
    }
}

/// The crossing with these coordinates.
fn as_crossing(x: i64, y: i64, z: i64) -> Crossing
    requires { AreWithin (pos 2147483647) (vec x y z) }
    ensures { result ≡ crossing_of (vec x y z) }
{
    Crossing {
        x: x as i32,
        y: y as i32,
        z: z as i32,
    }
}
