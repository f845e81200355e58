ghost use Rattle.std.specs.Prelude.{◌≡◌, ◌^◌, pos, ◌+◌, ◌≤◌, ◌+ℤ◌, ◌-ℤ◌, ◌*ℤ◌, int_lt, unsigned_abs};
ghost use Rattle.fixed_geom.specs.Division.{floor_div};
ghost use Rattle.fixed_geom.specs.PoseTest.{is_near as is_near_of};
ghost use Rattle.fixed_geom.specs.Poses.{entry_bound, unit_squared, translation_bound, unit};
ghost use Rattle.fixed_geom.specs.Vectors.{AreWithin, IsWithin, cross as cross_of, dot as dot_of, minus as minus_of};

use crate::bounds::is_near;
use crate::vector::Vec3;

/// `2^60`, the square of one.
const UNIT_SQUARED: i128 = 1 << 60;

fn times(a: i64, b: i64) -> i128
    requires a { IsWithin (pos (2 ^ 31)) a }
    requires b { IsWithin (pos (2 ^ 62)) b }
    ensures value { result ≡ a *ℤ b }
    ensures bound { unsigned_abs result ≤ 2 ^ 93 }
{
    i128::from(a) * i128::from(b)
}

fn plus(a: i128, b: i128) -> i128
    requires a { unsigned_abs a ≤ 2 ^ 100 }
    requires b { unsigned_abs b ≤ 2 ^ 100 }
    ensures value { result ≡ a +ℤ b }
    ensures bound { unsigned_abs result ≤ unsigned_abs a + unsigned_abs b }
{
    a + b
}

fn minus(a: i64, b: i64) -> i64
    requires a { IsWithin (pos (2 ^ 61)) a }
    requires b { IsWithin (pos (2 ^ 61)) b }
    ensures value { result ≡ a -ℤ b }
    ensures bound { IsWithin (pos (2 ^ 62)) result }
{
    a - b
}

/// The sum of the products of the coordinates.
pub(crate) fn dot(a: Vec3, b: Vec3) -> i128
    requires a { AreWithin (pos (2 ^ 31)) a }
    requires b { AreWithin (pos (2 ^ 62)) b }
    ensures value { result ≡ dot_of a b }
    ensures bound { IsWithin (pos (2 ^ 95)) result }
{
    plus(plus(times(a.x, b.x), times(a.y, b.y)), times(a.z, b.z))
}

/// The product of two entries.
fn product(a: i64, b: i64) -> i64
    requires a { IsWithin entry_bound a }
    requires b { IsWithin entry_bound b }
    ensures value { result ≡ a *ℤ b }
    ensures bound { IsWithin (pos (2 ^ 61)) result }
{
    a * b
}

/// The cross product of two rows.
pub(crate) fn cross(a: Vec3, b: Vec3) -> Vec3
    requires a { AreWithin entry_bound a }
    requires b { AreWithin entry_bound b }
    ensures value { result ≡ cross_of a b }
    ensures bound { AreWithin (pos (2 ^ 62)) result }
{
    Vec3 {
        x: minus(product(a.y, b.z), product(a.z, b.y)),
        y: minus(product(a.z, b.x), product(a.x, b.z)),
        z: minus(product(a.x, b.y), product(a.y, b.x)),
    }
}

/// Whether the square of a column is nearly that of one.
pub(crate) fn is_nearly_unit(column: Vec3) -> bool
    requires { AreWithin entry_bound column }
    ensures { result ≡ is_near_of unit_squared (dot_of column column) }
{
    is_near(UNIT_SQUARED, dot(column, column))
}

/// Whether two columns are nearly at a right angle.
pub(crate) fn are_nearly_orthogonal(a: Vec3, b: Vec3) -> bool
    requires a { AreWithin entry_bound a }
    requires b { AreWithin entry_bound b }
    ensures { result ≡ is_near_of (pos 0) (dot_of a b) }
{
    is_near(0, dot(a, b))
}

/// Whether the determinant of three rows is positive.
pub(crate) fn is_right_handed(x: Vec3, y: Vec3, z: Vec3) -> bool
    requires x { AreWithin entry_bound x }
    requires y { AreWithin entry_bound y }
    requires z { AreWithin entry_bound z }
    ensures { result ≡ int_lt (pos 0) (dot_of x (cross_of y z)) }
{
    0 < dot(x, cross(y, z))
}

/// The offset of a point from the translation `t`.
pub(crate) fn offset_from(p: Vec3, t: Vec3) -> Vec3
    requires p { AreWithin (pos (2 ^ 40)) p }
    requires t { AreWithin translation_bound t }
    ensures value { result ≡ minus_of p t }
    // 2^40 and 10^8
    ensures bound { AreWithin (pos 1099611627776) result }
{
    Vec3 {
        x: minus(p.x, t.x),
        y: minus(p.y, t.y),
        z: minus(p.z, t.z),
    }
}

/// How far an offset goes along a row or a column of a rotation, in whole micrometres.
pub(crate) fn along(line: Vec3, offset: Vec3) -> i64
    requires line { AreWithin entry_bound line }
    requires offset { AreWithin (pos 1099611627776) offset }
    ensures value { result ≡ floor_div (dot_of line offset) unit }
    // 2^42 less 10^8
    ensures bound { IsWithin (pos 4397946511104) result }
{
    micrometres(along_q30(line, offset))
}

/// How far an offset goes along a row or a column of a rotation, in units of `2^-30` micrometres.
pub(crate) fn along_q30(line: Vec3, offset: Vec3) -> i128
    requires line { AreWithin entry_bound line }
    requires offset { AreWithin (pos 1099611627776) offset }
    ensures value { result ≡ dot_of line offset }
    ensures bound { IsWithin (pos (2 ^ 72)) result }
{
    dot(line, offset)
}

/// The floor, in whole micrometres, of a length in units of `2^-30` micrometres.
pub(crate) fn micrometres(q30: i128) -> i64
    requires { IsWithin (pos (2 ^ 72)) q30 }
    ensures value { result ≡ floor_div q30 unit }
    ensures bound { IsWithin (pos (2 ^ 42)) result }
{
    q30.div_euclid(1 << 30) as i64
}

/// A coordinate of a point, from the translation's.
pub(crate) fn moved(t: i64, offset: i64) -> i64
    requires t { IsWithin translation_bound t }
    requires offset { IsWithin (pos 4397946511104) offset }
    ensures value { result ≡ t +ℤ offset }
    ensures bound { IsWithin (pos (2 ^ 42)) result }
{
    t + offset
}
