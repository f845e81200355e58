ghost use Rattle.std.specs.Prelude.{◌≡◌, ◌≤◌, ◌+◌, ◌-◌, ◌*◌, ◌^◌, pos, ◌-ℤ◌, ◌*ℤ◌, ◌≤ℤ◌, unsigned_abs, option_to_list};
ghost use Rattle.fixed_geom.specs.Vectors.{IsWithin};
ghost use Rattle.scan_gen.specs.Scene.{IsInBounds, back_wall as back_wall_of, ball_met as ball_met_of, depth as depth_of, discriminant_of, least, near_side as near_side_of, plane_met as plane_met_of, ray_square, root as root_of};

use crate::root::root;
use crate::view::{View, dot};
use fixed_geom::Vec3;

/// The focal length, in units of `2^-16` pixels.
const FOCAL: u32 = 34_406_400;

/// The depth of the back wall or the floor in a row, whichever is nearer.
pub(crate) fn row_depth(view: &View, dy: i64) -> u64
    requires bounds { IsInBounds view.now }
    requires dy { IsWithin (pos 67108864) dy }
    ensures value { result ≡ least (back_wall_of view.now) (plane_met_of 1000000 dy) }
    ensures bound { result ≤ 2500000 }
{
    nearer(back_wall(view.z), plane_met(1_000_000, dy))
}

/// The back wall's depth.
fn back_wall(z: u32) -> u64
    requires { z ≤ 190000 }
    ensures value { result ≡ 2500000 - z }
    ensures bound { result ≤ 2500000 }
{
    u64::from(2_500_000 - z)
}

/// The depth of the nearest surface at a pixel, of whose row the depth is known.
pub(crate) fn depth(view: &View, row: u64, dx: i64, dy: i64) -> u64
    requires bounds { IsInBounds view.now }
    requires row { row ≡ least (back_wall_of view.now) (plane_met_of 1000000 dy) }
    requires dx { IsWithin (pos 67108864) dx }
    requires dy { IsWithin (pos 67108864) dy }
    ensures value { result ≡ depth_of view.now dx dy }
    ensures bound { result ≤ row }
{
    let right = nearer(row, plane_met(1_400_000 - view.x, dx));
    let left = nearer(right, plane_met(1_400_000 + view.x, -dx));
    nearer(left, ball_met(view, dx, dy))
}

/// The lesser one of a depth and another, where there is another.
fn nearer(depth: u64, other: Option<u128>) -> u64
    ensures value { result ≡ least depth (option_to_list other) }
    ensures bound { result ≤ depth }
{
    match other {
        Some(other) => other.min(u128::from(depth)) as u64,
        None => depth,
    }
}

/// How deep a plane is met at `distance` from the optical axis.
fn plane_met(distance: u32, offset: i64) -> Option<u128>
    ensures { option_to_list result ≡ plane_met_of distance offset }
{
    if offset > 0 {
        let product = u64::from(distance) * u64::from(FOCAL);
        Some(u128::from(product / offset.unsigned_abs()))
    } else {
        None
    }
}

/// How deep the ball is met.
fn ball_met(view: &View, dx: i64, dy: i64) -> Option<u128>
    requires bounds { IsInBounds view.now }
    requires dx { IsWithin (pos 67108864) dx }
    requires dy { IsWithin (pos 67108864) dy }
    ensures { option_to_list result ≡ ball_met_of view.now dx dy }
{
    let ray = Vec3 {
        x: dx,
        y: dy,
        z: i64::from(FOCAL),
    };
    let squared = squared(dx.unsigned_abs(), dy.unsigned_abs());
    let along = dot(ray, view.offset);
    near_side(squared, along, discriminant(squared, along, view.power))
}

/// The square of a ray.
fn squared(dx: u64, dy: u64) -> u64
    requires dx { dx ≤ 67108864 }
    requires dy { dy ≤ 67108864 }
    ensures value { result ≡ (dx * dx + dy * dy) + 34406400 * 34406400 }
    ensures least { 1 ≤ result }
    // 2^54
    ensures bound { result ≤ 18014398509481984 }
{
    let focal = u64::from(FOCAL);
    dx * dx + dy * dy + focal * focal
}

/// The discriminant of the equation for the points of a ray on the ball.
fn discriminant(squared: u64, along: i64, power: i64) -> i128
    requires squared { squared ≤ 18014398509481984 }
    requires along { IsWithin (pos 1125899906842624) along }
    requires power { IsWithin (pos 2251799813685248) power }
    ensures value { result ≡ discriminant_of squared along power }
{
    wide_minus(wide_times(along, along), wide_times(squared as i64, power))
}

/// A product of 128 bits.
fn wide_times(a: i64, b: i64) -> i128
    requires a { unsigned_abs a ≤ 18014398509481984 }
    requires b { unsigned_abs b ≤ 18014398509481984 }
    ensures value { result ≡ a *ℤ b }
    ensures bound { unsigned_abs result ≤ 2 ^ 108 }
{
    i128::from(a) * i128::from(b)
}

/// The difference of two such products.
fn wide_minus(a: i128, b: i128) -> i128
    requires a { unsigned_abs a ≤ 2 ^ 108 }
    requires b { unsigned_abs b ≤ 2 ^ 108 }
    ensures { result ≡ a -ℤ b }
{
    a - b
}

/// The depth of the near side of the ball.
fn near_side(squared: u64, along: i64, discriminant: i128) -> Option<u128>
    requires some { 1 ≤ squared }
    requires outside { pos 0 ≤ℤ discriminant → root_of (unsigned_abs discriminant) ≤ unsigned_abs along }
    ensures { option_to_list result ≡ near_side_of squared along discriminant }
{
    if along > 0 && discriminant >= 0 {
        let before = along.unsigned_abs() - root(discriminant.unsigned_abs());
        Some(u128::from(FOCAL) * u128::from(before) / u128::from(squared))
    } else {
        None
    }
}
