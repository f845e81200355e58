ghost use Rattle.std.specs.Prelude.{◌≡◌, ◌≤◌, ◌*◌, ◌^◌, pos, ◌+ℤ◌, ◌-ℤ◌, ◌*ℤ◌};
ghost use Rattle.fixed_geom.specs.Vectors.{AreWithin, IsWithin, dot as dot_of};
ghost use Rattle.scan_gen.specs.Scene.{IsInBounds, IsInScene, square as square_of, view_of as view_of_ball, x_of, z_of};

use crate::ball::Ball;
use fixed_geom::Vec3;

/// A frame's view of the scene: where it stands, the offset of the ball's centre from there, and the power of this position to the ball,
/// the square of its distance from the centre less the square of the radius.
#[derive(Clone, Copy)]
pub(crate) struct View {
    pub(crate) x: u32,
    pub(crate) z: u32,
    pub(crate) offset: Vec3,
    pub(crate) power: i64,
}

/// The view of frame `k`.
pub(crate) fn view_of(ball: Ball, k: u32) -> View
    requires { IsInScene ball }
    ensures value { result ≡ view_of_ball ball k }
    ensures bounds { IsInBounds result }
{
    let x = x_at(k);
    let z = z_at(k);
    let offset = Vec3 {
        x: less(ball.centre.x, x),
        y: less(ball.centre.y, 0),
        z: less(ball.centre.z, z),
    };
    View {
        x,
        z,
        offset,
        power: minus(dot(offset, offset), square(ball.radius)),
    }
}

/// How far frame `k` stands to the right.
fn x_at(k: u32) -> u32
    ensures value { result ≡ x_of k }
    ensures bound { result ≤ 780000 }
{
    20_000 * (k % 40)
}

/// How far frame `k` stands forward.
fn z_at(k: u32) -> u32
    ensures value { result ≡ z_of k }
    ensures bound { result ≤ 190000 }
{
    10_000 * (k % 20)
}

/// A coordinate of the ball's centre, from a position.
fn less(centre: i64, position: u32) -> i64
    requires centre { IsWithin (pos 1900000) centre }
    requires position { position ≤ 780000 }
    ensures value { result ≡ centre -ℤ pos position }
    ensures bound { IsWithin (pos 4194304) result }
{
    centre - i64::from(position)
}

/// The product of coordinates of a ray and of an offset.
fn times(a: i64, b: i64) -> i64
    requires a { IsWithin (pos 67108864) a }
    requires b { IsWithin (pos 4194304) b }
    ensures value { result ≡ a *ℤ b }
    // 2^48
    ensures bound { IsWithin (pos 281474976710656) result }
{
    a * b
}

/// The sum of three such products.
fn plus(a: i64, b: i64, c: i64) -> i64
    requires a { IsWithin (pos 281474976710656) a }
    requires b { IsWithin (pos 281474976710656) b }
    requires c { IsWithin (pos 281474976710656) c }
    ensures value { result ≡ (a +ℤ b) +ℤ c }
    // 2^50
    ensures bound { IsWithin (pos 1125899906842624) result }
{
    a + b + c
}

/// The sum of the products of the coordinates of a ray and an offset.
pub(crate) fn dot(a: Vec3, b: Vec3) -> i64
    requires a { AreWithin (pos 67108864) a }
    requires b { AreWithin (pos 4194304) b }
    ensures value { result ≡ dot_of a b }
    // 2^50
    ensures bound { IsWithin (pos 1125899906842624) result }
{
    plus(times(a.x, b.x), times(a.y, b.y), times(a.z, b.z))
}

/// The square of a radius.
fn square(radius: u32) -> i64
    requires { radius ≤ 400000 }
    ensures value { result ≡ square_of radius }
    ensures bound { IsWithin (pos 160000000000) result }
{
    let radius = i64::from(radius);
    radius * radius
}

/// The power of a position, from the squares of the distance and of the radius.
fn minus(distance: i64, radius: i64) -> i64
    requires distance { IsWithin (pos 1125899906842624) distance }
    requires radius { IsWithin (pos 160000000000) radius }
    ensures value { result ≡ distance -ℤ radius }
    // 2^51
    ensures bound { IsWithin (pos 2251799813685248) result }
{
    distance - radius
}
