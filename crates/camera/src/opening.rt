ghost use Rattle.std.specs.Prelude.{◌≡◌, ◌+◌, ◌<◌, ◌≤ℤ◌, ◌*ℤ◌, ◌+ℤ◌, ◌-ℤ◌, ◌&&◌, int_le, neg_ℤ, pos, Ok, Err, Some, None, length, unsigned_abs, if◌then◌else◌, IsTrue};
ghost use Rattle.std.specs.Int.{int_max};
ghost use Rattle.fixed_geom.specs.Division.{floor_div};
ghost use Rattle.camera.specs.Cameras.{within as is_within, HasRanges, right as right_of, half as half_of, reach_axis, reach_x as reach_x_of, reach_y as reach_y_of, square as square_of, fits_sphere as fits_sphere_of, has_reach as has_reach_of};
ghost use Rattle.camera.specs.Opening.{camera_tests, first_failing as first_failing_of};
ghost use Rattle.camera.specs.declared.camera.BadCamera.TheVariants.{Reach, Sphere};

use crate::camera::{BadCamera, CameraFields};
use crate::shared::{is_between, left, max_depth};

/// How far from the axis a frame may touch: 17 metres.
const MAX_REACH: i64 = 17000000;

/// The number of the first test that fails, where the first test has the number `first`.
pub fn first_failing(tests: &[bool], first: u8) -> Option<u8>
    requires { first + length tests.now < 256 }
    ensures { result ≡ first_failing_of first tests.now }
{
    let mut number = first;
    for holds in tests {
        if !*holds {
            return Some(number);
        }
        number += 1;
    }
    None
}

/// The number of the first field that is out of its range.
pub fn failing_field(f: CameraFields) -> Option<u8>
    ensures value { result ≡ first_failing_of 2 (camera_tests f) }
    ensures ranges { result ≡ None → HasRanges f }
{
    let tests = [
        is_between(1, 2048, f.width),
        is_between(1, 2048, f.height),
        is_between(1, 1073741824, f.fx),
        is_between(1, 1073741824, f.fy),
        is_in_pixels(f.width, f.cx),
        is_in_pixels(f.height, f.cy),
        is_between(1, 100000, f.unit),
        is_between(1, 16000000, f.near),
        is_between(f.near, 16000000, f.far),
        is_between(1000, 100000, f.voxel),
        is_between(f.voxel, 1000000, f.mu),
        is_between(1, 100000000, f.radius),
        is_between(0, 17000000, f.centre),
    ];
    first_failing(&tests, 2)
}

/// Whether a centre, in 1/65536 pixel, lies within `size` pixels.
fn is_in_pixels(size: i64, c: i64) -> bool
    ensures { result ≡ is_within (pos 0) (pos 65536 *ℤ size) c }
{
    0 <= c && i128::from(c) <= 65536 * i128::from(size)
}

// The opening test. Lengths are micrometres, and offsets in the image are in 1/65536 pixel.

/// What the image has on the right of its centre.
fn right(size: i64, c: i64) -> i64
    requires size { pos 0 ≤ℤ size }
    requires size_high { size ≤ℤ pos 2048 }
    requires c { pos 0 ≤ℤ c }
    requires c_high { c ≤ℤ pos 134217728 }
    ensures value { result ≡ right_of size c }
    ensures low { (neg_ℤ (pos 134250496)) ≤ℤ result }
    ensures high { result ≤ℤ pos 134250496 }
{
    65536 * size - c - 32768
}

/// The greater one of what the image has on both sides of its centre.
fn half(size: i64, c: i64) -> i64
    requires size { pos 0 ≤ℤ size }
    requires size_high { size ≤ℤ pos 2048 }
    requires c { pos 0 ≤ℤ c }
    requires c_high { c ≤ℤ pos 134217728 }
    ensures value { result ≡ half_of size c }
    ensures low { pos 0 ≤ℤ result }
    ensures high { result ≤ℤ pos 134250496 }
{
    left(c).max(right(size, c).abs())
}

fn product(z: i64, half: i64) -> i64
    requires z { pos 0 ≤ℤ z }
    requires z_high { z ≤ℤ pos 17000000 }
    requires half { pos 0 ≤ℤ half }
    requires half_high { half ≤ℤ pos 134250496 }
    ensures value { result ≡ z *ℤ half }
    ensures low { pos 0 ≤ℤ result }
    ensures high { result ≤ℤ pos 2282258432000000 }
{
    z * half
}

fn floor(a: i64, b: i64) -> i64
    requires a { pos 0 ≤ℤ a }
    requires b { pos 1 ≤ℤ b }
    ensures value { result ≡ floor_div a b }
    ensures low { pos 0 ≤ℤ result }
    ensures high { result ≤ℤ a }
{
    a.div_euclid(b)
}

/// How far a point of the image may lie from the axis at depth `z`.
pub fn reach(z: i64, focal: i64, size: i64, c: i64) -> i64
    requires z { pos 0 ≤ℤ z }
    requires z_high { z ≤ℤ pos 17000000 }
    requires focal { pos 1 ≤ℤ focal }
    requires size { pos 0 ≤ℤ size }
    requires size_high { size ≤ℤ pos 2048 }
    requires c { pos 0 ≤ℤ c }
    requires c_high { c ≤ℤ pos 134217728 }
    ensures value { result ≡ reach_axis z focal size c }
    ensures low { pos 0 ≤ℤ result }
{
    floor(product(z, half(size, c)), focal) + 1
}

fn reach_z(max_depth: i64, centre: i64) -> i64
    requires max_depth { pos 0 ≤ℤ max_depth }
    requires max_depth_high { max_depth ≤ℤ pos 17000000 }
    requires centre { pos 0 ≤ℤ centre }
    requires centre_high { centre ≤ℤ pos 17000000 }
    ensures value { result ≡ int_max centre (pos (unsigned_abs (max_depth -ℤ centre))) }
    ensures low { pos 0 ≤ℤ result }
    ensures high { result ≤ℤ pos 17000000 }
{
    centre.max((max_depth - centre).abs())
}

/// What rounding may add to a margin: a part of the sum of the distances on the three axes, by floor.
pub fn rounding(x: i64, y: i64, z: i64, divisor: i64) -> i64
    requires x { pos 0 ≤ℤ x }
    requires x_high { x ≤ℤ pos 17000000 }
    requires y { pos 0 ≤ℤ y }
    requires y_high { y ≤ℤ pos 17000000 }
    requires z { pos 0 ≤ℤ z }
    requires z_high { z ≤ℤ pos 17000000 }
    requires divisor { pos 1 ≤ℤ divisor }
    ensures value { result ≡ floor_div (x +ℤ y +ℤ z) divisor }
    ensures low { pos 0 ≤ℤ result }
    ensures high { result ≤ℤ pos 51000000 }
{
    floor(x + y + z, divisor)
}

fn opening_margin(voxel: i64, rounding: i64) -> i64
    requires voxel { pos 0 ≤ℤ voxel }
    requires voxel_high { voxel ≤ℤ pos 100000 }
    requires rounding { pos 0 ≤ℤ rounding }
    requires rounding_high { rounding ≤ℤ pos 51000000 }
    ensures value { result ≡ pos 14 *ℤ voxel +ℤ rounding +ℤ pos 16 }
    ensures low { pos 0 ≤ℤ result }
    ensures high { result ≤ℤ pos 53000000 }
{
    14 * voxel + rounding + 16
}

fn square(n: i64) -> i64
    requires low { pos 0 ≤ℤ n }
    requires high { n ≤ℤ pos 100000000 }
    ensures value { result ≡ square_of n }
    ensures low { pos 0 ≤ℤ result }
    ensures high { result ≤ℤ pos 10000000000000000 }
{
    n * n
}

fn wide_square(a: i64, opening_margin: i64) -> i64
    requires a { pos 0 ≤ℤ a }
    requires a_high { a ≤ℤ pos 17000000 }
    requires opening_margin { pos 0 ≤ℤ opening_margin }
    requires opening_margin_high { opening_margin ≤ℤ pos 53000000 }
    ensures value { result ≡ square_of (a +ℤ opening_margin) }
    ensures low { pos 0 ≤ℤ result }
    ensures high { result ≤ℤ pos 10000000000000000 }
{
    square(a + opening_margin)
}

fn in_reach(x: i64, y: i64) -> bool
    ensures value { result ≡ (int_le x (pos 17000000) && int_le y (pos 17000000)) }
    ensures bounds { IsTrue result → (x ≤ℤ pos 17000000) × (y ≤ℤ pos 17000000) }
{
    x <= MAX_REACH && y <= MAX_REACH
}

fn is_in_sphere(x: i64, y: i64, z: i64, opening_margin: i64, radius: i64) -> bool
    requires x { pos 0 ≤ℤ x }
    requires x_high { x ≤ℤ pos 17000000 }
    requires y { pos 0 ≤ℤ y }
    requires y_high { y ≤ℤ pos 17000000 }
    requires z { pos 0 ≤ℤ z }
    requires z_high { z ≤ℤ pos 17000000 }
    requires opening_margin { pos 0 ≤ℤ opening_margin }
    requires opening_margin_high { opening_margin ≤ℤ pos 53000000 }
    requires radius { pos 0 ≤ℤ radius }
    requires radius_high { radius ≤ℤ pos 100000000 }
    ensures { result ≡ int_le (square_of (x +ℤ opening_margin) +ℤ square_of (y +ℤ opening_margin) +ℤ square_of (z +ℤ opening_margin)) (square_of radius) }
{
    let x = wide_square(x, opening_margin);
    let y = wide_square(y, opening_margin);
    let z = wide_square(z, opening_margin);
    x + y + z <= square(radius)
}

fn fits_sphere(k: CameraFields, x: i64, y: i64) -> bool
    requires ranges { HasRanges k }
    requires x { x ≡ reach_x_of k }
    requires x_low { pos 0 ≤ℤ x }
    requires x_high { x ≤ℤ pos 17000000 }
    requires y { y ≡ reach_y_of k }
    requires y_low { pos 0 ≤ℤ y }
    requires y_high { y ≤ℤ pos 17000000 }
    ensures { result ≡ fits_sphere_of k }
{
    let z = max_depth(&k);
    let m = opening_margin(k.voxel, rounding(x, y, z, 1024));
    is_in_sphere(x, y, reach_z(z, k.centre), m, k.radius)
}

/// The opening test of fields that are in their ranges: the reach first, then the sphere.
pub fn check_opening(k: CameraFields) -> Result<(), BadCamera>
    requires { HasRanges k }
    ensures { result ≡ (if has_reach_of k then (if fits_sphere_of k then Ok tt else Err Sphere) else Err Reach) }
{
    let top = max_depth(&k);
    let x = reach(top, k.fx, k.width, k.cx);
    let y = reach(top, k.fy, k.height, k.cy);
    if !in_reach(x, y) {
        return Err(BadCamera::Reach);
    }
    if fits_sphere(k, x, y) {
        Ok(())
    } else {
        Err(BadCamera::Sphere)
    }
}
