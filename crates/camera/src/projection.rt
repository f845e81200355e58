ghost use Rattle.std.specs.Prelude.{◌≡◌, ◌^◌, pos, ◌+ℤ◌, ◌-ℤ◌, ◌*ℤ◌, ◌≤ℤ◌, ◌<ℤ◌, unsigned_abs, IfSome, Some, None, if◌then◌else◌};
ghost use Rattle.fixed_geom.specs.Division.{floor_div};
ghost use Rattle.fixed_geom.specs.Vectors.{AreWithin, IsWithin};
ghost use Rattle.camera.specs.Cameras.{HasRanges, depth_of, is_in_image, project as pixel_of, within};

use crate::camera::CameraFields;
use crate::shared::{is_between, times};
use fixed_geom::Vec3;

/// The depth of a raw sample, in micrometres. `None` where the sample is 0, or the depth is
/// below `near` or above `far`.
pub fn depth(camera: &CameraFields, raw: u16) -> Option<i64>
    requires { HasRanges camera.now }
    ensures { result ≡ depth_of camera.now raw }
{
    if raw == 0 {
        return None;
    }
    let depth = i64::from(raw) * camera.unit;
    is_between(camera.near, camera.far, depth).then_some(depth)
}

/// The pixel (column, row) that a camera point projects to. `None` where the point is not in front of the
/// camera, or the pixel nearest to it is not one of the image's.
pub fn project(camera: &CameraFields, point: Vec3) -> Option<(u32, u32)>
    requires camera { HasRanges camera.now }
    requires point { AreWithin (pos (2 ^ 42)) point }
    ensures value { result ≡ pixel_of camera.now point }
    ensures inside { IfSome result (λ p. ((pos p.0) <ℤ camera.now.width) × ((pos p.1) <ℤ camera.now.height)) }
{
    if point.z <= 0 {
        return None;
    }
    let u = pixel_times_depth(camera.fx, camera.cx, point.x, point.z);
    let v = pixel_times_depth(camera.fy, camera.cy, point.y, point.z);
    pixel_in_image(camera, u, v, point.z)
}

/// The pixel with the coordinates `u / z` and `v / z`. `None` where it is not one of the image's, which costs no
/// division.
fn pixel_in_image(camera: &CameraFields, u: i64, v: i64, z: i64) -> Option<(u32, u32)>
    requires camera { HasRanges camera.now }
    requires z { IsWithin (pos (2 ^ 42)) z }
    requires front { pos 1 ≤ℤ z }
    ensures value { result ≡ (if is_in_image camera.now (floor_div u z) (floor_div v z) then Some (unsigned_abs (floor_div u z), unsigned_abs (floor_div v z)) else None) }
    ensures inside { IfSome result (λ p. ((pos p.0) <ℤ camera.now.width) × ((pos p.1) <ℤ camera.now.height)) }
{
    if !is_across(u, camera.width, z) {
        return None;
    }
    if !is_across(v, camera.height, z) {
        return None;
    }
    Some((pixel(u, z), pixel(v, z)))
}

/// The pixel coordinate of a point at depth `z`, times `z`, as a floor.
fn pixel_times_depth(f: i64, c: i64, x: i64, z: i64) -> i64
    requires f { IsWithin (pos (2 ^ 30)) f }
    requires c { IsWithin (pos (2 ^ 27)) c }
    requires x { IsWithin (pos (2 ^ 42)) x }
    requires z { IsWithin (pos (2 ^ 42)) z }
    ensures { result ≡ floor_div (f *ℤ x +ℤ c *ℤ z +ℤ pos 32768 *ℤ z) (pos 65536) }
{
    (times(f, x) + times(c + 32768, z)).div_euclid(65536) as i64
}

/// Whether the pixel coordinate `scaled / z` is one of the image's.
fn is_across(scaled: i64, size: i64, z: i64) -> bool
    requires size { IsWithin (pos 2048) size }
    requires z { IsWithin (pos (2 ^ 42)) z }
    requires front { pos 1 ≤ℤ z }
    ensures { result ≡ within (pos 0) (size -ℤ pos 1) (floor_div scaled z) }
{
    is_between(0, size * z - 1, scaled)
}

/// The pixel coordinate `scaled / z`.
fn pixel(scaled: i64, z: i64) -> u32
    requires front { pos 1 ≤ℤ z }
    requires low { pos 0 ≤ℤ floor_div scaled z }
    requires high { floor_div scaled z ≤ℤ pos 2047 }
    ensures { pos result ≡ floor_div scaled z }
{
    scaled.div_euclid(z) as u32
}
