ghost use Rattle.std.specs.Prelude.{◌≡◌, ◌^◌, pos, ◌+ℤ◌, ◌-ℤ◌, ◌≤ℤ◌, int_le};
ghost use Rattle.fixed_geom.specs.Vectors.{AreWithin, IsWithin};
ghost use Rattle.camera.specs.Cameras.{HasRanges, chunk_margin as chunk_margin_of, is_in_sphere as is_in_sphere_of, is_near_sphere as is_near_sphere_of, least_size as least_size_of, square};

use crate::camera::CameraFields;
use fixed_geom::Vec3;

/// Whether a camera point lies in the active sphere: its centre is the point at the depth `centre` on the axis.
pub fn is_in_sphere(camera: &CameraFields, point: Vec3) -> bool
    requires camera { HasRanges camera.now }
    requires point { AreWithin (pos (2 ^ 42)) point }
    ensures { result ≡ is_in_sphere_of camera.now point }
{
    let offset = offset_from_centre(camera, point.z);
    is_within_radius(camera, point.x, point.y, offset)
}

/// Whether the active sphere comes within the chunk margin of a camera point. Where the point is the centre of a chunk
/// and it does not, no block of the chunk is active.
pub fn is_near_sphere(camera: &CameraFields, point: Vec3) -> bool
    requires camera { HasRanges camera.now }
    requires point { AreWithin (pos (2 ^ 42)) point }
    ensures { result ≡ is_near_sphere_of camera.now point }
{
    let margin = chunk_margin(camera);
    let offset = offset_from_centre(camera, point.z);
    is_within_radius(
        camera,
        least_size(margin, point.x),
        least_size(margin, point.y),
        least_size(margin, offset),
    )
}

/// How far the camera point of a block's centre may lie from that of its chunk's centre, on each axis: 49 voxels.
fn chunk_margin(camera: &CameraFields) -> i64
    requires { HasRanges camera.now }
    ensures value { result ≡ chunk_margin_of camera.now }
    ensures low { pos 0 ≤ℤ result }
    ensures high { result ≤ℤ pos 4900000 }
{
    49 * camera.voxel
}

/// The least size of a number that is within `margin` of `n`.
fn least_size(margin: i64, n: i64) -> i64
    requires low { pos 0 ≤ℤ margin }
    requires high { margin ≤ℤ pos 4900000 }
    requires n { IsWithin (pos (2 ^ 43)) n }
    ensures value { result ≡ least_size_of margin n }
    ensures bound { IsWithin (pos (2 ^ 43)) result }
{
    0i64.max(n.abs() - margin)
}

/// Whether a point at these offsets from the centre of the sphere lies in it.
fn is_within_radius(camera: &CameraFields, x: i64, y: i64, z: i64) -> bool
    requires camera { HasRanges camera.now }
    requires x { IsWithin (pos (2 ^ 43)) x }
    requires y { IsWithin (pos (2 ^ 43)) y }
    requires z { IsWithin (pos (2 ^ 43)) z }
    ensures { result ≡ int_le (square x +ℤ square y +ℤ square z) (square camera.now.radius) }
{
    squared(x) + squared(y) + squared(z) <= squared(camera.radius)
}

/// The offset of a depth from the centre of the sphere, on the axis.
fn offset_from_centre(camera: &CameraFields, depth: i64) -> i64
    requires camera { HasRanges camera.now }
    requires depth { IsWithin (pos (2 ^ 42)) depth }
    ensures value { result ≡ depth -ℤ camera.now.centre }
    ensures bound { IsWithin (pos (2 ^ 43)) result }
{
    depth - camera.centre
}

fn squared(n: i64) -> i128
    requires { IsWithin (pos (2 ^ 43)) n }
    ensures value { result ≡ square n }
    ensures bound { IsWithin (pos (2 ^ 86)) result }
{
    i128::from(n) * i128::from(n)
}
