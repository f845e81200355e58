ghost use Rattle.std.specs.Prelude.{◌≡◌, ◌^◌, pos, neg_ℤ, ◌+ℤ◌, ◌-ℤ◌, ◌*ℤ◌, ◌≤ℤ◌, int_le};
ghost use Rattle.std.specs.Int.{int_max};
ghost use Rattle.fixed_geom.specs.Vectors.{AreWithin, IsWithin};
ghost use Rattle.camera.specs.Cameras.{HasRanges, right as right_of};
ghost use Rattle.camera.specs.Visibility.{is_at_depth as is_at_depth_of, is_between_sides as is_between_sides_of, is_in_view as is_in_view_of, margin as margin_of, is_visible_at, side_depth as side_depth_of};

use crate::camera::CameraFields;
use crate::shared::{left, max_depth, times};
use fixed_geom::Vec3;

/// Whether a block whose centre has this camera point is visible. Where it is not, none of its
/// voxels projects inside the image at a depth that a frame may touch.
pub fn may_see(camera: &CameraFields, centre: Vec3) -> bool
    requires camera { HasRanges camera.now }
    requires centre { AreWithin (pos (2 ^ 42)) centre }
    ensures { result ≡ is_visible_at camera.now centre }
{
    is_at_depth(camera, centre.z) && is_in_view(camera, centre)
}

/// Whether a depth that a frame may touch is within the margin of `z`.
fn is_at_depth(camera: &CameraFields, z: i64) -> bool
    requires camera { HasRanges camera.now }
    requires z { IsWithin (pos (2 ^ 42)) z }
    ensures { result ≡ is_at_depth_of camera.now z }
{
    let margin = margin(camera);
    1 <= z + margin && z - margin <= max_depth(camera)
}

/// Whether a point between the sides of the image is within the margin of this camera point.
fn is_in_view(camera: &CameraFields, centre: Vec3) -> bool
    requires camera { HasRanges camera.now }
    requires centre { AreWithin (pos (2 ^ 42)) centre }
    ensures { result ≡ is_in_view_of camera.now centre }
{
    let (margin, depth) = (margin(camera), side_depth(camera, centre.z));
    is_between_sides(camera.fx, camera.cx, camera.width, margin, centre.x, depth)
        && is_between_sides(camera.fy, camera.cy, camera.height, margin, centre.y, depth)
}

/// The margin of the test round the camera point of a block's centre: 14 voxels.
fn margin(camera: &CameraFields) -> i64
    requires { HasRanges camera.now }
    ensures value { result ≡ margin_of camera.now }
    ensures bound { IsWithin (pos 1400000) result }
{
    14 * camera.voxel
}

/// The greatest depth within the margin of `z` that a frame may touch.
fn side_depth(camera: &CameraFields, z: i64) -> i64
    requires camera { HasRanges camera.now }
    requires z { IsWithin (pos (2 ^ 42)) z }
    ensures value { result ≡ side_depth_of camera.now z }
    ensures bound { IsWithin (pos (2 ^ 43)) result }
{
    (z + margin(camera)).min(max_depth(camera))
}

/// Whether what is within `margin` of `x` reaches between both sides of the image at a depth.
fn is_between_sides(f: i64, c: i64, size: i64, margin: i64, x: i64, depth: i64) -> bool
    requires f { IsWithin (pos (2 ^ 30)) f }
    requires c { IsWithin (pos (2 ^ 27)) c }
    requires size { IsWithin (pos 2048) size }
    requires margin { IsWithin (pos 1400000) margin }
    requires x { IsWithin (pos (2 ^ 42)) x }
    requires depth { IsWithin (pos (2 ^ 43)) depth }
    ensures { result ≡ is_between_sides_of f c size margin x depth }
{
    reaches_low_side(f, x + margin, left(c), depth)
        && reaches_high_side(f, x - margin, right(size, c), depth)
}

/// What the image has on the right of its centre, at least 0.
fn right(size: i64, c: i64) -> i64
    requires size { IsWithin (pos 2048) size }
    requires c { IsWithin (pos (2 ^ 27)) c }
    ensures value { result ≡ int_max (pos 0) (right_of size c) }
    ensures bound { IsWithin (pos (2 ^ 30)) result }
{
    0i64.max(65536 * size - c - 32768)
}

/// Whether a point at `x` is at or past the low side of the image, that is the left or the upper one.
fn reaches_low_side(f: i64, x: i64, side: i64, depth: i64) -> bool
    requires f { IsWithin (pos (2 ^ 30)) f }
    requires x { IsWithin (pos (2 ^ 43)) x }
    requires side { IsWithin (pos (2 ^ 30)) side }
    requires depth { IsWithin (pos (2 ^ 43)) depth }
    ensures { result ≡ int_le (neg_ℤ (side *ℤ depth)) (f *ℤ x) }
{
    -times(side, depth) <= times(f, x)
}

/// Whether a point at `x` is not past the high side, that is the right or the lower one.
fn reaches_high_side(f: i64, x: i64, side: i64, depth: i64) -> bool
    requires f { IsWithin (pos (2 ^ 30)) f }
    requires x { IsWithin (pos (2 ^ 43)) x }
    requires side { IsWithin (pos (2 ^ 30)) side }
    requires depth { IsWithin (pos (2 ^ 43)) depth }
    ensures { result ≡ int_le (f *ℤ x) (side *ℤ depth) }
{
    times(f, x) <= times(side, depth)
}
