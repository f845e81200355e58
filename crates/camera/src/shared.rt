//! What several of a camera's tests share.
ghost use Rattle.std.specs.Prelude.{◌≡◌, ◌^◌, ◌≤◌, pos, ◌≤ℤ◌, ◌*ℤ◌, unsigned_abs};
ghost use Rattle.fixed_geom.specs.Vectors.{IsWithin};
ghost use Rattle.camera.specs.Cameras.{HasRanges, left as left_of, max_depth as max_depth_of, within};

use crate::camera::CameraFields;

/// Whether a value is in the range from `low` to `high`.
pub fn is_between(low: i64, high: i64, value: i64) -> bool
    ensures { result ≡ within low high value }
{
    low <= value && value <= high
}

/// The greatest depth that a frame may touch.
pub fn max_depth(camera: &CameraFields) -> i64
    requires { HasRanges camera.now }
    ensures value { result ≡ max_depth_of camera.now }
    ensures low { pos 0 ≤ℤ result }
    ensures bound { IsWithin (pos 17000000) result }
{
    camera.far + camera.mu
}

/// What the image has on the left of its centre, in 1/65536 pixel.
pub fn left(c: i64) -> i64
    requires { IsWithin (pos (2 ^ 27)) c }
    ensures value { result ≡ left_of c }
    ensures bound { IsWithin (pos 134250496) result }
{
    c + 32768
}

/// The product of a number of 30 bits and one of 43 bits, each with a sign.
pub fn times(a: i64, b: i64) -> i128
    requires a { IsWithin (pos (2 ^ 30)) a }
    requires b { IsWithin (pos (2 ^ 43)) b }
    ensures value { result ≡ a *ℤ b }
    ensures bound { unsigned_abs result ≤ 2 ^ 73 }
{
    i128::from(a) * i128::from(b)
}
