ghost use Rattle.std.specs.Prelude.{◌≡◌, ◌^◌, pos, ◌≤ℤ◌, ◌<ℤ◌, ◌-ℤ◌, ◌*ℤ◌};
ghost use Rattle.fixed_geom.specs.Division.{floor_div};
ghost use Rattle.fixed_geom.specs.Vectors.{AreWithin, IsWithin};
ghost use Rattle.camera.specs.Cameras.{IsCamera, max_depth, ray as ray_of, ray_axis as ray_axis_of};

use crate::camera::CameraFields;
use fixed_geom::Vec3;

/// The point at depth `z` on the ray of the pixel in column `u` and row `v`.
pub(crate) fn ray(camera: &CameraFields, u: u32, v: u32, z: i64) -> Vec3
    requires camera { IsCamera camera.now }
    requires column { pos u <ℤ camera.now.width }
    requires row { pos v <ℤ camera.now.height }
    requires front { pos 1 ≤ℤ z }
    requires deep { z ≤ℤ max_depth camera.now }
    ensures value { result ≡ ray_of camera.now (pos u) (pos v) z }
    ensures bound { AreWithin (pos 17000000) result }
{
    Vec3 {
        x: ray_axis(camera.fx, camera.cx, u, z),
        y: ray_axis(camera.fy, camera.cy, v, z),
        z,
    }
}

/// One coordinate of the point at depth `z` on the ray of pixel `u`, by the focal length on its axis and the centre.
fn ray_axis(f: i64, c: i64, u: u32, z: i64) -> i64
    requires f { pos 1 ≤ℤ f }
    requires f_high { f ≤ℤ pos 1073741824 }
    requires c { pos 0 ≤ℤ c }
    requires c_high { c ≤ℤ pos 134217728 }
    requires u { pos u <ℤ pos 2048 }
    requires front { pos 1 ≤ℤ z }
    requires deep { z ≤ℤ pos 17000000 }
    ensures { result ≡ ray_axis_of f c (pos u) z }
{
    divided(times(pixel_offset(c, u), z), f)
}

/// How far pixel `u` lies from the centre, in 1/65536 pixel.
pub(crate) fn pixel_offset(c: i64, u: u32) -> i64
    requires c { pos 0 ≤ℤ c }
    requires c_high { c ≤ℤ pos 134217728 }
    requires u { pos u <ℤ pos 2048 }
    ensures value { result ≡ pos 65536 *ℤ pos u -ℤ c }
    ensures bound { IsWithin (pos 134217728) result }
{
    65536 * i64::from(u) - c
}

fn times(offset: i64, z: i64) -> i64
    requires offset { IsWithin (pos 134217728) offset }
    requires front { pos 1 ≤ℤ z }
    requires deep { z ≤ℤ pos 17000000 }
    ensures value { result ≡ offset *ℤ z }
    ensures bound { IsWithin (pos (2 ^ 60)) result }
{
    offset * z
}

/// The floor of `a / f`.
fn divided(a: i64, f: i64) -> i64
    requires f { pos 1 ≤ℤ f }
    ensures { result ≡ floor_div a f }
{
    a.div_euclid(f)
}
