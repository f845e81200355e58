//! How far rounding may move a point of a ray on its way to the world and back.
ghost use Rattle.std.specs.Prelude.{◌≡◌, pos, ◌+ℤ◌, ◌≤ℤ◌};
ghost use Rattle.fixed_geom.specs.Division.{floor_div};
ghost use Rattle.camera.specs.Cameras.{HasRanges, HasReach, drift as drift_of};

use crate::camera::CameraFields;
use crate::opening::{reach, rounding};
use crate::shared::max_depth;

/// The drift of the points of a camera's rays, in micrometres.
pub fn drift(camera: &CameraFields) -> i64
    requires ranges { HasRanges camera.now }
    requires reach { HasReach camera.now }
    ensures value { result ≡ drift_of camera.now }
    ensures low { pos 0 ≤ℤ result }
    ensures high { result ≤ℤ pos 12456 }
{
    let z = max_depth(camera);
    let x = reach(z, camera.fx, camera.width, camera.cx);
    let y = reach(z, camera.fy, camera.height, camera.cy);
    drift_by(x, y, z)
}

/// The drift of points within these distances on the three axes.
fn drift_by(x: i64, y: i64, z: i64) -> i64
    requires x { pos 0 ≤ℤ x }
    requires x_high { x ≤ℤ pos 17000000 }
    requires y { pos 0 ≤ℤ y }
    requires y_high { y ≤ℤ pos 17000000 }
    requires z { pos 0 ≤ℤ z }
    requires z_high { z ≤ℤ pos 17000000 }
    ensures value { result ≡ floor_div (x +ℤ y +ℤ z) (pos 4096) +ℤ pos 5 }
    ensures low { pos 0 ≤ℤ result }
    ensures high { result ≤ℤ pos 12456 }
{
    rounding(x, y, z, 4096) + 5
}
