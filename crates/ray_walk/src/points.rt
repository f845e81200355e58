ghost use Rattle.std.specs.Prelude.{◌≡◌, ◌<◌, ◌≤◌, pos, ◌≤ℤ◌, ◌-ℤ◌};
ghost use Rattle.fixed_geom.specs.Division.{floor_div as floor_of};
ghost use Rattle.camera.specs.Cameras.{HasRanges};
ghost use Rattle.ray_walk.specs.Points.{point_count as point_count_of, point_depth as point_depth_of};

use crate::division::{floor_div, times};
use camera::CameraFields;

/// The number of points of a walk.
pub fn point_count(camera: &CameraFields) -> u32
    requires { HasRanges camera.now }
    ensures value { result ≡ point_count_of camera.now }
    ensures least { 1 ≤ result }
    ensures greatest { result ≤ 16000 }
{
    step_count(camera) as u32 + 1
}

/// The number of steps of a walk.
fn step_count(camera: &CameraFields) -> i64
    requires { HasRanges camera.now }
    ensures value { result ≡ floor_of (camera.now.far -ℤ camera.now.near) camera.now.voxel }
    ensures low { pos 0 ≤ℤ result }
    ensures high { result ≤ℤ pos 15999 }
{
    floor_div(camera.far - camera.near, camera.voxel)
}

/// The depth of point `j` of a walk.
pub fn point_depth(camera: &CameraFields, j: u32) -> i64
    requires ranges { HasRanges camera.now }
    requires point { j < point_count_of camera.now }
    ensures value { result ≡ point_depth_of camera.now j }
    ensures near { camera.now.near ≤ℤ result }
    ensures far { result ≤ℤ camera.now.far }
{
    camera.near + times(camera.voxel, i64::from(j))
}
