ghost use Rattle.std.specs.Prelude.{◌≡◌, ◌<◌, pos, ◌≤ℤ◌, IfSome};
ghost use Rattle.depth_frame.specs.DepthMaps.{sample_at};
ghost use Rattle.camera.specs.Cameras.{depth_of};

use camera::Camera;
use depth_frame::DepthFrame;

/// The depth that the pixel in column `u` and row `v` shows, in micrometres. `None` where its sample is not valid.
pub fn depth_at(camera: &Camera, depths: &DepthFrame, u: u32, v: u32) -> Option<i64>
    requires column { u < depths.now.width }
    requires row { v < depths.now.height }
    ensures value { result ≡ depth_of camera.now (sample_at depths.now u v) }
    ensures range { IfSome result (λ d. (pos 1 ≤ℤ d) × (d ≤ℤ camera.now.far)) }
{
    camera.depth(depths.at(u, v))
}
