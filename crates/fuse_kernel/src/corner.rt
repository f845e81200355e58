//! The scaled camera coordinates of a block's first voxel. They take 128 bits where the block may lie anywhere, and fit 64
//! where it is visible.
ghost use Rattle.std.specs.Prelude.{◌≡◌, ◌^◌, pos, IsTrue};
ghost use Rattle.camera.specs.Grid.{point_of};
ghost use Rattle.camera.specs.Visibility.{is_visible};
ghost use Rattle.fuse_kernel.specs.VoxelSteps.{NearCamQ30Within, cam_q30_of, near_of};

use crate::near_cam_q30::NearCamQ30;
use camera::Camera;
use fixed_geom::{CamQ30, Pose};
use voxel_block::BlockKey;

/// The scaled camera coordinates of the first voxel of a visible block.
pub fn corner(camera: &Camera, pose: &Pose, key: BlockKey) -> NearCamQ30
    requires { IsTrue (is_visible camera.now pose.now key) }
    ensures value { result ≡ cam_q30_of pose.now (point_of camera.now.voxel key 0) }
    ensures bound { NearCamQ30Within (pos (2 ^ 55)) result }
{
    // A camera's fields are in their ranges, which bounds the coordinates.
    let _camera = camera.fields();
    narrow(pose.cam_q30(camera.voxel_point(key, 0)))
}

/// The same coordinates in 64 bits.
fn narrow(far: CamQ30) -> NearCamQ30
    requires { NearCamQ30Within (pos (2 ^ 55)) (near_of far) }
    ensures value { result ≡ near_of far }
    ensures bound { NearCamQ30Within (pos (2 ^ 55)) result }
{
    NearCamQ30 {
        x: far.x as i64,
        y: far.y as i64,
        z: far.z as i64,
    }
}
