ghost use Rattle.std.specs.Prelude.{◌≡◌, ◌^◌, ◌<◌, ◌/◌, ◌%◌, pos, ◌+ℤ◌, ◌*ℤ◌, ◌≤ℤ◌, IsTrue};
ghost use Rattle.fixed_geom.specs.Poses.{entry_bound};
ghost use Rattle.fixed_geom.specs.Vectors.{IsWithin, vec};
ghost use Rattle.camera.specs.Visibility.{is_visible};
ghost use Rattle.fuse_kernel.specs.VoxelSteps.{HasStepBounds, NearCamQ30Within, cam_q30_at, step_by, voxel_steps_of};

use crate::corner::corner;
use crate::near_cam_q30::NearCamQ30;
use camera::Camera;
use fixed_geom::{Pose, PoseRows};
use voxel_block::BlockKey;

/// Steps over the voxels of a block: the scaled camera coordinates of its first voxel, and what a step of one voxel along
/// each axis of the block adds to them.
#[derive(Clone, Copy)]
pub struct VoxelSteps {
    pub corner: NearCamQ30,
    pub x: NearCamQ30,
    pub y: NearCamQ30,
    pub z: NearCamQ30,
}

impl VoxelSteps {
    /// The steps over a visible block.
    pub fn make(camera: &Camera, pose: &Pose, key: BlockKey) -> VoxelSteps
        requires { IsTrue (is_visible camera.now pose.now key) }
        ensures value { result ≡ voxel_steps_of camera.now.voxel pose.now key }
        ensures bound { HasStepBounds result }
    {
        let PoseRows { r, .. } = pose.rows();
        let voxel = camera.fields().voxel;
        VoxelSteps {
            corner: corner(camera, pose, key),
            x: step(voxel, r[0], r[1], r[2]),
            y: step(voxel, r[3], r[4], r[5]),
            z: step(voxel, r[6], r[7], r[8]),
        }
    }

    /// The scaled camera coordinates of the first voxel of a row along x. A block has 64 rows, 8 for each z.
    pub fn row(&self, row: u16) -> NearCamQ30
        requires bound { HasStepBounds self.now }
        requires row { row < 64 }
        ensures { result ≡ cam_q30_at self.now (pos 0) (pos (row % 8)) (pos (row / 8)) }
    {
        let (y, z) = (i64::from(row % 8), i64::from(row / 8));
        NearCamQ30 {
            x: row_axis(self.corner.x, self.y.x, y, self.z.x, z),
            y: row_axis(self.corner.y, self.y.y, y, self.z.y, z),
            z: row_axis(self.corner.z, self.y.z, y, self.z.z, z),
        }
    }
}

/// A row's first voxel on one axis of the camera: `y` steps of `b` and `z` steps of `c` from the corner.
fn row_axis(corner: i64, b: i64, y: i64, c: i64, z: i64) -> i64
    requires corner { IsWithin (pos (2 ^ 55)) corner }
    requires b { IsWithin (pos (2 ^ 47)) b }
    requires y { IsWithin (pos 8) y }
    requires c { IsWithin (pos (2 ^ 47)) c }
    requires z { IsWithin (pos 8) z }
    ensures { result ≡ corner +ℤ y *ℤ b +ℤ z *ℤ c }
{
    corner + steps_axis(y, b) + steps_axis(z, c)
}

fn steps_axis(n: i64, step: i64) -> i64
    requires n { IsWithin (pos 8) n }
    requires step { IsWithin (pos (2 ^ 47)) step }
    ensures value { result ≡ n *ℤ step }
    ensures bound { IsWithin (pos (2 ^ 50)) result }
{
    n * step
}

/// What a step of one voxel adds, by the entries of a row of the rotation.
fn step(voxel: i64, x: i64, y: i64, z: i64) -> NearCamQ30
    requires voxel { IsWithin (pos 100000) voxel }
    requires x { IsWithin entry_bound x }
    requires y { IsWithin entry_bound y }
    requires z { IsWithin entry_bound z }
    ensures value { result ≡ step_by voxel (vec x y z) }
    ensures bound { NearCamQ30Within (pos (2 ^ 47)) result }
{
    NearCamQ30 {
        x: step_axis(voxel, x),
        y: step_axis(voxel, y),
        z: step_axis(voxel, z),
    }
}

fn step_axis(voxel: i64, entry: i64) -> i64
    requires voxel { IsWithin (pos 100000) voxel }
    requires entry { IsWithin entry_bound entry }
    ensures value { result ≡ voxel *ℤ entry }
    ensures bound { IsWithin (pos (2 ^ 47)) result }
{
    voxel * entry
}
