ghost use Rattle.std.specs.Prelude.{◌≡◌, ◌^◌, ◌≤◌, ◌<◌, ◌+◌, ◌*◌, min, pos, neg_ℤ, ◌≤ℤ◌, int_le, IfSome, List};
ghost use Rattle.fixed_geom.specs.Poses.{Pose as PoseOf, cam};
ghost use Rattle.fixed_geom.specs.Vectors.{AreWithin, IsWithin};
ghost use Rattle.voxel_block.specs.declared.key.BlockKey.{BlockKey as Key};
ghost use Rattle.voxel_block.specs.declared.voxel.Voxel.{Voxel as VoxelOf};
ghost use Rattle.voxel_block.specs.Voxels.{IsVoxel};
ghost use Rattle.depth_frame.specs.DepthMaps.{DepthMap};
ghost use Rattle.camera.specs.Cameras.{project};
ghost use Rattle.camera.specs.Grid.{point_of};
ghost use Rattle.depth_view.specs.Views.{FitsImage, depth_list, view_of};
ghost use Rattle.fuse_kernel.specs.Updates.{averaged as averaged_of, signed_distance as signed_distance_by, signed_distance_of, updated};
ghost use Rattle.fuse_kernel.specs.VoxelSteps.{HasStepBounds, updated_to, voxel_steps_of};

use crate::estimates::Estimates;
use crate::mean::Reciprocals;
use crate::pixel_axis::PixelAxis;
use crate::truncation::Truncation;
use crate::voxel_steps::VoxelSteps;
use camera::Camera;
use depth_view::Depths;
use fixed_geom::{Pose, Vec3};
use voxel_block::{Block, BlockKey, Voxel};

/// The update of blocks by one frame. It is made once a frame, and has what all voxels need. A division is made only where
/// the estimate of a pixel is wrong.
#[derive(Drop)]
pub struct Kernel<'a> {
    pub camera: &'a Camera,
    pub pose: &'a Pose,
    pub depths: &'a Depths,
    pub max_weight: u8,
    columns: PixelAxis,
    rows: PixelAxis,
    truncation: Truncation,
    reciprocals: Reciprocals,
    ghost weight: { 1 ≤ max_weight },
    ghost width: { pos columns.size ≡ camera.now.width },
    ghost fx: { columns.f ≡ camera.now.fx },
    ghost cx: { columns.c ≡ camera.now.cx },
    ghost height: { pos rows.size ≡ camera.now.height },
    ghost fy: { rows.f ≡ camera.now.fy },
    ghost cy: { rows.c ≡ camera.now.cy },
    ghost mu: { truncation.mu ≡ camera.now.mu },
}

impl<'a> Kernel<'a> {
    /// The update by a frame with these depths, which this camera took from this pose. A voxel weighs at most `max_weight`.
    pub fn of(camera: &'a Camera, pose: &'a Pose, depths: &'a Depths, max_weight: u8) -> Kernel<'a>
        requires { 1 ≤ max_weight }
        ensures camera { result.camera.now ≡ camera.now }
        ensures pose { result.pose.now ≡ pose.now }
        ensures depths { result.depths.now ≡ depths.now }
        ensures weight { result.max_weight ≡ max_weight }
    {
        let k = camera.fields();
        Kernel {
            camera,
            pose,
            depths,
            max_weight,
            columns: PixelAxis::of(k.width as usize, k.fx, k.cx),
            rows: PixelAxis::of(k.height as usize, k.fy, k.cy),
            truncation: Truncation::of(k.mu),
            reciprocals: Reciprocals::make(),
        }
    }

    /// Updates each voxel of a block by the frame: a voxel that the frame meets becomes the mean of what it was and what
    /// the frame measures there, and weighs one more, at most `max_weight`. Every other voxel stays.
    pub fn update(&self, block: &mut Block, key: BlockKey)
        ensures { (frame : DepthMap) → FitsImage self.now.camera.now frame → self.now.depths.now ≡ depth_list self.now.camera.now frame
            → block.new ≡ updated (view_of self.now.camera.now self.now.pose.now frame) self.now.max_weight key block.old }
    {
        let _ = block.len();
        if !self.camera.may_see(self.pose, key) {
            return;
        }
        let steps = VoxelSteps::make(self.camera, self.pose, key);
        let estimates = Estimates::of(&steps, &self.columns, &self.rows);
        for row in 0..64 {
            self.update_row(block, row, &steps, &estimates);
        }
    }

    /// Updates the 8 voxels of a row along x.
    fn update_row(&self, block: &mut Block, row: u16, steps: &VoxelSteps, estimates: &Estimates)
        requires steps { HasStepBounds steps.now }
        requires row { row < 64 }
        ensures { (frame : DepthMap) (m : PoseOf) (b : Key) (voxels : List VoxelOf)
            → FitsImage self.now.camera.now frame → self.now.depths.now ≡ depth_list self.now.camera.now frame
            → steps.now ≡ voxel_steps_of self.now.camera.now.voxel m b
            → block.old ≡ updated_to (view_of self.now.camera.now m frame) self.now.max_weight b (8 * row) voxels
            → block.new ≡ updated_to (view_of self.now.camera.now m frame) self.now.max_weight b (8 * (row + 1)) voxels }
    {
        let estimates = estimates.row(row);
        let mut near_cam_q30 = steps.row(row);
        for x in 0..8 {
            let estimate = estimates.at(x);
            self.update_voxel(block, 8 * row + x, near_cam_q30.point(), estimate);
            near_cam_q30 = near_cam_q30.plus(steps.x);
        }
    }

    /// Updates a voxel, by its camera point and an estimate of its pixel. It is read only where the frame meets it.
    fn update_voxel(&self, block: &mut Block, i: u16, point: Vec3, estimate: (i16, i16))
        requires index { i < 512 }
        requires point { AreWithin (pos (2 ^ 26)) point }
        ensures { (frame : DepthMap) (m : PoseOf) (b : Key) (voxels : List VoxelOf)
            → FitsImage self.now.camera.now frame → self.now.depths.now ≡ depth_list self.now.camera.now frame
            → point ≡ cam m (point_of self.now.camera.now.voxel b i)
            → block.old ≡ updated_to (view_of self.now.camera.now m frame) self.now.max_weight b i voxels
            → block.new ≡ updated_to (view_of self.now.camera.now m frame) self.now.max_weight b (i + 1) voxels }
    {
        if let Some(eta) = self.signed_distance(point, estimate) {
            let voxel = self.averaged(eta, block.get(i));
            block.set(i, voxel);
        }
    }

    /// How far a camera point lies in front of what its pixel shows. `None` where the frame does not meet it.
    fn signed_distance(&self, point: Vec3, estimate: (i16, i16)) -> Option<i64>
        requires point { AreWithin (pos (2 ^ 26)) point }
        ensures value { (frame : DepthMap) (m : PoseOf) → FitsImage self.now.camera.now frame → self.now.depths.now ≡ depth_list self.now.camera.now frame
            → result ≡ signed_distance_of (view_of self.now.camera.now m frame) point }
        ensures bound { IfSome result (λ eta. IsWithin (pos (2 ^ 33)) eta) }
        ensures front { IfSome result (λ eta. (neg_ℤ self.now.camera.now.mu) ≤ℤ eta) }
    {
        let (u, v) = self.pixel(point, estimate)?;
        let depth = self.depths.at(index(self.columns.size, u, v));
        signed_distance(self.truncation.mu, point.z, depth)
    }

    /// The pixel (column, row) that a camera point projects to. `None` where the point is not in front of the camera, or
    /// the pixel nearest to it is not one of the image's.
    fn pixel(&self, point: Vec3, estimate: (i16, i16)) -> Option<(usize, usize)>
        requires point { AreWithin (pos (2 ^ 26)) point }
        ensures value { result ≡ project self.now.camera.now point }
        ensures bound { IfSome result (λ p. (p.0 < 2048) × (p.1 < 2048)) }
    {
        if point.z <= 0 {
            return None;
        }
        let u = self.columns.inside(point.x, point.z, estimate.0)?;
        let v = self.rows.inside(point.y, point.z, estimate.1)?;
        Some((u, v))
    }

    /// A voxel after one more signed distance `eta`, which is at least `-mu`.
    fn averaged(&self, eta: i64, voxel: Voxel) -> Voxel
        requires front { (neg_ℤ self.now.camera.now.mu) ≤ℤ eta }
        requires voxel { IsVoxel voxel }
        ensures value { result ≡ averaged_of self.now.camera.now.mu self.now.max_weight eta voxel }
        ensures voxel { IsVoxel result }
    {
        let tsdf = self.truncation.tsdf(eta);
        Voxel {
            f: self.reciprocals.mean(voxel.w, voxel.f, tsdf),
            w: next_weight(voxel.w, self.max_weight),
        }
    }
}

/// The index of a pixel, row by row.
fn index(width: usize, u: usize, v: usize) -> usize
    requires width { width ≤ 2048 }
    requires column { u < 2048 }
    requires row { v < 2048 }
    ensures { result ≡ u + width * v }
{
    u + width * v
}

/// How far the depth `z` lies in front of `depth`. `None` where it lies more than `mu` behind it.
fn signed_distance(mu: i64, z: i64, depth: i64) -> Option<i64>
    requires mu { IsWithin (pos 1000000) mu }
    requires z { IsWithin (pos (2 ^ 26)) z }
    requires depth { IsWithin (pos (2 ^ 31)) depth }
    ensures value { result ≡ signed_distance_by mu z depth }
    ensures bound { IfSome result (λ eta. IsWithin (pos (2 ^ 33)) eta) }
    ensures front { IfSome result (λ eta. (neg_ℤ mu) ≤ℤ eta) }
{
    let eta = depth - z;
    if is_within_band(mu, eta) {
        Some(eta)
    } else {
        None
    }
}

/// Whether a point with this signed distance lies at most `mu` behind what its pixel shows.
fn is_within_band(mu: i64, eta: i64) -> bool
    requires { IsWithin (pos 1000000) mu }
    ensures { result ≡ int_le (neg_ℤ mu) eta }
{
    -mu <= eta
}

/// One more than a weight, which saturates at the greatest one.
fn next_weight(w: u8, max_weight: u8) -> u8
    ensures { result ≡ min (w + 1) max_weight }
{
    if w < max_weight { w + 1 } else { max_weight }
}
