//! The walks of a camera's pixels from one pose.
ghost use Rattle.std.specs.Prelude.{◌≡◌, ◌^◌, ◌<◌, ◌≤◌, pos, ◌+ℤ◌, ◌*ℤ◌, ◌≤ℤ◌, ◌<ℤ◌, unsigned_abs};
ghost use Rattle.fixed_geom.specs.PoseTest.{pose_of};
ghost use Rattle.fixed_geom.specs.Poses.{HasPoseRange, IsPose, entry_bound, world};
ghost use Rattle.fixed_geom.specs.Poses.{row_x as row_x_of, row_y as row_y_of, row_z as row_z_of};
ghost use Rattle.fixed_geom.specs.Vectors.{AreWithin, IsWithin};
ghost use Rattle.camera.specs.Cameras.{IsCamera, max_depth, ray as ray_of};
ghost use Rattle.camera.specs.Grid.{block_of_voxel, index_of_voxel, nearest_voxel as nearest};
ghost use Rattle.ray_walk.specs.Forms.{IsForm};
ghost use Rattle.ray_walk.specs.Points.{IsPoint, point_depth as z_of, voxel_at};
ghost use Rattle.ray_walk.specs.Raising.{lowered, reciprocal as reciprocal_of, world_raise};
ghost use Rattle.ray_walk.specs.RaisedVoxels.{IsRaised};

use crate::form::Form;
use crate::points::point_depth;
use crate::ray::RayAxis;
use crate::voxels::{
    RaisedVoxel, block_of, index_of, quotient, raise_of, raised_blocks, reciprocal,
};
use camera::{Camera, CameraFields};
use fixed_geom::{Pose, PoseRows, Vec3};
use voxel_block::BlockKey;

/// The walks of a camera's pixels from one pose. Made once, it gives the voxel nearest to each point of each walk by
/// products, with no division.
#[derive(Clone, Copy)]
pub struct Walks {
    /// The camera's fields.
    pub fields: CameraFields,
    pub pose: Pose,
    columns: RayAxis,
    rows: RayAxis,
    x: Form,
    y: Form,
    z: Form,
    /// The number of blocks that a coordinate of the world is raised by.
    blocks: i64,
    /// The reciprocal of the size of a voxel, in parts of `2^45`, rounded up.
    reciprocal: u64,
    pub ghost camera: { IsCamera fields },
    pub ghost placed: { IsPose pose },
    ghost columns_focal: { columns.focal ≡ fields.fx },
    ghost columns_centre: { columns.centre ≡ fields.cx },
    ghost rows_focal: { rows.focal ≡ fields.fy },
    ghost rows_centre: { rows.centre ≡ fields.cy },
    ghost form_x: { IsForm (row_x_of pose) pose.t.x (world_raise fields.voxel blocks) x },
    ghost form_y: { IsForm (row_y_of pose) pose.t.y (world_raise fields.voxel blocks) y },
    ghost form_z: { IsForm (row_z_of pose) pose.t.z (world_raise fields.voxel blocks) z },
    ghost blocks_bound: { IsWithin (pos 19001) blocks },
    ghost blocks_low: { pos 152000000 ≤ℤ (pos 8 *ℤ fields.voxel *ℤ blocks) },
    ghost blocks_high: { (pos 8 *ℤ fields.voxel *ℤ blocks) ≤ℤ pos 152800000 },
    ghost parts: { reciprocal ≡ reciprocal_of (2 ^ 45) (unsigned_abs fields.voxel) },
    ghost parts_most: { reciprocal ≤ 35184372089 },
}

impl Walks {
    /// The walks of this camera's pixels from this pose.
    pub fn make(camera: &Camera, pose: &Pose) -> Walks
        ensures camera { result.fields ≡ camera.now }
        ensures pose { result.pose ≡ pose.now }
    {
        let (fields, entries) = (camera.fields(), pose.rows());
        let blocks = raised_blocks(fields.voxel);
        let raise = raise_of(fields.voxel, blocks);
        Walks {
            fields,
            pose: *pose,
            columns: RayAxis::make(fields.fx, fields.cx),
            rows: RayAxis::make(fields.fy, fields.cy),
            x: Form::make(row_x(&entries), entries.t.x, raise),
            y: Form::make(row_y(&entries), entries.t.y, raise),
            z: Form::make(row_z(&entries), entries.t.z, raise),
            blocks,
            reciprocal: reciprocal(fields.voxel as u64),
        }
    }

    /// The voxel nearest to point `j` of the walk of the pixel in column `u` and row `v`, by its block and its voxel
    /// index.
    pub fn voxel(&self, u: u32, v: u32, j: u32) -> (BlockKey, u16)
        requires { IsPoint self.now.fields u v j }
        ensures key { let w = self.now in result.0 ≡ block_of_voxel (voxel_at w.fields w.pose u v (z_of w.fields j)) }
        ensures index { let w = self.now in result.1 ≡ index_of_voxel (voxel_at w.fields w.pose u v (z_of w.fields j)) }
        ensures bound { result.1 < 512 }
    {
        let z = point_depth(&self.fields, j);
        let voxel = self.raised_voxel(self.raised_ray(u, v, z));
        (block_of(voxel, self.blocks), index_of(voxel))
    }

    /// The raised point at depth `z` on the ray of a pixel.
    fn raised_ray(&self, u: u32, v: u32, z: i64) -> Vec3
        requires column { pos u <ℤ self.now.fields.width }
        requires row { pos v <ℤ self.now.fields.height }
        requires front { pos 1 ≤ℤ z }
        requires deep { z ≤ℤ max_depth self.now.fields }
        ensures value { lowered result ≡ ray_of self.now.fields (pos u) (pos v) z }
        ensures bound { AreWithin (pos 34000001) result }
        ensures near { AreWithin (pos 17000000) (lowered result) }
    {
        Vec3 {
            x: self.columns.coordinate(u, z),
            y: self.rows.coordinate(v, z),
            z,
        }
    }

    /// The raised coordinates of the voxel nearest to the world point of a raised point of a ray.
    fn raised_voxel(&self, p: Vec3) -> RaisedVoxel
        requires bound { AreWithin (pos 34000001) p }
        requires near { AreWithin (pos 17000000) (lowered p) }
        ensures { let w = self.now in IsRaised w.blocks (nearest w.fields.voxel (world w.pose (lowered p))) result }
    {
        RaisedVoxel {
            x: quotient(self.x.at(p), self.reciprocal),
            y: quotient(self.y.at(p), self.reciprocal),
            z: quotient(self.z.at(p), self.reciprocal),
        }
    }
}

/// The rows of the rotation.
fn row_x(entries: &PoseRows) -> Vec3
    requires { HasPoseRange (pose_of entries.now) }
    ensures value { result ≡ row_x_of (pose_of entries.now) }
    ensures bound { AreWithin entry_bound result }
{
    Vec3 {
        x: entries.r[0],
        y: entries.r[1],
        z: entries.r[2],
    }
}

fn row_y(entries: &PoseRows) -> Vec3
    requires { HasPoseRange (pose_of entries.now) }
    ensures value { result ≡ row_y_of (pose_of entries.now) }
    ensures bound { AreWithin entry_bound result }
{
    Vec3 {
        x: entries.r[3],
        y: entries.r[4],
        z: entries.r[5],
    }
}

fn row_z(entries: &PoseRows) -> Vec3
    requires { HasPoseRange (pose_of entries.now) }
    ensures value { result ≡ row_z_of (pose_of entries.now) }
    ensures bound { AreWithin entry_bound result }
{
    Vec3 {
        x: entries.r[6],
        y: entries.r[7],
        z: entries.r[8],
    }
}
