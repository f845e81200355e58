//! What projects cubes of voxels into the image.
ghost use Rattle.std.specs.Prelude.{◌≡◌, pos, ◌≤ℤ◌, None, IfSome};
ghost use Rattle.fixed_geom.specs.PoseTest.{pose_of};
ghost use Rattle.fixed_geom.specs.Poses.{IsPose};
ghost use Rattle.fixed_geom.specs.Vectors.{IsWithin};
ghost use Rattle.camera.specs.Cameras.{IsCamera};
ghost use Rattle.ray_ranges.specs.Cubes.{HasDrift};

use crate::boxes::{PixelBox, box_by};
use camera::{Camera, CameraFields};
use fixed_geom::{Pose, PoseRows, Vec3};

/// A camera at a pose, for which the box of a cube is asked many times.
#[derive(Clone, Copy)]
pub(crate) struct Projector {
    pub(crate) fields: CameraFields,
    pub(crate) rows: PoseRows,
    drift: i64,
    ghost camera: { IsCamera fields },
    ghost pose: { IsPose (pose_of rows) },
    ghost bound: { IsWithin (pos 65536) drift },
    ghost drifts: { HasDrift fields (pose_of rows) drift },
}

impl Projector {
    ghost use Rattle.ray_ranges.specs.Boxes.{Covers, HasNoPoint, IsInside, IsNearby};

    pub(crate) fn make(camera: &Camera, pose: &Pose) -> Projector
        ensures camera { result.fields ≡ camera.now }
        ensures pose { pose_of result.rows ≡ pose.now }
    {
        Projector {
            fields: camera.fields(),
            rows: pose.rows(),
            drift: camera.drift(),
        }
    }

    /// A box of the pixels and points whose nearest voxel is in the cube with the least voxel `least` and `side` voxels
    /// a side. `None` only where there is no such point.
    pub(crate) fn cube_box(&self, least: Vec3, side: i64) -> Option<PixelBox>
        requires least { IsNearby self.now.fields.voxel least }
        requires side { pos 1 ≤ℤ side }
        requires side_high { side ≤ℤ pos 8 }
        ensures covers { IfSome result (λ b. Covers self.now.fields (pose_of self.now.rows) least side b) }
        ensures inside { IfSome result (λ b. IsInside self.now.fields b) }
        ensures none { result ≡ None → HasNoPoint self.now.fields (pose_of self.now.rows) least side }
    {
        box_by(&self.fields, &self.rows, self.drift, least, side)
    }
}
