ghost use Rattle.std.specs.Prelude.{◌≡◌, ◌^◌, ◌<◌, ◌+◌, ◌↔◌, false, pos, ◌≤ℤ◌, ◌<ℤ◌, Ok, Err, Some, IfOk, IfSome, ℕ};
ghost use Rattle.fixed_geom.specs.Vectors.{AreWithin};
ghost use Rattle.camera.specs.Cameras.{IsCamera, HasRanges, HasReach, FitsSphere, DriftsWithin, drift as drift_of, max_depth, depth_of, ray as ray_of, project as pixel_of, is_active, may_hold_active};
ghost use Rattle.voxel_block.specs.declared.key.BlockKey.{BlockKey as BlockKeyOf};
ghost use Rattle.voxel_block.specs.Chunks.{chunk_of};
ghost use Rattle.camera.specs.Grid.{key_at, nearest as nearest_of, nearest_voxel, voxel_coordinates, point_of, centre_of, chunk_centre as chunk_centre_of};
ghost use Rattle.camera.specs.Opening.{camera_of, camera_tests, first_failing};
ghost use Rattle.camera.specs.Visibility.{MeetsNone, is_visible};

use crate::opening::{check_opening, failing_field};
use crate::{drift, grid, projection, ray, sphere, visibility};
use fixed_geom::{Pose, Vec3};
use std::error::Error;
use std::fmt;
use std::marker::Model;
use voxel_block::{BlockKey, ChunkKey};

/// The fields of a camera and of the space in front of it.
///
/// Lengths are micrometres, and `fx`, `fy`, `cx`, `cy` are in 1/65536 pixel.
#[derive(Clone, Copy, Debug, PartialEq, Eq)]
pub struct CameraFields {
    pub width: i64,
    pub height: i64,
    pub fx: i64,
    pub fy: i64,
    pub cx: i64,
    pub cy: i64,
    /// The depth of a raw sample of 1.
    pub unit: i64,
    pub near: i64,
    pub far: i64,
    pub voxel: i64,
    /// The truncation distance.
    pub mu: i64,
    /// The radius of the active sphere, and its centre's depth on the axis.
    pub radius: i64,
    pub centre: i64,
}

/// Why fields make no camera.
#[derive(Clone, Copy, Debug, PartialEq, Eq)]
pub enum BadCamera {
    /// The field of this number is out of its range, and none before it is: 2 is the width, and so on to 14, the
    /// sphere's centre.
    Field(u8),
    /// A frame may touch what lies more than 17 metres from the axis.
    Reach,
    /// A frame may touch what does not lie in the active sphere.
    Sphere,
}

impl fmt::Display for BadCamera {
    fn fmt<W: fmt::Write>(&self, f: &mut fmt::Formatter<W>) -> fmt::Result {
        match self {
            BadCamera::Field(number) => {
                let name = field_name(*number);
                write!(f, "the {name} is out of its range")
            }
            BadCamera::Reach => write!(
                f,
                "a frame may touch what lies more than 17 metres from the axis"
            ),
            BadCamera::Sphere => write!(
                f,
                "a frame may touch what does not lie in the active sphere"
            ),
        }
    }
}

impl Error for BadCamera {}

/// What the field of this number is called.
fn field_name(number: u8) -> &'static str {
    match number {
        2 => "width",
        3 => "height",
        4 => "focal length fx",
        5 => "focal length fy",
        6 => "centre cx",
        7 => "centre cy",
        8 => "unit",
        9 => "nearest depth",
        10 => "farthest depth",
        11 => "voxel size",
        12 => "truncation distance mu",
        13 => "radius of the active sphere",
        _ => "depth of the active sphere's centre",
    }
}

/// What two tests say of a block at a pose.
#[derive(Clone, Copy, Debug, PartialEq, Eq)]
pub struct Sight {
    /// Its centre lies in the active sphere.
    pub active: bool,
    /// Some of its voxels may be seen.
    pub visible: bool,
}

/// A camera whose fields passed all tests.
#[derive(Clone, Copy, Debug, PartialEq, Eq)]
pub struct Camera {
    fields: CameraFields,
}

impl Model for Camera {
    ghost use Rattle.camera.specs.declared.camera.CameraFields.{CameraFields as Fields};
    ghost use Rattle.camera.specs.Cameras.{IsCamera};

    ghost Value = { Fields };

    ghost view = { λ c. c.fields };

    ghost inverse = { λ k. record { fields = k } };

    ghost invariant = { λ c. IsCamera c.fields };
}

impl Camera {
    /// The camera of these fields, or the first test that they fail: the fields' ranges in the order of their numbers,
    /// then the reach and the sphere of the opening test.
    #[tactic(auto, unfolding(crate::specs::Opening::camera_of))]
    pub fn make(fields: CameraFields) -> Result<Camera, BadCamera>
        ensures value { result ≡ camera_of fields }
        ensures ok { IfOk result (λ c. (c ≡ fields) × IsCamera c) }
        ensures whole { IsCamera fields → result ≡ Ok fields }
        ensures field { (n : ℕ) → (result ≡ Err (BadCamera.Field n)) ↔ (first_failing 2 (camera_tests fields) ≡ Some n) }
        ensures reach { (result ≡ Err BadCamera.Reach) ↔ (HasRanges fields × (¬ HasReach fields)) }
        ensures sphere { (result ≡ Err BadCamera.Sphere) ↔ (HasRanges fields × HasReach fields × (¬ FitsSphere fields)) }
    {
        if let Some(number) = failing_field(fields) {
            return Err(BadCamera::Field(number));
        }
        check_opening(fields)?;
        Ok(Camera { fields })
    }

    /// The fields that passed.
    pub fn fields(&self) -> CameraFields
        ensures value { result ≡ self.now }
        ensures camera { IsCamera self.now }
    {
        self.fields
    }

    /// The depth of a raw sample, in micrometres. `None` where the sample is 0, or the depth is
    /// below `near` or above `far`.
    pub fn depth(&self, raw: u16) -> Option<i64>
        ensures value { result ≡ depth_of self.now raw }
        ensures range { IfSome result (λ d. (pos 1 ≤ℤ d) × (d ≤ℤ self.now.far)) }
    {
        projection::depth(&self.fields, raw)
    }

    /// The point at depth `z` on the ray of the pixel in column `u` and row `v`, in the camera's
    /// micrometres. It is within 17 metres on each axis. For many points make the `Slopes` once.
    pub fn ray(&self, u: u32, v: u32, z: i64) -> Vec3
        requires column { pos u <ℤ self.now.width }
        requires row { pos v <ℤ self.now.height }
        requires front { pos 1 ≤ℤ z }
        requires deep { z ≤ℤ max_depth self.now }
        ensures value { result ≡ ray_of self.now (pos u) (pos v) z }
        ensures bound { AreWithin (pos 17000000) result }
    {
        ray::ray(&self.fields, u, v, z)
    }

    /// The pixel (column, row) that a camera point projects to. `None` where the point is not in front of the
    /// camera, or the pixel nearest to it is not one of the image's.
    pub fn project(&self, c: Vec3) -> Option<(u32, u32)>
        requires { AreWithin (pos (2 ^ 42)) c }
        ensures value { result ≡ pixel_of self.now c }
        ensures inside { IfSome result (λ p. ((pos p.0) <ℤ self.now.width) × ((pos p.1) <ℤ self.now.height)) }
    {
        projection::project(&self.fields, c)
    }

    /// Whether a block is active at a pose: its centre lies in the active sphere. Where it is not, none of its voxels
    /// projects inside the image at a depth that a frame may touch.
    pub fn active(&self, pose: &Pose, key: BlockKey) -> bool
        ensures value { result ≡ is_active self.now pose.now key }
        ensures met { result ≡ false → MeetsNone self.now pose.now key }
    {
        let centre = self.block_centre(key);
        sphere::is_in_sphere(&self.fields, pose.cam(centre))
    }

    /// Whether a chunk may hold an active block at a pose, by its centre alone. Where it may not, none of its 512 blocks
    /// is active.
    pub fn may_hold_active(&self, pose: &Pose, chunk: ChunkKey) -> bool
        ensures value { result ≡ may_hold_active self.now pose.now chunk }
        ensures none { result ≡ false → (b : BlockKeyOf) → chunk_of b ≡ chunk → is_active self.now pose.now b ≡ false }
    {
        let centre = self.chunk_centre(chunk);
        sphere::is_near_sphere(&self.fields, pose.cam(centre))
    }

    /// Whether a block is visible at a pose. Where it is not, none of its voxels projects inside the image at a
    /// depth that a frame may touch.
    pub fn may_see(&self, pose: &Pose, key: BlockKey) -> bool
        ensures value { result ≡ is_visible self.now pose.now key }
        ensures invisible { result ≡ false → MeetsNone self.now pose.now key }
    {
        let centre = self.block_centre(key);
        visibility::may_see(&self.fields, pose.cam(centre))
    }

    /// Whether a block is active at a pose, and whether it is visible there: both by the camera point of its centre, which
    /// is made once.
    pub fn sight(&self, pose: &Pose, key: BlockKey) -> Sight
        ensures active { result.active ≡ is_active self.now pose.now key }
        ensures visible { result.visible ≡ is_visible self.now pose.now key }
    {
        let centre = pose.cam(self.block_centre(key));
        Sight {
            active: sphere::is_in_sphere(&self.fields, centre),
            visible: visibility::may_see(&self.fields, centre),
        }
    }

    /// By how many micrometres a point of a ray may move, on each axis, when it is brought to the world and back, whatever
    /// the pose. The roundings of the two ways do not cancel.
    pub fn drift(&self) -> i64
        ensures value { result ≡ drift_of self.now }
        ensures drift { DriftsWithin self.now result }
        ensures low { pos 0 ≤ℤ result }
        ensures high { result ≤ℤ pos 12456 }
    {
        drift::drift(&self.fields)
    }

    /// The block that a world point lies in. `None` where a coordinate of the block does not fit 16 bits.
    pub fn block_of(&self, p: Vec3) -> Option<BlockKey>
        requires { AreWithin (pos (2 ^ 40)) p }
        ensures { result ≡ key_at self.now.voxel p }
    {
        grid::block_of(self.fields.voxel, p)
    }

    /// The voxel nearest to a world point, by its block and its voxel index. `None` where a coordinate of the block
    /// does not fit 16 bits.
    pub fn nearest(&self, p: Vec3) -> Option<(BlockKey, u16)>
        requires { AreWithin (pos (2 ^ 40)) p }
        ensures value { result ≡ nearest_of self.now.voxel p }
        ensures voxel { IfSome result (λ n. (n.1 < 512) × (voxel_coordinates n.0 n.1 ≡ nearest_voxel self.now.voxel p)) }
    {
        grid::nearest(self.fields.voxel, p)
    }

    /// The world point of voxel `i` of a block.
    pub fn voxel_point(&self, key: BlockKey, i: u16) -> Vec3
        requires { i < 512 }
        ensures value { result ≡ point_of self.now.voxel key i }
        ensures bound { AreWithin (pos (2 ^ 40)) result }
    {
        grid::voxel_point(self.fields.voxel, key, i)
    }

    /// The world point of the centre of a block.
    pub fn block_centre(&self, key: BlockKey) -> Vec3
        ensures value { result ≡ centre_of self.now.voxel key }
        ensures bound { AreWithin (pos (2 ^ 40)) result }
    {
        grid::block_centre(self.fields.voxel, key)
    }

    /// The world point of the centre of a chunk.
    pub fn chunk_centre(&self, chunk: ChunkKey) -> Vec3
        ensures value { result ≡ chunk_centre_of self.now.voxel chunk }
        ensures bound { AreWithin (pos (2 ^ 40)) result }
    {
        grid::chunk_centre(self.fields.voxel, chunk)
    }
}
