ghost use Rattle.std.specs.Prelude.{◌≡◌, ◌^◌, ◌+◌, ◌≤◌, pos, IfOk, ◌↔◌};
ghost use Rattle.fixed_geom.specs.PoseTest.{accepted, entry, has_pose_range as has_pose_range_of, is_near_rotation as is_near_rotation_of, pose_of, rows_of};
ghost use Rattle.fixed_geom.specs.Poses.{HasPoseRange, IsNearRotation, IsPose, cam as cam_of, column_x, column_y, column_z, entry_bound, cam_q30_axis, of_rows, world as world_of};
ghost use Rattle.fixed_geom.specs.Vectors.{AreWithin, vec};
ghost use Rattle.fixed_geom.specs.declared.vector.Vec3.{Vec3};

use crate::bounds::are_within;
use crate::cam_q30::CamQ30;
use crate::near::world_axis;
use crate::products::{
    along, along_q30, are_nearly_orthogonal, is_nearly_unit, is_right_handed, micrometres, moved,
    offset_from,
};
use crate::vector::Vec3;
use std::error::Error;
use std::fmt;
use std::marker::Model;

/// The largest size of an entry: `2^30 + 2^17`.
const ENTRY_BOUND: i64 = (1 << 30) + (1 << 17);

/// The largest size of a coordinate of the translation: 100 metres.
const TRANSLATION_BOUND: i64 = 100_000_000;

/// The rows of a rotation, row by row in units of `2^-30`, and a translation in micrometres.
#[derive(Clone, Copy, Debug, PartialEq, Eq)]
pub struct PoseRows {
    pub r: [i64; 9],
    pub t: Vec3,
}

/// Why rows are no pose.
#[derive(Clone, Copy, Debug, PartialEq, Eq)]
pub enum BadPose {
    /// An entry passes `2^30 + 2^17`, or a coordinate of the translation 100 metres, in size.
    Range,
    /// The bounds hold, and the entries are no rotation: the transposed matrix times the matrix
    /// differs from `2^60` times the identity by more than `2^48`, or the determinant is not positive.
    NotRotation,
}

impl fmt::Display for BadPose {
    fn fmt<W: fmt::Write>(&self, f: &mut fmt::Formatter<W>) -> fmt::Result {
        match self {
            BadPose::Range => write!(
                f,
                "an entry or a coordinate of the translation is out of its range"
            ),
            BadPose::NotRotation => write!(f, "the entries are no rotation"),
        }
    }
}

impl Error for BadPose {}

/// A pose that passed the pose test. It takes camera points to world points.
#[derive(Clone, Copy, Debug, PartialEq, Eq)]
pub struct Pose {
    x: Vec3,
    y: Vec3,
    z: Vec3,
    t: Vec3,
}

impl Model for Pose {
    ghost use Rattle.fixed_geom.specs.Poses.{IsPose, Pose as PoseValue, of_rows, row_x, row_y, row_z};

    ghost Value = { PoseValue };

    ghost view = { λ a. of_rows a.x a.y a.z a.t };

    ghost inverse = { λ m. record { x = row_x m; y = row_y m; z = row_z m; t = m.t } };

    ghost invariant = { λ a. IsPose (of_rows a.x a.y a.z a.t) };
}

impl Pose {
    /// The pose of these rows, or why they are none. The bounds are judged first.
    pub fn accept(rows: &PoseRows) -> Result<Pose, BadPose>
        ensures value { result ≡ accepted (pose_of rows.now) }
        ensures ok { IfOk result IsPose }
        ensures same { IfOk result (λ p. p ≡ pose_of rows.now) }
        ensures range { (result ≡ Err BadPose.Range) ↔ (¬ HasPoseRange (pose_of rows.now)) }
        ensures not_rotation { (result ≡ Err BadPose.NotRotation) ↔ (HasPoseRange (pose_of rows.now) × (¬ IsNearRotation (pose_of rows.now))) }
    {
        let (x, y, z) = (row(rows, 0), row(rows, 3), row(rows, 6));
        if !has_pose_range(x, y, z, rows.t) {
            return Err(BadPose::Range);
        }
        if !is_near_rotation(x, y, z) {
            return Err(BadPose::NotRotation);
        }
        Ok(Pose { x, y, z, t: rows.t })
    }

    /// The rows that were accepted.
    pub fn rows(&self) -> PoseRows
        ensures value { result ≡ rows_of self.now }
        ensures back { pose_of result ≡ self.now }
        ensures pose { IsPose self.now }
    {
        let (x, y, z) = (self.x, self.y, self.z);
        PoseRows {
            r: [x.x, x.y, x.z, y.x, y.y, y.z, z.x, z.y, z.z],
            t: self.t,
        }
    }

    /// The scaled camera coordinates of a world point within `2^40` micrometres on each axis: the
    /// transposed matrix times the offset from the translation.
    pub fn cam_q30(&self, p: Vec3) -> CamQ30
        requires p { AreWithin (pos (2 ^ 40)) p }
        ensures x { result.x ≡ cam_q30_axis (column_x self.now) self.now.t p }
        ensures y { result.y ≡ cam_q30_axis (column_y self.now) self.now.t p }
        ensures z { result.z ≡ cam_q30_axis (column_z self.now) self.now.t p }
        ensures pose { IsPose self.now }
    {
        let (x, y, z) = (self.x, self.y, self.z);
        let offset = offset_from(p, self.t);
        CamQ30 {
            x: along_q30(
                Vec3 {
                    x: x.x,
                    y: y.x,
                    z: z.x,
                },
                offset,
            ),
            y: along_q30(
                Vec3 {
                    x: x.y,
                    y: y.y,
                    z: z.y,
                },
                offset,
            ),
            z: along_q30(
                Vec3 {
                    x: x.z,
                    y: y.z,
                    z: z.z,
                },
                offset,
            ),
        }
    }

    /// The camera point of a world point within `2^40` micrometres on each axis: its scaled camera
    /// coordinates, each by floor.
    pub fn cam(&self, p: Vec3) -> Vec3
        requires p { AreWithin (pos (2 ^ 40)) p }
        ensures value { result ≡ cam_of self.now p }
        ensures bound { AreWithin (pos (2 ^ 42)) result }
        ensures pose { IsPose self.now }
    {
        let cam_q30 = self.cam_q30(p);
        Vec3 {
            x: micrometres(cam_q30.x),
            y: micrometres(cam_q30.y),
            z: micrometres(cam_q30.z),
        }
    }

    /// The world point of a camera point within `2^40` micrometres on each axis: the translation,
    /// and the matrix times the point, each coordinate by floor.
    pub fn world(&self, c: Vec3) -> Vec3
        requires c { AreWithin (pos (2 ^ 40)) c }
        ensures value { result ≡ world_of self.now c }
        ensures bound { AreWithin (pos (2 ^ 42)) result }
        ensures pose { IsPose self.now }
    {
        Vec3 {
            x: moved(self.t.x, along(self.x, c)),
            y: moved(self.t.y, along(self.y, c)),
            z: moved(self.t.z, along(self.z, c)),
        }
    }

    /// The world point of a camera point within 17 metres on each axis: what `world` gives, by
    /// products of 64 bits.
    pub fn near_world(&self, c: Vec3) -> Vec3
        requires c { AreWithin (pos 17000000) c }
        ensures value { result ≡ world_of self.now c }
        ensures bound { AreWithin (pos 151006226) result }
        ensures pose { IsPose self.now }
    {
        Vec3 {
            x: world_axis(self.t.x, self.x, c),
            y: world_axis(self.t.y, self.y, c),
            z: world_axis(self.t.z, self.z, c),
        }
    }
}

/// The row whose first entry has the index `at`.
fn row(rows: &PoseRows, at: usize) -> Vec3
    requires { at ≤ 6 }
    ensures { result ≡ vec (entry rows.now at) (entry rows.now (at + 1)) (entry rows.now (at + 2)) }
{
    Vec3 {
        x: rows.r[at],
        y: rows.r[at + 1],
        z: rows.r[at + 2],
    }
}

/// Whether the entries and the translation are within their bounds.
fn has_pose_range(x: Vec3, y: Vec3, z: Vec3, t: Vec3) -> bool
    ensures { result ≡ has_pose_range_of (of_rows x y z t) }
{
    are_within(ENTRY_BOUND, x)
        && are_within(ENTRY_BOUND, y)
        && are_within(ENTRY_BOUND, z)
        && are_within(TRANSLATION_BOUND, t)
}

/// Whether the rows are nearly a rotation.
fn is_near_rotation(x: Vec3, y: Vec3, z: Vec3) -> bool
    requires x { AreWithin entry_bound x }
    requires y { AreWithin entry_bound y }
    requires z { AreWithin entry_bound z }
    ensures { (t : Vec3) → result ≡ is_near_rotation_of (of_rows x y z t) }
{
    let a = Vec3 {
        x: x.x,
        y: y.x,
        z: z.x,
    };
    let b = Vec3 {
        x: x.y,
        y: y.y,
        z: z.y,
    };
    let c = Vec3 {
        x: x.z,
        y: y.z,
        z: z.z,
    };
    is_nearly_unit(a)
        && are_nearly_orthogonal(a, b)
        && are_nearly_orthogonal(a, c)
        && is_nearly_unit(b)
        && are_nearly_orthogonal(b, c)
        && is_nearly_unit(c)
        && is_right_handed(x, y, z)
}
