//! The box of a cube of voxels.
ghost use Rattle.std.specs.Prelude.{◌≡◌, ◌^◌, pos, ◌*ℤ◌, ◌≤ℤ◌, if◌then◌else◌, Some, None};
ghost use Rattle.fixed_geom.specs.PoseTest.{pose_of};
ghost use Rattle.fixed_geom.specs.Poses.{HasPoseRange, column_x as column_x_of, column_y as column_y_of, column_z as column_z_of, entry_bound};
ghost use Rattle.fixed_geom.specs.Vectors.{AreWithin, IsWithin};
ghost use Rattle.camera.specs.Cameras.{HasRanges};
ghost use Rattle.ray_ranges.specs.Boxes.{IsNearby, IsSpanWithin, box_at, box_of, is_empty as is_empty_of};

use crate::pixels::{depths, pixels, points};
use crate::reach::{middle, reach};
use crate::span::Span;
use camera::CameraFields;
use fixed_geom::{PoseRows, Vec3};

/// Columns and rows of pixels, and points of their walks.
#[derive(Clone, Copy, Debug, PartialEq, Eq)]
pub(crate) struct PixelBox {
    pub(crate) columns: Span,
    pub(crate) rows: Span,
    pub(crate) points: Span,
}

/// A box of the pixels and points whose nearest voxel is in the cube with the least voxel `least` and `side` voxels a
/// side. `None` only where there is no such point. Each ray point of the camera moves by at most `drift` on its way to
/// the world and back.
pub(crate) fn box_by(
    camera: &CameraFields,
    rows: &PoseRows,
    drift: i64,
    least: Vec3,
    side: i64,
) -> Option<PixelBox>
    requires camera { HasRanges camera.now }
    requires pose { HasPoseRange (pose_of rows.now) }
    requires drift { IsWithin (pos 65536) drift }
    requires least { IsNearby camera.now.voxel least }
    requires side { pos 1 ≤ℤ side }
    requires side_high { side ≤ℤ pos 8 }
    ensures { result ≡ box_of camera.now (pose_of rows.now) least side drift }
{
    let middle = middle(camera.voxel, least, side, rows.t);
    let length = length(camera.voxel, side);
    let z = depths(camera, reach(column_z(rows), middle, length, drift));
    if z.high < z.low {
        return None;
    }
    let x = reach(column_x(rows), middle, length, drift);
    let y = reach(column_y(rows), middle, length, drift);
    filled(pixel_box(camera, x, y, z))
}

/// The side of a cube in micrometres.
fn length(size: i64, side: i64) -> i64
    requires size { pos 1 ≤ℤ size }
    requires size_high { size ≤ℤ pos 100000 }
    requires side { pos 1 ≤ℤ side }
    requires side_high { side ≤ℤ pos 8 }
    ensures value { result ≡ size *ℤ side }
    ensures bound { IsWithin (pos 800000) result }
{
    size * side
}

/// The columns of the rotation: the camera's axes in the world.
fn column_x(rows: &PoseRows) -> Vec3
    requires { HasPoseRange (pose_of rows.now) }
    ensures value { result ≡ column_x_of (pose_of rows.now) }
    ensures bound { AreWithin entry_bound result }
{
    Vec3 {
        x: rows.r[0],
        y: rows.r[3],
        z: rows.r[6],
    }
}

fn column_y(rows: &PoseRows) -> Vec3
    requires { HasPoseRange (pose_of rows.now) }
    ensures value { result ≡ column_y_of (pose_of rows.now) }
    ensures bound { AreWithin entry_bound result }
{
    Vec3 {
        x: rows.r[1],
        y: rows.r[4],
        z: rows.r[7],
    }
}

fn column_z(rows: &PoseRows) -> Vec3
    requires { HasPoseRange (pose_of rows.now) }
    ensures value { result ≡ column_z_of (pose_of rows.now) }
    ensures bound { AreWithin entry_bound result }
{
    Vec3 {
        x: rows.r[2],
        y: rows.r[5],
        z: rows.r[8],
    }
}

/// The pixels and points whose ray points may have these coordinates.
fn pixel_box(camera: &CameraFields, x: Span, y: Span, z: Span) -> PixelBox
    requires camera { HasRanges camera.now }
    requires x { IsSpanWithin (pos (2 ^ 32)) x }
    requires y { IsSpanWithin (pos (2 ^ 32)) y }
    requires z { IsSpanWithin (pos (2 ^ 32)) z }
    requires front { pos 1 ≤ℤ z.low }
    requires some { z.low ≤ℤ z.high }
    ensures { result ≡ box_at camera.now x y z }
{
    PixelBox {
        columns: pixels(camera.fx, camera.cx, camera.width, x, z),
        rows: pixels(camera.fy, camera.cy, camera.height, y, z),
        points: points(camera.near, camera.voxel, z),
    }
}

/// The box, if it has a point.
fn filled(found: PixelBox) -> Option<PixelBox>
    ensures { result ≡ (if is_empty_of found then None else Some found) }
{
    if is_empty(found) {
        return None;
    }
    Some(found)
}

fn is_empty(found: PixelBox) -> bool
    ensures { result ≡ is_empty_of found }
{
    found.columns.high < found.columns.low
        || found.rows.high < found.rows.low
        || found.points.high < found.points.low
}
