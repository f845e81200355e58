//! The rays of a camera's pixels, by their slopes.
ghost use Rattle.std.specs.Prelude.{◌≡◌, ◌^◌, ◌≤◌, pos, ◌+ℤ◌, ◌-ℤ◌, ◌*ℤ◌, ◌≤ℤ◌, ◌<ℤ◌, IfOk, ℤ, length};
ghost use Rattle.fixed_geom.specs.Division.{IsFloor, floor_div as floor_of};
ghost use Rattle.fixed_geom.specs.Vectors.{AreWithin, IsWithin};
ghost use Rattle.camera.specs.Cameras.{IsCamera, max_depth, ray as ray_of};
ghost use Rattle.camera.specs.Slopes.{AreSlopes, IsSlope, IsUnit};

use crate::camera::{Camera, CameraFields};
use crate::ray::pixel_offset;
use fixed_geom::{Vec3, floor_div};
use std::alloc::{AllocError, Global};

/// The slopes of the rays of a camera's pixels. They are made once a camera, and then give each point of a ray by
/// products, with no division.
#[derive(Drop)]
pub struct Slopes {
    pub fields: CameraFields,
    unit_x: i64,
    unit_y: i64,
    columns: Vec<i64>,
    rows: Vec<i64>,
    ghost camera: { IsCamera fields },
    ghost x: { IsUnit fields.fx unit_x },
    ghost y: { IsUnit fields.fy unit_y },
    ghost width: { pos (length columns.items) ≡ fields.width },
    ghost height: { pos (length rows.items) ≡ fields.height },
    ghost in_columns: { AreSlopes fields.cx (fields.fx *ℤ unit_x) columns.items },
    ghost in_rows: { AreSlopes fields.cy (fields.fy *ℤ unit_y) rows.items },
}

impl Slopes {
    /// The slopes of this camera's pixels, or out of memory.
    pub fn make(alloc: Global, camera: &Camera) -> Result<Slopes, AllocError>
        ensures { IfOk result (λ s. s.fields ≡ camera.now) }
    {
        let fields = camera.fields();
        let unit_x = unit_of(fields.fx);
        let unit_y = unit_of(fields.fy);
        let columns = axis_slopes(
            alloc,
            fields.width as u32,
            fields.cx,
            divisor(fields.fx, unit_x),
        )?;
        let rows = axis_slopes(
            alloc,
            fields.height as u32,
            fields.cy,
            divisor(fields.fy, unit_y),
        )?;
        Ok(Slopes {
            fields,
            unit_x,
            unit_y,
            columns,
            rows,
        })
    }

    /// The point at depth `z` on the ray of the pixel in column `u` and row `v`, in the camera's
    /// micrometres. It is within 17 metres on each axis.
    pub fn point(&self, u: u32, v: u32, z: i64) -> Vec3
        requires column { pos u <ℤ self.now.fields.width }
        requires row { pos v <ℤ self.now.fields.height }
        requires front { pos 1 ≤ℤ z }
        requires deep { z ≤ℤ max_depth self.now.fields }
        ensures value { result ≡ ray_of self.now.fields (pos u) (pos v) z }
        ensures bound { AreWithin (pos 17000000) result }
    {
        Vec3 {
            x: ray_axis(self.columns[u as usize], self.unit_x, z),
            y: ray_axis(self.rows[v as usize], self.unit_y, z),
            z,
        }
    }
}

/// How often `2^38` holds a focal length: the unit of the slopes on its axis.
fn unit_of(focal: i64) -> i64
    requires least { pos 1 ≤ℤ focal }
    requires most { focal ≤ℤ pos (2 ^ 30) }
    ensures value { IsFloor (pos (2 ^ 38)) focal result }
    ensures least { pos 1 ≤ℤ result }
    ensures high { result ≤ℤ pos (2 ^ 38) }
    ensures product { (focal *ℤ result) ≤ℤ pos (2 ^ 38) }
    ensures large { pos (2 ^ 37) ≤ℤ (focal *ℤ result) }
{
    0x40_0000_0000i64.div_euclid(focal)
}

/// What the slopes on an axis are made by: a focal length times its unit.
fn divisor(focal: i64, unit: i64) -> i64
    requires product { (focal *ℤ unit) ≤ℤ pos (2 ^ 38) }
    requires large { pos (2 ^ 37) ≤ℤ (focal *ℤ unit) }
    ensures value { result ≡ focal *ℤ unit }
    ensures large { pos (2 ^ 37) ≤ℤ result }
    ensures most { result ≤ℤ pos (2 ^ 38) }
{
    focal * unit
}

/// The slopes of the first pixels on an axis.
fn axis_slopes(alloc: Global, size: u32, centre: i64, by: i64) -> Result<Vec<i64>, AllocError>
    requires size { size ≤ 2048 }
    requires centre { pos 0 ≤ℤ centre }
    requires centre_high { centre ≤ℤ pos 134217728 }
    requires large { pos (2 ^ 37) ≤ℤ by }
    requires most { by ≤ℤ pos (2 ^ 38) }
    ensures count { IfOk result (λ s. length s.items ≡ size) }
    ensures slopes { IfOk result (λ s. AreSlopes centre by s.items) }
{
    let mut slopes = Vec::with_capacity(alloc, size as usize)?;
    for u in 0..size {
        slopes.push(slope_of(pixel_offset(centre, u), by))?;
    }
    Ok(slopes)
}

/// The floor of `2^64 offset / by`, and one more.
fn slope_of(offset: i64, by: i64) -> i64
    requires offset { IsWithin (pos (2 ^ 27)) offset }
    requires large { pos (2 ^ 37) ≤ℤ by }
    requires most { by ≤ℤ pos (2 ^ 38) }
    ensures { IsSlope offset by result }
{
    floor_div(whole(offset), i128::from(by)) as i64 + 1
}

/// `2^64` of an offset.
fn whole(offset: i64) -> i128
    requires { IsWithin (pos (2 ^ 27)) offset }
    ensures value { result ≡ offset *ℤ pos (2 ^ 64) }
    ensures bound { IsWithin (pos (2 ^ 91)) result }
{
    i128::from(offset) * 0x1_0000_0000_0000_0000
}

/// One coordinate of a point at depth `z` on a ray, by its slope and the unit of the slopes.
fn ray_axis(slope: i64, unit: i64, z: i64) -> i64
    requires front { pos 1 ≤ℤ z }
    requires deep { z ≤ℤ pos 17000000 }
    requires unit { pos 1 ≤ℤ unit }
    requires unit_high { unit ≤ℤ pos (2 ^ 38) }
    ensures { (offset focal : ℤ) → IsUnit focal unit → IsSlope offset (focal *ℤ unit) slope → result ≡ floor_of (offset *ℤ z) focal }
{
    upper_half(units(z, unit), slope)
}

fn units(z: i64, unit: i64) -> i64
    requires front { pos 1 ≤ℤ z }
    requires deep { z ≤ℤ pos 17000000 }
    requires least { pos 1 ≤ℤ unit }
    requires most { unit ≤ℤ pos (2 ^ 38) }
    ensures { result ≡ z *ℤ unit }
{
    z * unit
}

/// The upper half of the 128 bits of a product.
fn upper_half(a: i64, b: i64) -> i64
    ensures { result ≡ floor_of (a *ℤ b) (pos (2 ^ 64)) }
{
    ((i128::from(a) * i128::from(b)) >> 64) as i64
}
