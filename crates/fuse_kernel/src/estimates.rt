//! Estimates of the pixels that the voxels of a block project to, in floats. Nothing is proved of them, since each is
//! tested before it is believed.
ghost use Rattle.std.specs.Prelude.{◌^◌, ◌<◌, pos};
ghost use Rattle.fixed_geom.specs.Vectors.{IsWithin};
ghost use Rattle.fuse_kernel.specs.VoxelSteps.{HasStepBounds, NearCamQ30Within};

use crate::near_cam_q30::NearCamQ30;
use crate::pixel_axis::PixelAxis;
use crate::voxel_steps::VoxelSteps;
use std::simd::f32x8;

/// By how much an estimate is raised, in pixels: whole quotients are frequent, and an error of the floats must not take
/// one for less.
const ROUNDING: f32 = 0.000_488_281_25;

/// A float of this size has whole numbers in its last bits.
const WHOLE: f32 = 12_582_912.0;

/// Estimates of the columns and rows of the pixels of a row of 8 voxels, in the lowest 16 bits.
#[derive(Clone, Copy)]
pub(crate) struct RowEstimates {
    u: [u32; 8],
    v: [u32; 8],
}

/// A camera point, or a step, whose first two coordinates are times the focal lengths.
#[derive(Clone, Copy)]
struct Scaled {
    x: f32,
    y: f32,
    z: f32,
}

/// What the estimates of a block are made of: the first voxel's camera point, the steps along the axes of the block, and
/// the centre of the image in pixels.
#[derive(Clone, Copy)]
pub(crate) struct Estimates {
    corner: Scaled,
    x: Scaled,
    y: Scaled,
    z: Scaled,
    cx: f32,
    cy: f32,
}

impl Estimates {
    pub(crate) fn of(steps: &VoxelSteps, columns: &PixelAxis, rows: &PixelAxis) -> Estimates
        requires { HasStepBounds steps.now }
    {
        let (fx, fy) = (pixels(columns.f), pixels(rows.f));
        Estimates {
            corner: point(steps.corner).by(fx, fy),
            x: step(steps.x).by(fx, fy),
            y: step(steps.y).by(fx, fy),
            z: step(steps.z).by(fx, fy),
            cx: pixels(columns.c) + ROUNDING,
            cy: pixels(rows.c) + ROUNDING,
        }
    }

    /// Estimates of the pixels of a row along x.
    pub(crate) fn row(&self, row: u16) -> RowEstimates
        requires { row < 64 }
    {
        let start = self.corner.plus(self.y, row % 8).plus(self.z, row / 8);
        let x = along(start.x, self.x.x);
        let y = along(start.y, self.x.y);
        let inverse = f32x8::splat(1.0) / along(start.z, self.x.z);
        RowEstimates {
            u: nearest(x * inverse + f32x8::splat(self.cx)),
            v: nearest(y * inverse + f32x8::splat(self.cy)),
        }
    }
}

impl RowEstimates {
    /// The estimates of the column and the row of the pixel of a voxel.
    pub(crate) fn at(&self, x: u16) -> (i16, i16)
        requires { x < 8 }
    {
        let x = usize::from(x);
        (low_bits(self.u[x]), low_bits(self.v[x]))
    }
}

/// A coordinate along a row of 8 voxels.
fn along(start: f32, step: f32) -> f32x8 {
    f32x8::from_array([0.0, 1.0, 2.0, 3.0, 4.0, 5.0, 6.0, 7.0]) * f32x8::splat(step)
        + f32x8::splat(start)
}

impl Scaled {
    /// The same with its first two coordinates times the focal lengths.
    fn by(self, fx: f32, fy: f32) -> Scaled {
        Scaled {
            x: self.x * fx,
            y: self.y * fy,
            z: self.z,
        }
    }

    /// The point after `n` steps.
    fn plus(self, step: Scaled, n: u16) -> Scaled {
        let n = f32::from(n);
        Scaled {
            x: self.x + n * step.x,
            y: self.y + n * step.y,
            z: self.z + n * step.z,
        }
    }
}

/// Scaled camera coordinates in micrometres.
fn point(near_cam_q30: NearCamQ30) -> Scaled
    requires { NearCamQ30Within (pos (2 ^ 55)) near_cam_q30 }
{
    let a = near_cam_q30;
    Scaled {
        x: float(a.x >> 30),
        y: float(a.y >> 30),
        z: float(a.z >> 30),
    }
}

/// A step in micrometres.
fn step(step: NearCamQ30) -> Scaled
    requires { NearCamQ30Within (pos (2 ^ 47)) step }
{
    Scaled {
        x: float(step.x >> 17) / 8192.0,
        y: float(step.y >> 17) / 8192.0,
        z: float(step.z >> 17) / 8192.0,
    }
}

/// A length in pixels, of one in 1/65536 pixel.
fn pixels(length: i64) -> f32
    requires { IsWithin (pos (2 ^ 30)) length }
{
    float(length) / 65536.0
}

/// A number as a float.
fn float(x: i64) -> f32
    requires { IsWithin (pos (2 ^ 30)) x }
{
    f32::from((x >> 16) as i16) * 65536.0 + f32::from((x & 0xffff) as u16)
}

/// The whole numbers nearest to coordinates in the lowest 16 bits, where they fit those.
fn nearest(coordinates: f32x8) -> [u32; 8] {
    number_bits(coordinates + f32x8::splat(WHOLE))
}

/// The bits of floats. A NaN and a number below 0 have those of 0.
fn number_bits(x: f32x8) -> [u32; 8] {
    let zero = f32x8::splat(0.0);
    x.simd_ge(zero).select(x, zero).to_bits().to_array()
}

/// The lowest 16 bits as a number.
fn low_bits(bits: u32) -> i16 {
    ((bits & 0xffff) as u16).cast_signed()
}
