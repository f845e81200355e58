ghost use Rattle.std.specs.Prelude.{◌≡◌, ◌<◌, [], pos, ◌+ℤ◌, ◌-ℤ◌, ◌≤ℤ◌, IfSome};
ghost use Rattle.std.specs.Int.{int_max};
ghost use Rattle.fixed_geom.specs.Poses.{world};
ghost use Rattle.fixed_geom.specs.Vectors.{AreWithin};
ghost use Rattle.camera.specs.Cameras.{HasRanges, max_depth, ray as ray_of};
ghost use Rattle.depth_view.specs.Views.{depth_at};
ghost use Rattle.band_walk.specs.BandViews.{view_of_band};
ghost use Rattle.band_walk.specs.Bands.{pixel_blocks, segment_end, segment_start, steps_of};
ghost use Rattle.band_walk.specs.Remaining.{IsSamples, sample_blocks_from};

use crate::band::Band;
use crate::samples::Samples;
use crate::segment::Segment;
use camera::CameraFields;
use fixed_geom::Vec3;

impl<'a> Band<'a> {
    /// The samples of the pixel in column `u` of row `v`, none where it shows no valid depth.
    pub(crate) fn samples(&self, u: u32, v: u32) -> Samples
        requires column { u < self.now.frame.now.width }
        requires row { v < self.now.frame.now.height }
        ensures remaining { sample_blocks_from result ≡ pixel_blocks (view_of_band self.now) u v }
        ensures samples { IsSamples result }
    {
        match self.depth(u, v) {
            Some(d) => Samples::of(self.side, self.segment(u, v, d)),
            None => self.no_samples(),
        }
    }

    /// No samples.
    pub(crate) fn no_samples(&self) -> Samples
        ensures remaining { sample_blocks_from result ≡ [] }
        ensures samples { IsSamples result }
    {
        let origin = Vec3 { x: 0, y: 0, z: 0 };
        Samples::none(
            self.side,
            Segment::between(self.side, &self.steps, origin, origin),
        )
    }

    /// The depth that a pixel shows. `None` where its sample is not valid.
    pub(crate) fn depth(&self, u: u32, v: u32) -> Option<i64>
        requires column { u < self.now.frame.now.width }
        requires row { v < self.now.frame.now.height }
        ensures value { result ≡ depth_at (view_of_band self.now) u v }
        ensures range { IfSome result (λ d. (pos 1 ≤ℤ d) × (d ≤ℤ self.now.camera.now.far)) }
    {
        self.range.depth(self.frame.at(u, v))
    }

    /// The segment round the depth `d` of a pixel.
    pub(crate) fn segment(&self, u: u32, v: u32, d: i64) -> Segment
        requires column { u < self.now.frame.now.width }
        requires row { v < self.now.frame.now.height }
        requires near { pos 1 ≤ℤ d }
        requires far { d ≤ℤ self.now.camera.now.far }
        ensures start { result.start ≡ segment_start (view_of_band self.now) u v d }
        ensures end { result.end ≡ segment_end (view_of_band self.now) u v d }
        ensures n { result.n ≡ steps_of self.now.side.voxel result.start result.end }
    {
        let camera = self.camera.fields();
        let start = self.world_point(u, v, first_depth(&camera, d));
        let end = self.world_point(u, v, last_depth(&camera, d));
        Segment::between(self.side, &self.steps, start, end)
    }

    /// The world point at depth `z` on a pixel's ray.
    fn world_point(&self, u: u32, v: u32, z: i64) -> Vec3
        requires column { u < self.now.frame.now.width }
        requires row { v < self.now.frame.now.height }
        requires front { pos 1 ≤ℤ z }
        requires deep { z ≤ℤ max_depth self.now.camera.now }
        ensures value { result ≡ world self.now.pose.now (ray_of self.now.camera.now (pos u) (pos v) z) }
        ensures bound { AreWithin (pos 151006226) result }
    {
        self.pose.near_world(self.slopes.point(u, v, z))
    }
}

/// The depth where the band of `d` begins: `mu` before it, but not behind the camera.
fn first_depth(camera: &CameraFields, d: i64) -> i64
    requires ranges { HasRanges camera.now }
    requires near { pos 1 ≤ℤ d }
    requires far { d ≤ℤ camera.now.far }
    ensures value { result ≡ int_max (pos 1) (d -ℤ camera.now.mu) }
    ensures front { pos 1 ≤ℤ result }
    ensures deep { result ≤ℤ max_depth camera.now }
{
    (d - camera.mu).max(1)
}

/// The depth where the band of `d` ends: `mu` behind it.
fn last_depth(camera: &CameraFields, d: i64) -> i64
    requires ranges { HasRanges camera.now }
    requires near { pos 1 ≤ℤ d }
    requires far { d ≤ℤ camera.now.far }
    ensures value { result ≡ d +ℤ camera.now.mu }
    ensures front { pos 1 ≤ℤ result }
    ensures deep { result ≤ℤ max_depth camera.now }
{
    d + camera.mu
}
