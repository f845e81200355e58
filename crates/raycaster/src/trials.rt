//! The hit of a pixel's walk, by points that are tried.
ghost use Rattle.std.specs.Prelude.{◌≡◌, ◌≤◌, ◌-◌, pos, ◌<ℤ◌, None, Some, ℕ, if◌then◌else◌};
ghost use Rattle.ray_walk.specs.Points.{IsPoint, point_depth as point_depth_of};
ghost use Rattle.raycaster.specs.Tries.{AreAscending, HasNoEnd, HaveAllEnds, IsFirstEnd, is_low as is_low_of};
ghost use Rattle.raycaster.specs.Views.{IsLookedUp, scene_of_view};
ghost use Rattle.raycaster.specs.Walk.{falls, hit_sample as hit_sample_of, point_value, sample as sample_of, walk_points};

use crate::last_block::LastBlock;
use crate::surface::hit_sample;
use crate::view::View;
use ray_ranges::PointRange;
use ray_walk::point_depth;
use voxel_block::BlockKey;

/// The known value at a point of a walk, and the block that it was read in.
#[derive(Clone, Copy)]
struct Reading<'a> {
    value: Option<i16>,
    block: LastBlock<'a>,
}

/// The sample of a hit, if there is one, and the block that was read last.
#[derive(Clone, Copy)]
struct Trial<'a> {
    sample: Option<u16>,
    block: LastBlock<'a>,
}

/// The sample of a pixel, and the block that was read last.
#[derive(Clone, Copy)]
pub(crate) struct Shown<'a> {
    pub(crate) sample: u16,
    pub(crate) block: LastBlock<'a>,
}

impl<'a> View<'a> {
    /// A block to begin with.
    pub(crate) fn first_block(&self) -> LastBlock<'a>
        ensures { IsLookedUp self.now.rest.now result }
    {
        LastBlock::of(self.rest, BlockKey { x: 0, y: 0, z: 0 })
    }

    /// The sample of the pixel in column `u` and row `v`. The points in the ranges are tried, and no other.
    pub(crate) fn sample(
        &self,
        u: u32,
        v: u32,
        ranges: &[PointRange],
        last: LastBlock<'a>,
    ) -> Shown<'a>
        requires column { pos u <ℤ self.now.walks.fields.width }
        requires row { pos v <ℤ self.now.walks.fields.height }
        requires ends { HaveAllEnds (walk_points (scene_of_view self.now) u v) ranges.now }
        requires order { AreAscending ranges.now }
        requires last { IsLookedUp self.now.rest.now last }
        ensures sample { result.sample ≡ sample_of (scene_of_view self.now) u v }
        ensures looked_up { IsLookedUp self.now.rest.now result.block }
    {
        let mut block = last;
        for i in 0..ranges.len() {
            let trial = self.try_range(u, v, ranges[i], block);
            block = trial.block;
            if let Some(sample) = trial.sample {
                return Shown { sample, block };
            }
        }
        Shown { sample: 0, block }
    }

    /// The first hit that ends at a point of the range.
    fn try_range(&self, u: u32, v: u32, range: PointRange, last: LastBlock<'a>) -> Trial<'a>
        requires column { pos u <ℤ self.now.walks.fields.width }
        requires row { pos v <ℤ self.now.walks.fields.height }
        requires last { IsLookedUp self.now.rest.now last }
        ensures none { result.sample ≡ None → HasNoEnd (walk_points (scene_of_view self.now) u v) range }
        ensures some { (x : ℕ) → result.sample ≡ Some x → IsFirstEnd self.now.walks.fields (walk_points (scene_of_view self.now) u v) range x }
        ensures looked_up { IsLookedUp self.now.rest.now result.block }
    {
        let mut block = last;
        for j in u32::from(range.first).max(1)..(u32::from(range.last) + 1).min(self.count) {
            let trial = self.try_point(u, v, j, block);
            if trial.sample.is_some() {
                return trial;
            }
            block = trial.block;
        }
        Trial {
            sample: None,
            block,
        }
    }

    /// The hit that ends at point `j`. Most points are not low, so that the point before is seldom read.
    fn try_point(&self, u: u32, v: u32, j: u32, last: LastBlock<'a>) -> Trial<'a>
        requires point { IsPoint self.now.walks.fields u v j }
        requires late { 1 ≤ j }
        requires last { IsLookedUp self.now.rest.now last }
        ensures sample { result.sample ≡ (if falls (point_value (scene_of_view self.now) u v (j - 1)) (point_value (scene_of_view self.now) u v j) then Some (hit_sample_of self.now.walks.fields (point_depth_of self.now.walks.fields (j - 1)) (point_value (scene_of_view self.now) u v (j - 1)) (point_value (scene_of_view self.now) u v j)) else None) }
        ensures looked_up { IsLookedUp self.now.rest.now result.block }
    {
        let behind = self.read(u, v, j, last);
        if !is_low(behind.value) {
            return Trial {
                sample: None,
                block: behind.block,
            };
        }
        let front = self.read(u, v, j - 1, behind.block);
        let z = point_depth(&self.walks.fields, j - 1);
        Trial {
            sample: hit_sample(&self.walks.fields, z, front.value, behind.value),
            block: front.block,
        }
    }

    /// The reading at point `j`, by the block that was read last.
    fn read(&self, u: u32, v: u32, j: u32, last: LastBlock<'a>) -> Reading<'a>
        requires point { IsPoint self.now.walks.fields u v j }
        requires last { IsLookedUp self.now.rest.now last }
        ensures value { result.value ≡ point_value (scene_of_view self.now) u v j }
        ensures looked_up { IsLookedUp self.now.rest.now result.block }
    {
        let (key, i) = self.walks.voxel(u, v, j);
        let block = last.next(self.rest, key);
        Reading {
            value: block.value(i),
            block,
        }
    }
}

/// Whether a value is known and at most 0.
fn is_low(value: Option<i16>) -> bool
    ensures { result ≡ is_low_of value }
{
    match value {
        Some(f) => f <= 0,
        None => false,
    }
}
