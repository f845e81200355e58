ghost use Rattle.std.specs.Prelude.{◌≡◌, ◌≤◌, ◌<◌, ◌+◌, ◌-◌, ◌*◌, ◌/◌, ◌^◌, pos, ◌+ℤ◌, ◌-ℤ◌, ◌*ℤ◌, ◌≤ℤ◌};
ghost use Rattle.fixed_geom.specs.Division.{floor_div};
ghost use Rattle.fixed_geom.specs.Vectors.{AreWithin, IsWithin};
ghost use Rattle.band_walk.specs.Bands.{segment_point, spread as spread_of, steps_of};

use crate::side::BlockSide;
use crate::steps::{Steps, share};
use fixed_geom::Vec3;

/// A segment and its samples 0 to `n`, by equal steps.
///
/// The ends are world points in micrometres, within 151 metres of the origin on each axis.
#[derive(Clone, Copy)]
pub(crate) struct Segment {
    pub(crate) start: Vec3,
    pub(crate) end: Vec3,
    pub(crate) n: u32,
    reciprocal: u64,
    ghost start_within: { AreWithin (pos 151006226) start },
    ghost end_within: { AreWithin (pos 151006226) end },
    ghost least: { 1 ≤ n },
    ghost most: { n ≤ 75504 },
    ghost made: { 2 ≤ n → reciprocal ≡ (2 ^ 64 - 1) / n + 1 },
}

impl Segment {
    /// The segment between two points. Its steps are at most half a block on each axis.
    pub(crate) fn between(side: BlockSide, steps: &Steps, start: Vec3, end: Vec3) -> Segment
        requires start { AreWithin (pos 151006226) start }
        requires end { AreWithin (pos 151006226) end }
        ensures start { result.start ≡ start }
        ensures end { result.end ≡ end }
        ensures n { result.n ≡ steps_of side.voxel start end }
    {
        let n = 1 + side.half_blocks(spread(start, end));
        Segment {
            start,
            end,
            n,
            reciprocal: steps.reciprocal(n),
        }
    }

    /// Sample `j`.
    pub(crate) fn sample(self, j: u32) -> Vec3
        requires { j ≤ self.n }
        ensures value { result ≡ segment_point self.start self.end self.n j }
        ensures bound { AreWithin (pos 151006226) result }
    {
        if j == 0 {
            return self.start;
        }
        if j == self.n {
            return self.end;
        }
        self.inner_sample(j)
    }

    /// Sample `j`, which is not at an end.
    pub(crate) fn inner_sample(self, j: u32) -> Vec3
        requires low { 1 ≤ j }
        requires high { j < self.n }
        ensures value { result ≡ segment_point self.start self.end self.n j }
        ensures bound { AreWithin (pos 151006226) result }
    {
        let (n, reciprocal) = (self.n, self.reciprocal);
        Vec3 {
            x: sample_axis(self.start.x, self.end.x, n, reciprocal, j),
            y: sample_axis(self.start.y, self.end.y, n, reciprocal, j),
            z: sample_axis(self.start.z, self.end.z, n, reciprocal, j),
        }
    }
}

/// The greatest difference of the coordinates of two points.
fn spread(a: Vec3, b: Vec3) -> u64
    requires a { AreWithin (pos 151006226) a }
    requires b { AreWithin (pos 151006226) b }
    ensures value { result ≡ spread_of a b }
    ensures bound { result ≤ 302012452 }
{
    let (x, y, z) = (b.x.abs_diff(a.x), b.y.abs_diff(a.y), b.z.abs_diff(a.z));
    x.max(y.max(z))
}

/// One coordinate of sample `j` of `n`.
fn sample_axis(start: i64, end: i64, n: u32, reciprocal: u64, j: u32) -> i64
    requires start { IsWithin (pos 151006226) start }
    requires end { IsWithin (pos 151006226) end }
    requires n { 2 ≤ n }
    requires n_high { n ≤ 75504 }
    requires reciprocal { reciprocal ≡ (2 ^ 64 - 1) / n + 1 }
    requires j { j ≤ n }
    ensures value { result ≡ start +ℤ floor_div (pos j *ℤ (end -ℤ start)) (pos n) }
    ensures bound { IsWithin (pos 151006226) result }
{
    start + share(offset_by_steps(start, end, j), n, reciprocal)
}

/// `j` times the offset from `start` to `end`.
fn offset_by_steps(start: i64, end: i64, j: u32) -> i64
    requires start { IsWithin (pos 151006226) start }
    requires end { IsWithin (pos 151006226) end }
    requires j { j ≤ 75504 }
    ensures value { result ≡ pos j *ℤ (end -ℤ start) }
    ensures bound { IsWithin (pos (302012452 * j)) result }
{
    i64::from(j) * (end - start)
}
