ghost use Rattle.std.specs.Prelude.{◌≡◌, ◌+◌, ◌<◌, ◌≤◌, ℕ, pos};
ghost use Rattle.ray_walk.specs.Points.{point_count as point_count_of};
ghost use Rattle.ray_ranges.specs.Tiles.{HasPoint};

use camera::Camera;
use fixed_geom::Pose;
use ray_ranges::PointRange;
use ray_walk::{Walks, point_count};
use streamer::Rest;

/// A map that a camera looks at from a pose: what the walk of each pixel reads.
#[derive(Clone, Copy)]
pub(crate) struct View<'a> {
    pub(crate) walks: Walks,
    pub(crate) rest: &'a Rest,
    pub(crate) count: u32,
    ghost points: { count ≡ point_count_of walks.fields },
    ghost least: { 1 ≤ count },
    ghost most: { count ≤ 16000 },
}

impl<'a> View<'a> {
    /// What the camera sees of the blocks in the heap.
    pub(crate) fn of(camera: &Camera, pose: &Pose, rest: &'a Rest) -> View<'a>
        ensures fields { result.walks.fields ≡ camera.now }
        ensures pose { result.walks.pose ≡ pose.now }
        ensures rest { result.rest.now ≡ rest.now }
    {
        let walks = Walks::make(camera, pose);
        View {
            walks,
            rest,
            count: point_count(&walks.fields),
        }
    }

    /// The number of pixels of a row.
    pub(crate) fn width(&self) -> u32
        ensures { pos result ≡ self.now.walks.fields.width }
    {
        self.walks.fields.width as u32
    }

    /// The number of rows.
    pub(crate) fn height(&self) -> u32
        ensures { pos result ≡ self.now.walks.fields.height }
    {
        self.walks.fields.height as u32
    }

    /// The range of all points at which a hit may end.
    pub(crate) fn all_points(&self) -> PointRange
        ensures { (j : ℕ) → j + 1 < point_count_of self.now.walks.fields → HasPoint result (j + 1) }
    {
        PointRange {
            first: 1,
            last: (self.count - 1) as u16,
        }
    }
}
