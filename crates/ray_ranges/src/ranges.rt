ghost use Rattle.std.specs.Prelude.{◌≡◌, ◌*◌, ◌<◌, ◌≤◌, ℕ, pos, ◌<ℤ◌, IfOk, length, slice_range};
ghost use Rattle.ray_ranges.specs.Boxes.{IsInBox, IsInside};
ghost use Rattle.ray_ranges.specs.Cubes.{IsEnd, IsNearCube, part_least};
ghost use Rattle.ray_ranges.specs.Slabs.{slab_of};
ghost use Rattle.ray_ranges.specs.Tables.{HasPoints, IsWidened, RangesHave, tile_number as tile_number_of, tile_of};
ghost use Rattle.ray_ranges.specs.TileBoxes.{HasTiles};
ghost use Rattle.ray_ranges.specs.Tiles.{AreInSlabs};
ghost use Rattle.ray_walk.specs.Points.{point_count};

use crate::boxes::PixelBox;
use crate::parts::part_box;
use crate::point_range::PointRange;
use crate::projector::Projector;
use crate::shape::{Shape, range_count};
use crate::tile_box::{TileBox, tiles_of};
use crate::widening::{range_index, tile_number, widen_box};
use camera::Camera;
use fixed_geom::Pose;
use std::alloc::{AllocError, Global};
use std::marker::Model;
use voxel_block::BlockKey;

/// A range without a point.
const NO_POINTS: PointRange = PointRange {
    first: 65535,
    last: 0,
};

/// For each tile of 8 by 8 pixels of a picture, and each slab of the points of their walks, the range of the points
/// that are to be tried. It is made once for a picture, and then widened by parts of blocks, so that each point that
/// may read a voxel of such a part is in a range. Nothing is said of a walk's first point, at which no hit ends.
#[derive(Drop)]
pub struct Ranges {
    projector: Projector,
    shape: Shape,
    list: Vec<PointRange>,
}

impl Model for Ranges {
    ghost use Rattle.fixed_geom.specs.PoseTest.{pose_of};
    ghost use Rattle.ray_ranges.specs.Tables.{Table, IsTable};

    ghost Value = { Table };

    ghost view = { λ r. record { camera = r.projector.fields; pose = pose_of r.projector.rows; shape = r.shape; list = r.list.items } };

    ghost invariant = { λ r. IsTable (record { camera = r.projector.fields; pose = pose_of r.projector.rows; shape = r.shape; list = r.list.items }) };
}

impl Ranges {
    /// The ranges for a picture, with no point, or out of memory.
    pub fn make(alloc: Global, camera: &Camera, pose: &Pose) -> Result<Ranges, AllocError>
        ensures camera { IfOk result (λ r. r.camera ≡ camera.now) }
        ensures pose { IfOk result (λ r. r.pose ≡ pose.now) }
        ensures empty { IfOk result (λ r. (u v j : ℕ) → ¬ RangesHave r u v j) }
    {
        let projector = Projector::make(camera, pose);
        let shape = Shape::of(&projector.fields);
        let list = vec![in alloc; NO_POINTS; range_count(shape)]?;
        Ok(Ranges {
            projector,
            shape,
            list,
        })
    }

    /// Widens the ranges to have each point that may read a voxel of a part of a block. The bits of the part's number
    /// say which half of the block it is in: bit 0 on x, bit 1 on y and bit 2 on z.
    pub fn add(&mut self, key: BlockKey, part: u16)
        requires { part < 8 }
        ensures camera { self.new.camera ≡ self.old.camera }
        ensures pose { self.new.pose ≡ self.old.pose }
        ensures kept { (u v j : ℕ) → RangesHave self.old u v j → RangesHave self.new u v j }
        ensures covers { (u v j : ℕ) → IsEnd self.new.camera u v j → IsNearCube self.new.camera self.new.pose (part_least key part) (pos 4) u v j → RangesHave self.new u v j }
    {
        match part_box(&self.projector, key, part) {
            Some(found) => self.widen(&found),
            None => {}
        }
    }

    /// Widens the ranges to have the points of a box.
    fn widen(&mut self, found: &PixelBox)
        requires { IsInside self.old.camera found.now }
        ensures camera { self.new.camera ≡ self.old.camera }
        ensures pose { self.new.pose ≡ self.old.pose }
        ensures kept { (u v j : ℕ) → RangesHave self.old u v j → RangesHave self.new u v j }
        ensures covers { (u v j : ℕ) → IsInBox found.now (pos u) (pos v) (pos j) → RangesHave self.new u v j }
    {
        widen_list(&mut self.list, self.shape, tiles_of(found));
    }

    /// The number of points of a slab: the points of a walk are put into slabs of so many.
    pub fn slab(&self) -> u32
        ensures value { result ≡ self.now.shape.slab }
        ensures size { result ≡ slab_of (point_count self.now.camera) }
        ensures least { 1 ≤ result }
        ensures most { result ≤ 512 }
    {
        self.shape.slab as u32
    }

    /// The ranges of the tile that has the pixel in column `u` and row `v`, one for each slab.
    pub fn tile(&self, u: u32, v: u32) -> &[PointRange]
        requires column { pos u <ℤ self.now.camera.width }
        requires row { pos v <ℤ self.now.camera.height }
        ensures value { result.now ≡ tile_of self.now u v }
        ensures slabs { AreInSlabs result.now self.now.shape.slab }
    {
        let tile = tile_number(self.shape, u as usize / 8, v as usize / 8);
        let start = range_index(self.shape, tile, 0);
        ranges_between(self.list.as_slice(), start, start + self.shape.slabs)
    }
}

/// Widens the ranges of the tiles of a box to have its points.
fn widen_list(list: &mut Vec<PointRange>, shape: Shape, found: TileBox)
    requires tiles { HasTiles shape found }
    requires length { length list.old.items ≡ shape.down * shape.across * shape.slabs }
    ensures widened { IsWidened shape list.old.items list.new.items }
    ensures covers { (c r : ℕ) → found.left ≤ c → c ≤ found.right → found.top ≤ r → r ≤ found.bottom → HasPoints shape list.new.items (tile_number_of shape c r) found.first found.last }
{
    widen_box(list.as_mut_slice(), shape, found);
}

/// The ranges from one index to before another one.
fn ranges_between(ranges: &[PointRange], start: usize, end: usize) -> &[PointRange]
    requires order { start ≤ end }
    requires end { end ≤ length ranges.now }
    ensures { result.now ≡ slice_range ranges.now start end }
{
    &ranges[start..end]
}
