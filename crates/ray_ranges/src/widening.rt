//! Ranges that are widened.
ghost use Rattle.std.specs.Prelude.{◌≡◌, ◌+◌, ◌*◌, ◌/◌, ◌<◌, ◌≤◌, ℕ, length, slice_set};
ghost use Rattle.ray_ranges.specs.Tables.{HasPoints, IsWidened, joined as joined_of, tile_number as tile_number_of};
ghost use Rattle.ray_ranges.specs.TileBoxes.{HasTiles};
ghost use Rattle.ray_ranges.specs.Tiles.{HasPoint, range_at};

use crate::point_range::PointRange;
use crate::shape::Shape;
use crate::tile_box::TileBox;

/// Widens the ranges of the tiles of a box to have its points.
pub(crate) fn widen_box(ranges: &mut [PointRange], shape: Shape, found: TileBox)
    requires tiles { HasTiles shape found }
    requires length { length ranges.old ≡ shape.down * shape.across * shape.slabs }
    ensures widened { IsWidened shape ranges.old ranges.new }
    ensures covers { (c r : ℕ) → found.left ≤ c → c ≤ found.right → found.top ≤ r → r ≤ found.bottom → HasPoints shape ranges.new (tile_number_of shape c r) found.first found.last }
{
    let low = found.first / shape.slab;
    let high = found.last / shape.slab;
    for row in found.top..found.bottom + 1 {
        widen_row(ranges, shape, found, row, low, high);
    }
}

/// The same for one row of tiles. The points are in the slabs from `low` to `high`.
fn widen_row(
    ranges: &mut [PointRange],
    shape: Shape,
    found: TileBox,
    row: usize,
    low: usize,
    high: usize,
)
    requires tiles { HasTiles shape found }
    requires row { row < shape.down }
    requires low { low ≡ found.first / shape.slab }
    requires high { high ≡ found.last / shape.slab }
    requires length { length ranges.old ≡ shape.down * shape.across * shape.slabs }
    ensures widened { IsWidened shape ranges.old ranges.new }
    ensures covers { (c : ℕ) → found.left ≤ c → c ≤ found.right → HasPoints shape ranges.new (tile_number_of shape c row) found.first found.last }
{
    for column in found.left..found.right + 1 {
        let tile = tile_number(shape, column, row);
        widen_tile(ranges, shape, found, tile, low, high);
    }
}

/// The number of the tile in this column and row of the tiles.
pub(crate) fn tile_number(shape: Shape, column: usize, row: usize) -> usize
    requires column { column < shape.across }
    requires row { row < shape.down }
    ensures value { result ≡ tile_number_of shape column row }
    ensures bound { result < shape.down * shape.across }
{
    row * shape.across + column
}

/// Widens the ranges of a tile to have the points of a box.
fn widen_tile(
    ranges: &mut [PointRange],
    shape: Shape,
    found: TileBox,
    tile: usize,
    low: usize,
    high: usize,
)
    requires tiles { HasTiles shape found }
    requires tile { tile < shape.down * shape.across }
    requires low { low ≡ found.first / shape.slab }
    requires high { high ≡ found.last / shape.slab }
    requires length { length ranges.old ≡ shape.down * shape.across * shape.slabs }
    ensures widened { IsWidened shape ranges.old ranges.new }
    ensures covers { HasPoints shape ranges.new tile found.first found.last }
{
    for w in low..high + 1 {
        widen_slab(ranges, shape, tile, w, found.first, found.last);
    }
}

/// Widens the range of slab `w` of a tile to have those points from `first` to `last` that are in the slab.
fn widen_slab(
    ranges: &mut [PointRange],
    shape: Shape,
    tile: usize,
    w: usize,
    first: usize,
    last: usize,
)
    requires tile { tile < shape.down * shape.across }
    requires w { w < shape.slabs }
    requires first { shape.slab * w ≤ last }
    requires order { first < shape.slab * (w + 1) }
    requires last { last < shape.slab * shape.slabs }
    requires length { length ranges.old ≡ shape.down * shape.across * shape.slabs }
    ensures widened { IsWidened shape ranges.old ranges.new }
    ensures covers { (j : ℕ) → j / shape.slab ≡ w → first ≤ j → j ≤ last → HasPoint (range_at ranges.new (tile * shape.slabs + w)) j }
{
    let start = slab_start(shape, w);
    let end = start + shape.slab - 1;
    let index = range_index(shape, tile, w);
    widen_at(ranges, index, first.max(start) as u16, last.min(end) as u16);
}

/// The first point of slab `w`.
fn slab_start(shape: Shape, w: usize) -> usize
    requires { w < shape.slabs }
    ensures value { result ≡ shape.slab * w }
    ensures bound { result ≤ 15872 }
{
    shape.slab * w
}

/// The index of the range of slab `w` of a tile.
pub(crate) fn range_index(shape: Shape, tile: usize, w: usize) -> usize
    requires tile { tile < shape.down * shape.across }
    requires w { w < shape.slabs }
    ensures value { result ≡ tile * shape.slabs + w }
    ensures bound { result < shape.down * shape.across * shape.slabs }
{
    tile * shape.slabs + w
}

/// Widens the range of an index to have the points from `first` to `last`.
fn widen_at(ranges: &mut [PointRange], index: usize, first: u16, last: u16)
    requires { index < length ranges.old }
    ensures { ranges.new ≡ slice_set ranges.old index (joined_of (range_at ranges.old index) first last) }
{
    ranges[index] = joined(ranges[index], first, last);
}

/// The least range that has the points of a range, and those from `first` to `last`.
fn joined(range: PointRange, first: u16, last: u16) -> PointRange
    ensures { result ≡ joined_of range first last }
{
    PointRange {
        first: range.first.min(first),
        last: range.last.max(last),
    }
}
