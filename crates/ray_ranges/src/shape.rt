//! How many tiles and slabs a picture has.
ghost use Rattle.std.specs.Prelude.{◌≡◌, ◌*◌, ◌≤◌, pos, ◌≤ℤ◌};
ghost use Rattle.camera.specs.Cameras.{HasRanges};
ghost use Rattle.ray_ranges.specs.Slabs.{slab_count as slab_count_of, slab_of as slab_of_points, tile_count as tile_count_of};

use camera::CameraFields;
use ray_walk::point_count;

/// The points of a slab, the slabs of a tile, and the tiles of a row and of a column of tiles.
#[derive(Clone, Copy, Debug, PartialEq, Eq)]
pub struct Shape {
    pub slab: usize,
    pub slabs: usize,
    pub across: usize,
    pub down: usize,
    ghost slab_least: { 1 ≤ slab },
    ghost slab_most: { slab ≤ 512 },
    ghost slabs_most: { slabs ≤ 32 },
    ghost across_most: { across ≤ 256 },
    ghost down_most: { down ≤ 256 },
}

impl Shape {
    ghost use Rattle.ray_ranges.specs.Tables.{IsShape};

    /// The shape for a camera.
    pub(crate) fn of(camera: &CameraFields) -> Shape
        requires { HasRanges camera.now }
        ensures { IsShape camera.now result }
    {
        let points = point_count(camera);
        let slab = slab_of(points);
        Shape {
            slab,
            slabs: slab_count(points, slab),
            across: tile_count(camera.width),
            down: tile_count(camera.height),
        }
    }
}

/// The points of a slab, where a walk has so many points: 64 or more, as needed for at most 32 slabs.
fn slab_of(points: u32) -> usize
    requires { points ≤ 16000 }
    ensures value { result ≡ slab_of_points points }
    ensures least { 64 ≤ result }
    ensures most { result ≤ 512 }
    ensures few { points ≤ 32 * result }
{
    if points <= 2048 {
        return 64;
    }
    if points <= 4096 {
        return 128;
    }
    if points <= 8192 {
        return 256;
    }
    512
}

/// How many slabs hold so many points.
fn slab_count(points: u32, slab: usize) -> usize
    requires points { points ≤ 16000 }
    requires slab { 64 ≤ slab }
    requires slab_high { slab ≤ 512 }
    requires few { points ≤ 32 * slab }
    ensures value { result ≡ slab_count_of points slab }
    ensures most { result ≤ 32 }
{
    (points as usize + slab - 1) / slab
}

/// How many tiles hold so many pixels of a row or a column.
fn tile_count(pixels: i64) -> usize
    requires least { pos 1 ≤ℤ pixels }
    requires most { pixels ≤ℤ pos 2048 }
    ensures value { result ≡ tile_count_of pixels }
    ensures most { result ≤ 256 }
{
    (pixels as usize + 7) / 8
}

/// The number of ranges of all tiles.
pub(crate) fn range_count(shape: Shape) -> usize
    ensures { result ≡ shape.down * shape.across * shape.slabs }
{
    tiles(shape) * shape.slabs
}

/// The number of tiles.
fn tiles(shape: Shape) -> usize
    ensures value { result ≡ shape.down * shape.across }
    ensures bound { result ≤ 65536 }
{
    shape.down * shape.across
}
