//! The tiles and points of a box.
ghost use Rattle.std.specs.Prelude.{◌≡◌, ◌/◌, pos, ◌≤ℤ◌, unsigned_abs};
ghost use Rattle.ray_ranges.specs.TileBoxes.{IsSmall, tiles_of as tiles_of_box};

use crate::boxes::PixelBox;

/// Columns and rows of tiles, and points of the walks of their pixels, each from the first to the last one.
#[derive(Clone, Copy, Debug, PartialEq, Eq)]
pub(crate) struct TileBox {
    pub(crate) left: usize,
    pub(crate) right: usize,
    pub(crate) top: usize,
    pub(crate) bottom: usize,
    pub(crate) first: usize,
    pub(crate) last: usize,
}

/// The tiles and points of a box.
pub(crate) fn tiles_of(found: &PixelBox) -> TileBox
    requires { IsSmall found.now }
    ensures { result ≡ tiles_of_box found.now }
{
    TileBox {
        left: tile(found.columns.low),
        right: tile(found.columns.high),
        top: tile(found.rows.low),
        bottom: tile(found.rows.high),
        first: point(found.points.low),
        last: point(found.points.high),
    }
}

/// The column or row of tiles that a column or row of pixels is in.
fn tile(pixel: i64) -> usize
    requires { pos 0 ≤ℤ pixel }
    ensures { result ≡ unsigned_abs pixel / 8 }
{
    pixel as usize / 8
}

/// A point's number.
fn point(j: i64) -> usize
    requires { pos 0 ≤ℤ j }
    ensures { result ≡ unsigned_abs j }
{
    j as usize
}
