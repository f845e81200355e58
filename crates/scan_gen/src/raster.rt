ghost use Rattle.std.specs.Prelude.{◌≡◌, ◌≤◌, ◌<◌, ◌+◌, ◌*◌, ◌++◌, pos, vec_len, vec_capacity};
ghost use Rattle.fixed_geom.specs.Vectors.{IsWithin};
ghost use Rattle.scan_gen.specs.Generated.{raster_front, row_front, two_bytes};
ghost use Rattle.scan_gen.specs.Scene.{IsInBounds, column_offset as column_offset_of, row_offset as row_offset_of, sample_of};

use crate::depth::{depth, row_depth};
use crate::view::View;

/// Appends the first `height` rows of a view's depth map, without taking memory.
pub(crate) fn push_raster(bytes: &mut Vec<u8>, view: &View, height: u32)
    requires bounds { IsInBounds view.now }
    requires height { height ≤ 480 }
    requires room { vec_len bytes.old + 1280 * height ≤ vec_capacity bytes.old }
    ensures items { bytes.new.items ≡ bytes.old.items ++ raster_front view.now height }
    ensures len { vec_len bytes.new ≡ vec_len bytes.old + 1280 * height }
    ensures capacity { vec_capacity bytes.new ≡ vec_capacity bytes.old }
{
    for v in 0..height {
        push_row(bytes, view, v, 640);
    }
}

/// Appends the first `width` samples of row `v`.
fn push_row(bytes: &mut Vec<u8>, view: &View, v: u32, width: u32)
    requires bounds { IsInBounds view.now }
    requires v { v < 480 }
    requires width { width ≤ 640 }
    requires room { vec_len bytes.old + 2 * width ≤ vec_capacity bytes.old }
    ensures items { bytes.new.items ≡ bytes.old.items ++ row_front view.now v width }
    ensures len { vec_len bytes.new ≡ vec_len bytes.old + 2 * width }
    ensures capacity { vec_capacity bytes.new ≡ vec_capacity bytes.old }
{
    let dy = row_offset(v);
    let row = row_depth(view, dy);
    for u in 0..width {
        push_sample(bytes, depth(view, row, column_offset(u), dy));
    }
}

/// Appends the sample of a depth.
fn push_sample(bytes: &mut Vec<u8>, depth: u64)
    requires depth { depth ≤ 2500000 }
    requires room { vec_len bytes.old + 2 ≤ vec_capacity bytes.old }
    ensures items { bytes.new.items ≡ bytes.old.items ++ two_bytes (sample_of depth) }
    ensures len { vec_len bytes.new ≡ vec_len bytes.old + 2 }
    ensures capacity { vec_capacity bytes.new ≡ vec_capacity bytes.old }
{
    let sample = (depth / 1000) as u32;
    bytes.push_reserved((sample / 256) as u8);
    bytes.push_reserved((sample % 256) as u8);
}

/// The offset of column `u` from the principal point, in units of `2^-16` pixels.
fn column_offset(u: u32) -> i64
    requires { u < 640 }
    ensures value { result ≡ column_offset_of u }
    ensures bound { IsWithin (pos 67108864) result }
{
    65_536 * i64::from(u) - 20_938_752
}

/// The offset of row `v` from it.
fn row_offset(v: u32) -> i64
    requires { v < 480 }
    ensures value { result ≡ row_offset_of v }
    ensures bound { IsWithin (pos 67108864) result }
{
    65_536 * i64::from(v) - 15_695_872
}
