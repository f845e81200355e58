ghost use Rattle.std.specs.Prelude.{◌≡◌, ◌≤◌, ◌+◌, ◌^◌, pos, ◌≤ℤ◌, IfOk, [], ◌++◌, length, map, slice_index, vec_len, vec_capacity};
ghost use Rattle.fixed_geom.specs.Vectors.{IsWithin};
ghost use Rattle.depth_frame.specs.DepthMaps.{DepthMap};
ghost use Rattle.camera.specs.declared.camera.CameraFields.{CameraFields as Fields};
ghost use Rattle.camera.specs.SampleRanges.{IsRangeOf};
ghost use Rattle.depth_view.specs.Views.{depth_list, listed_depth};

use camera::{Camera, SampleRange};
use depth_frame::DepthFrame;
use std::alloc::Global;
use std::marker::Model;
use voxel_block::NoMemory;

/// The depth of a pixel that shows none. It lies so far behind the camera that no point is near it.
const NO_DEPTH: i32 = -1_073_741_824;

/// The depths of a frame's pixels in micrometres, row by row, by which a pixel needs no test of its sample. A pixel that
/// shows no depth has the depth -2^30.
#[derive(Drop)]
pub struct Depths {
    depths: Vec<i32>,
}

impl Model for Depths {
    ghost use Rattle.std.specs.Prelude.{List, ℤ};

    ghost Value = { List ℤ };

    ghost view = { λ d. d.depths.items };
}

impl Depths {
    /// No depths, which takes no memory.
    pub fn make(alloc: Global) -> Depths
        ensures { result ≡ [] }
    {
        Depths {
            depths: Vec::new(alloc),
        }
    }

    /// Replaces the depths by those of a frame. The memory of the depths before is used again.
    ///
    /// # Errors
    ///
    /// Out of memory. The depths are not known then.
    pub fn fill(&mut self, camera: &Camera, frame: &DepthFrame) -> Result<(), NoMemory>
        ensures { IfOk result (λ _. self.new ≡ depth_list camera.now frame.now) }
    {
        let samples = frame.samples();
        self.depths.clear();
        self.depths.reserve(samples.len())?;
        push_depths(&mut self.depths, camera, samples);
        Ok(())
    }

    /// The depth of the pixel of this index, column `u` of row `v` having the index `u + width * v`. An index past the
    /// last pixel has the depth -2^30.
    pub fn at(&self, index: usize) -> i64
        ensures value { (k : Fields) (p : DepthMap) → self.now ≡ depth_list k p → result ≡ listed_depth k (slice_index p.raw index) }
        ensures bound { IsWithin (pos (2 ^ 31)) result }
    {
        if index < self.depths.len() {
            i64::from(self.depths[index])
        } else {
            i64::from(NO_DEPTH)
        }
    }
}

/// Appends the depth of each sample.
fn push_depths(depths: &mut Vec<i32>, camera: &Camera, samples: &[u16])
    requires { vec_len depths.old + length samples.now ≤ vec_capacity depths.old }
    ensures { depths.new.items ≡ depths.old.items ++ map (listed_depth camera.now) samples.now }
{
    let range = SampleRange::of(camera);
    for i in 0..samples.len() {
        depths.push_reserved(depth(range, camera, samples[i]));
    }
}

/// The depth of a sample, -2^30 where the camera does not take it.
fn depth(range: SampleRange, camera: &Camera, sample: u16) -> i32
    requires { IsRangeOf camera.now range.unit range.least range.most }
    ensures { result ≡ listed_depth camera.now sample }
{
    match range.depth(sample) {
        Some(depth) => narrow(depth),
        None => NO_DEPTH,
    }
}

/// A depth in 32 bits.
fn narrow(depth: i64) -> i32
    requires low { pos 1 ≤ℤ depth }
    requires high { depth ≤ℤ pos 16000000 }
    ensures { result ≡ depth }
{
    depth as i32
}
