ghost use Rattle.std.specs.Prelude.{◌≡◌, ◌*◌, length, pos, ◌<ℤ◌, IfOk, vec_len};
ghost use Rattle.fixed_geom.specs.Poses.{IsPose};
ghost use Rattle.streamer.specs.Places.{heap_blocks};
ghost use Rattle.raycaster.specs.Views.{HaveLow, scene_of_view};
ghost use Rattle.raycaster.specs.Walk.{all_samples, picture, row_samples, scene_of};

use crate::low::low_ranges;
use crate::view::View;
use camera::Camera;
use depth_frame::DepthFrame;
use fixed_geom::Pose;
use ray_ranges::Ranges;
use std::alloc::{AllocError, Global};
use streamer::Rest;
use voxel_block::NoMemory;

/// The picture of a map from a pose: the depth of the first surface on the ray of each pixel, and 0 where there is none.
/// The map is that of the blocks in the heap.
///
/// The ray is walked from `near` to `far` in steps of one voxel, and each point reads the voxel nearest to it. A surface
/// lies between two points whose values are known, where the first is above 0 and the second is not. Its depth is where a
/// straight line from value to value is 0 (Newcombe et al. 2011). A sample is this depth divided by `unit`, and at most
/// 65535. The choice of the points and the roundings are this project's own.
///
/// Most points are not visited. A surface ends at a voxel whose distance is at most 0, so each part of a block that has
/// such a voxel is projected to the image first, and only points of walks that may lie in one are tried.
pub fn render(
    alloc: Global,
    camera: &Camera,
    pose: &Pose,
    rest: &Rest,
) -> Result<DepthFrame, NoMemory>
    ensures picture { IfOk result (λ f. f ≡ picture (scene_of camera.now pose.now (heap_blocks rest.now))) }
    ensures pose { IsPose pose.now }
{
    let view = View::of(camera, pose, rest);
    let ranges = low_ranges(alloc, camera, pose, rest)?;
    let (width, height) = (view.width(), view.height());
    let raw = sample_rows(alloc, &view, &ranges, width, height)?;
    Ok(DepthFrame::make(width, height, raw))
}

/// The samples of all rows.
fn sample_rows(
    alloc: Global,
    view: &View,
    ranges: &Ranges,
    width: u32,
    height: u32,
) -> Result<Vec<u16>, AllocError>
    requires width { pos width ≡ view.now.walks.fields.width }
    requires height { pos height ≡ view.now.walks.fields.height }
    requires low { HaveLow (scene_of_view view.now) ranges.now }
    ensures samples { IfOk result (λ raw. raw.items ≡ all_samples (scene_of_view view.now)) }
    ensures count { IfOk result (λ raw. vec_len raw ≡ width * height) }
{
    let mut samples = vec![in alloc; 0_u16; width as usize]?;
    let row = samples.as_mut_slice();
    let mut raw = Vec::with_capacity(alloc, width as usize * height as usize)?;
    for v in 0..height {
        sample_row(view, ranges, v, row);
        raw.extend_from_slice(row)?;
    }
    Ok(raw)
}

/// Writes row `v` of the picture. The points in the ranges are tried, and no other.
fn sample_row(view: &View, ranges: &Ranges, v: u32, out: &mut [u16])
    requires width { pos (length out.old) ≡ view.now.walks.fields.width }
    requires row { pos v <ℤ view.now.walks.fields.height }
    requires low { HaveLow (scene_of_view view.now) ranges.now }
    ensures { out.new ≡ row_samples (scene_of_view view.now) v }
{
    let mut block = view.first_block();
    for u in 0..view.width() {
        let shown = view.sample(u, v, ranges.tile(u, v), block);
        out[u as usize] = shown.sample;
        block = shown.block;
    }
}

/// Writes row `v` of the picture, one sample for each pixel. Each point is tried, and no memory is taken.
pub fn render_row(camera: &Camera, pose: &Pose, rest: &Rest, v: u32, out: &mut [u16])
    requires width { pos (length out.old) ≡ camera.now.width }
    requires row { pos v <ℤ camera.now.height }
    ensures row { out.new ≡ row_samples (scene_of camera.now pose.now (heap_blocks rest.now)) v }
    ensures pose { IsPose pose.now }
{
    let view = View::of(camera, pose, rest);
    let all = [view.all_points()];
    let mut block = view.first_block();
    for u in 0..view.width() {
        let shown = view.sample(u, v, &all, block);
        out[u as usize] = shown.sample;
        block = shown.block;
    }
}
