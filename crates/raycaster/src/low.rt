//! Ranges with the low points of all walks, those whose nearest voxel has a distance of at most 0.
ghost use Rattle.std.specs.Prelude.{IfOk};
ghost use Rattle.streamer.specs.Places.{heap_blocks};
ghost use Rattle.raycaster.specs.Views.{HaveLow};
ghost use Rattle.raycaster.specs.Low.{HaveBlock, IsWider};
ghost use Rattle.raycaster.specs.Walk.{scene_of};

use camera::Camera;
use fixed_geom::Pose;
use ray_ranges::Ranges;
use std::alloc::{AllocError, Global};
use streamer::Rest;
use voxel_block::{Block, BlockKey};

/// Ranges with each low point, by the blocks in the heap.
pub(crate) fn low_ranges(
    alloc: Global,
    camera: &Camera,
    pose: &Pose,
    rest: &Rest,
) -> Result<Ranges, AllocError>
    ensures { IfOk result (λ r. HaveLow (scene_of camera.now pose.now (heap_blocks rest.now)) r) }
{
    let mut ranges = Ranges::make(alloc, camera, pose)?;
    let heap = rest.heap();
    for cell in 0..heap.cell_count() {
        if let Some((key, block)) = heap.lend(cell) {
            add_block(&mut ranges, key, block);
        }
    }
    Ok(ranges)
}

/// Widens the ranges to have each point whose nearest voxel is a low one of the block.
fn add_block(ranges: &mut Ranges, key: BlockKey, block: &Block)
    ensures wider { IsWider ranges.old ranges.new }
    ensures has { HaveBlock ranges.new.camera ranges.new.pose ranges.new key block.now }
{
    let low = block.low_parts();
    for part in 0..8_u16 {
        if low[part as usize] {
            ranges.add(key, part);
        }
    }
}
