ghost use Rattle.std.specs.Prelude.{◌≡◌, ◌&&◌, length};
ghost use Rattle.std.specs.FinMap.{contains_key};
ghost use Rattle.voxel_block.specs.declared.key.BlockKey.{BlockKey as Key};
ghost use Rattle.spatial_hash.specs.Contents.{contents};
ghost use Rattle.spatial_hash.specs.Table.{KeepsSize};
ghost use Rattle.streamer.specs.Places.{IsPlaced, blocks_of};
ghost use Rattle.depth_view.specs.Views.{depth_list};
ghost use Rattle.fusion_core.specs.Frames.{IsFrame, is_active};
ghost use Rattle.fusion_core.specs.Maps.{HasWholeBlocks, fuse as fuse_of};
ghost use Rattle.session.specs.Rooms.{IsReady};

use crate::moving::{enter_all, leave_all, make_all};
use crate::room::Ready;
use crate::updating::update_each;
use depth_view::Depths;
use fusion_core::Frame;
use streamer::Rest;

/// Fuses a frame that is made ready, by the depths of its pixels: blocks that leave go to the store first, then stored
/// ones come in, then fresh ones are made, and those that the frame may see are updated. Takes no memory.
///
/// A block that is not active, or that the frame can't see, stays as it is under the update.
pub fn fuse(rest: &mut Rest, frame: &Frame, depths: &Depths, ready: Ready)
    requires depths { depths.now ≡ depth_list frame.now.camera frame.now.depths }
    requires ready { IsReady frame.now rest.old ready }
    requires frame { IsFrame frame.now }
    requires whole { HasWholeBlocks (blocks_of rest.old) }
    requires placed { IsPlaced rest.old }
    ensures fused { blocks_of rest.new ≡ fuse_of (blocks_of rest.old) frame.now }
    ensures active { (b : Key) → contains_key (contents rest.new.table) b ≡ (contains_key (blocks_of rest.new) b && is_active frame.now b) }
    ensures cells { length rest.new.heap.cells ≡ length rest.old.heap.cells }
    ensures size { KeepsSize rest.old.table rest.new.table }
    ensures placed { IsPlaced rest.new }
{
    let plan = ready.plan;
    leave_all(rest, &plan.leave, ready.packs);
    enter_all(rest, &plan.enter);
    make_all(rest, &plan.fresh);
    let kernel = frame.kernel(depths);
    update_each(rest, frame, &kernel, &plan.stay);
    update_each(rest, frame, &kernel, &plan.enter);
    update_each(rest, frame, &kernel, &plan.fresh);
}
