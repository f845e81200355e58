ghost use Rattle.std.specs.Prelude.{◌≡◌, IsTrue};
ghost use Rattle.std.specs.FinMap.{contains_key, insert};
ghost use Rattle.std.specs.List.{IsDistinct, list_any};
ghost use Rattle.voxel_block.specs.declared.key.BlockKey.{BlockKey as Key};
ghost use Rattle.voxel_block.specs.Keys.{same_key};
ghost use Rattle.fuse_kernel.specs.Updates.{updated};
ghost use Rattle.spatial_hash.specs.Contents.{contents};
ghost use Rattle.streamer.specs.Places.{IsPlaced, blocks_of};
ghost use Rattle.fusion_core.specs.Frames.{IsKernelOf, view};
ghost use Rattle.fusion_core.specs.Maps.{voxels_at};
ghost use Rattle.session.specs.Rooms.{StaysInPlace};
ghost use Rattle.session.specs.Updating.{UpdatesEach};

use fuse_kernel::Kernel;
use fusion_core::Frame;
use streamer::Rest;
use voxel_block::BlockKey;

/// Updates every voxel of the blocks of these keys, which lie in the heap.
pub fn update_each(rest: &mut Rest, frame: &Frame, kernel: &Kernel<'_>, keys: &[BlockKey])
    requires kernel { IsKernelOf frame.now kernel.now }
    requires resident { (b : Key) → IsTrue (list_any (same_key b) keys.now) → IsTrue (contains_key (contents rest.old.table) b) }
    requires once { IsDistinct same_key keys.now }
    requires placed { IsPlaced rest.old }
    ensures updated { UpdatesEach frame.now keys.now (blocks_of rest.old) (blocks_of rest.new) }
    ensures stays { StaysInPlace rest.old rest.new }
{
    for key in keys {
        update_one(rest, frame, kernel, *key);
    }
}

/// Updates every voxel of a block in the heap.
fn update_one(rest: &mut Rest, frame: &Frame, kernel: &Kernel<'_>, key: BlockKey)
    requires kernel { IsKernelOf frame.now kernel.now }
    requires resident { IsTrue (contains_key (contents rest.old.table) key) }
    requires placed { IsPlaced rest.old }
    ensures updated { blocks_of rest.new ≡ insert (blocks_of rest.old) key (updated (view frame.now) frame.now.max_weight key (voxels_at (blocks_of rest.old) key)) }
    ensures stays { StaysInPlace rest.old rest.new }
{
    if let Some(block) = rest.lend_mut(key) {
        frame.update(kernel, block, key);
    }
}
