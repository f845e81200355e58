ghost use Rattle.std.specs.Prelude.{◌≡◌, ◌<◌, ◌≤◌, ◌+◌, ◌&&◌, ◌||◌, false, fold, not, length, IsTrue};
ghost use Rattle.std.specs.FinMap.{contains_key, remove};
ghost use Rattle.std.specs.FinSet.{contains};
ghost use Rattle.std.specs.List.{IsDistinct, list_any};
ghost use Rattle.voxel_block.specs.declared.key.BlockKey.{BlockKey as Key};
ghost use Rattle.voxel_block.specs.Chunks.{chunk_of};
ghost use Rattle.voxel_block.specs.Keys.{same_key};
ghost use Rattle.spatial_hash.specs.Contents.{contents};
ghost use Rattle.spatial_hash.specs.Table.{KeepsSize};
ghost use Rattle.streamer.specs.Places.{IsPlaced, blocks_of};
ghost use Rattle.fusion_core.specs.Maps.{touched};
ghost use Rattle.session.specs.Rooms.{Moves};

use streamer::Rest;
use voxel_block::{BlockKey, Packed};

/// Packs resident blocks into the store, each into the memory of one of the packed forms. Takes no memory.
pub fn leave_all(rest: &mut Rest, keys: &[BlockKey], packs: Vec<Packed>)
    requires resident { (b : Key) → IsTrue (list_any (same_key b) keys.now) → IsTrue (contains_key (contents rest.old.table) b) }
    requires opened { (b : Key) → IsTrue (list_any (same_key b) keys.now) → IsTrue (contains rest.old.store.opened (chunk_of b)) }
    requires once { IsDistinct same_key keys.now }
    requires packs { length packs.items ≡ length keys.now }
    requires placed { IsPlaced rest.old }
    ensures moved { Moves rest.old rest.new }
    ensures left { (b : Key) → contains_key (contents rest.new.table) b ≡ (contains_key (contents rest.old.table) b && not (list_any (same_key b) keys.now)) }
    ensures free { length rest.new.heap.free ≡ length rest.old.heap.free + length keys.now }
{
    let mut packs = packs;
    for key in keys {
        leave_next(rest, *key, &mut packs);
    }
}

/// Packs a resident block into the store.
fn leave_next(rest: &mut Rest, key: BlockKey, packs: &mut Vec<Packed>)
    requires resident { IsTrue (contains_key (contents rest.old.table) key) }
    requires opened { IsTrue (contains rest.old.store.opened (chunk_of key)) }
    requires packs { 0 < length packs.old.items }
    ensures moved { Moves rest.old rest.new }
    ensures left { contents rest.new.table ≡ remove (contents rest.old.table) key }
    ensures free { length rest.new.heap.free ≡ length rest.old.heap.free + 1 }
    ensures packs { length packs.new.items + 1 ≡ length packs.old.items }
{
    let Some(packed) = packs.pop() else {
        unreachable!()
    };
    rest.leave(key, packed);
}

/// Unpacks stored blocks into the heap. Takes no memory.
pub fn enter_all(rest: &mut Rest, keys: &[BlockKey])
    requires known { (b : Key) → IsTrue (list_any (same_key b) keys.now) → IsTrue (contains_key (blocks_of rest.old) b) }
    requires out { (b : Key) → IsTrue (list_any (same_key b) keys.now) → contains_key (contents rest.old.table) b ≡ false }
    requires once { IsDistinct same_key keys.now }
    requires free { length keys.now ≤ length rest.old.heap.free }
    requires placed { IsPlaced rest.old }
    ensures moved { Moves rest.old rest.new }
    ensures entered { (b : Key) → contains_key (contents rest.new.table) b ≡ (contains_key (contents rest.old.table) b || list_any (same_key b) keys.now) }
    ensures free { length rest.new.heap.free + length keys.now ≡ length rest.old.heap.free }
{
    for key in keys {
        rest.enter(*key);
    }
}

/// Makes keys known, with new blocks in the heap. Takes no memory.
pub fn make_all(rest: &mut Rest, keys: &[BlockKey])
    requires unknown { (b : Key) → IsTrue (list_any (same_key b) keys.now) → contains_key (blocks_of rest.old) b ≡ false }
    requires once { IsDistinct same_key keys.now }
    requires free { length keys.now ≤ length rest.old.heap.free }
    requires placed { IsPlaced rest.old }
    ensures blocks { blocks_of rest.new ≡ fold touched (blocks_of rest.old) keys.now }
    ensures made { (b : Key) → contains_key (contents rest.new.table) b ≡ (contains_key (contents rest.old.table) b || list_any (same_key b) keys.now) }
    ensures cells { length rest.new.heap.cells ≡ length rest.old.heap.cells }
    ensures size { KeepsSize rest.old.table rest.new.table }
    ensures placed { IsPlaced rest.new }
{
    for key in keys {
        rest.make_fresh(*key);
    }
}
