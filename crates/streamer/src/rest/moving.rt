ghost use Rattle.std.specs.Prelude.{◌≡◌, ◌≢◌, ℕ, ◌+◌, ◌<◌, ◌||◌, false, length, IsTrue, List, None, OnOk, Some, is_some};
ghost use Rattle.std.specs.FinMap.{contains_key, insert, remove};
ghost use Rattle.std.specs.FinSet.{contains};
ghost use Rattle.voxel_block.specs.declared.key.BlockKey.{BlockKey as Key};
ghost use Rattle.voxel_block.specs.declared.voxel.Voxel.{Voxel};
ghost use Rattle.voxel_block.specs.Blocks.{new_block};
ghost use Rattle.voxel_block.specs.Keys.{same_key};
ghost use Rattle.voxel_block.specs.Packing.{IsBlock, IsKey, packed as packed_form, voxels_in};
ghost use Rattle.voxel_block.specs.Chunks.{chunk_of};
ghost use Rattle.spatial_hash.specs.Contents.{contents};
ghost use Rattle.spatial_hash.specs.Table.{KeepsSize};
ghost use Rattle.chunk_store.specs.Store.{opened_with};
ghost use Rattle.block_heap.specs.HeapLending.{with_block_at};
ghost use Rattle.streamer.specs.Owners.{block_in, owner_at};
ghost use Rattle.streamer.specs.Places.{IsPackedBlock, IsPlaced, blocks_of};

use super::Rest;
use crate::table::cell_of;
use block_heap::Heap;
use std::alloc::Global;
use voxel_block::{BlockKey, NoMemory, Packed, pack_into, unpack_into};

impl Rest {
    /// Opens the chunks of these keys, so that their blocks can go to the store. No block moves.
    ///
    /// After an error some of the chunks may be opened.
    pub fn reserve_out(&mut self, alloc: Global, keys: &[BlockKey]) -> Result<(), NoMemory>
        ensures ok { OnOk result (self.new.store.opened ≡ opened_with self.old.store.opened keys.now) }
        ensures table { self.new.table ≡ self.old.table }
        ensures heap { self.new.heap ≡ self.old.heap }
        ensures contents { self.new.store.contents ≡ self.old.store.contents }
        ensures placed { IsPlaced self.new }
    {
        self.store.reserve_out(alloc, keys)
    }

    /// Packs the block of a resident key into the store, into the memory of `packed`. Its cell is free. Takes no memory.
    pub fn leave(&mut self, key: BlockKey, packed: Packed)
        requires resident { IsTrue (contains_key (contents self.old.table) key) }
        requires opened { IsTrue (contains self.old.store.opened (chunk_of key)) }
        ensures blocks { blocks_of self.new ≡ blocks_of self.old }
        ensures left { contents self.new.table ≡ remove (contents self.old.table) key }
        ensures opened { self.new.store.opened ≡ self.old.store.opened }
        ensures free { length self.new.heap.free ≡ length self.old.heap.free + 1 }
        ensures cells { length self.new.heap.cells ≡ length self.old.heap.cells }
        ensures size { KeepsSize self.old.table self.new.table }
        ensures placed { IsPlaced self.new }
    {
        let Some(cell) = cell_of(&self.hash, key) else {
            unreachable!()
        };
        let packed = packed_block(&self.heap, cell, key, packed);
        self.remove_at(cell);
        self.store.put_reserved(key, packed);
    }

    /// Unpacks the block of a stored key into a free cell. Takes no memory.
    pub fn enter(&mut self, key: BlockKey)
        requires stored { IsTrue (contains_key self.old.store.contents key) }
        requires free { 0 < length self.old.heap.free }
        ensures blocks { blocks_of self.new ≡ blocks_of self.old }
        ensures others { (b : Key) → contains_key (contents self.new.table) b ≡ (same_key b key || contains_key (contents self.old.table) b) }
        ensures opened { self.new.store.opened ≡ self.old.store.opened }
        ensures free { length self.new.heap.free + 1 ≡ length self.old.heap.free }
        ensures cells { length self.new.heap.cells ≡ length self.old.heap.cells }
        ensures size { KeepsSize self.old.table self.new.table }
        ensures placed { IsPlaced self.new }
    {
        let Some(packed) = self.store.take(key) else {
            unreachable!()
        };
        let Some(cell) = self.heap.draw(key) else {
            unreachable!()
        };
        unpack_to(&mut self.heap, cell, &packed);
        if self.hash.insert(key, cell).is_err() {
            unreachable!()
        }
    }

    /// Makes a key known that is not, with a new block in a free cell. Takes no memory.
    pub fn make_fresh(&mut self, key: BlockKey)
        requires unknown { contains_key (blocks_of self.old) key ≡ false }
        requires free { 0 < length self.old.heap.free }
        ensures blocks { blocks_of self.new ≡ insert (blocks_of self.old) key new_block }
        ensures others { (b : Key) → contains_key (contents self.new.table) b ≡ (same_key b key || contains_key (contents self.old.table) b) }
        ensures store { self.new.store ≡ self.old.store }
        ensures free { length self.new.heap.free + 1 ≡ length self.old.heap.free }
        ensures cells { length self.new.heap.cells ≡ length self.old.heap.cells }
        ensures size { KeepsSize self.old.table self.new.table }
        ensures placed { IsPlaced self.new }
    {
        let Some(cell) = self.heap.draw(key) else {
            unreachable!()
        };
        if self.hash.insert(key, cell).is_err() {
            unreachable!()
        }
    }

    /// Removes the block of an owned cell from the map: the cell is free then, and its key is not known. Takes no memory.
    pub fn remove_at(&mut self, cell: u32)
        requires cell { cell < length self.old.heap.cells }
        requires owned { IsTrue (is_some (owner_at self.old.heap cell)) }
        ensures blocks { (b : Key) (v : List Voxel) → owner_at self.old.heap cell ≡ Some (b, v) → blocks_of self.new ≡ remove (blocks_of self.old) b }
        ensures table { (b : Key) (v : List Voxel) → owner_at self.old.heap cell ≡ Some (b, v) → contents self.new.table ≡ remove (contents self.old.table) b }
        ensures vacant { owner_at self.new.heap cell ≡ None }
        ensures others { (n : ℕ) → n ≢ cell → owner_at self.new.heap n ≡ owner_at self.old.heap n }
        ensures store { self.new.store ≡ self.old.store }
        ensures free { length self.new.heap.free ≡ length self.old.heap.free + 1 }
        ensures cells { length self.new.heap.cells ≡ length self.old.heap.cells }
        ensures size { KeepsSize self.old.table self.new.table }
        ensures placed { IsPlaced self.new }
    {
        let Some((key, _)) = self.heap.lend(cell) else {
            unreachable!()
        };
        self.heap.give_up(cell);
        self.hash.remove(key);
    }
}

// The packed form of an owned cell's block, in the memory of `packed`.
fn packed_block(heap: &Heap, cell: u32, key: BlockKey, packed: Packed) -> Packed
    requires cell { cell < length heap.now.cells }
    requires owned { IsTrue (is_some (owner_at heap.now cell)) }
    ensures packed { result ≡ packed_form key (block_in heap.now cell) }
    ensures block { IsBlock (block_in heap.now cell) }
    ensures key { IsKey key }
{
    let Some((_, block)) = heap.lend(cell) else {
        unreachable!()
    };
    let mut packed = packed;
    pack_into(block, key, &mut packed);
    packed
}

// Unpacks a block into an owned cell.
fn unpack_to(heap: &mut Heap, cell: u32, packed: &Packed)
    requires cell { cell < length heap.old.cells }
    requires owned { IsTrue (is_some (owner_at heap.old cell)) }
    requires form { (key : Key) × IsPackedBlock key packed.now }
    ensures { heap.new ≡ with_block_at heap.old cell (voxels_in packed.now) }
{
    if let Some(block) = heap.lend_mut(cell) {
        if unpack_into(packed, u8::MAX, block).is_err() {
            unreachable!()
        }
    }
}
