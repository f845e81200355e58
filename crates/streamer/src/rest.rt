ghost use Rattle.std.specs.Prelude.{◌≡◌, ◌^◌, ◌<◌, ◌+◌, ◌*◌, ◌≤◌, ◌++◌, Some, false, length, IfOk, IsTrue, OnOk, option_map};
ghost use Rattle.std.specs.FinMap.{contains_key, empty, get, insert, keys, len};
ghost use Rattle.std.specs.FinSet.{empty as no_chunks};
ghost use Rattle.std.specs.Int.{IsPowerOfTwo};
ghost use Rattle.spatial_hash.specs.Table.{empty_table};
ghost use Rattle.spatial_hash.specs.Contents.{contents};
ghost use Rattle.block_heap.specs.Cells.{new_cells};
ghost use Rattle.streamer.specs.Places.{IsPlaced, blocks_of};

use crate::table::{cell_of, keys_of};
use block_heap::Heap;
use chunk_store::ChunkStore;
use spatial_hash::HashTable;
use std::alloc::{AllocError, Global};
use std::marker::Model;
use voxel_block::{Block, BlockKey, NoMemory, unpack_into};

mod moving;

/// The blocks of a map by their keys, between frames. Each block lies in a cell of a heap of fixed size, which a hash
/// table finds, or in packed form in a chunk store.
#[derive(Drop)]
pub struct Rest {
    /// The cells of the keys whose blocks lie in the heap.
    hash: HashTable,
    heap: Heap,
    store: ChunkStore,
}

impl Model for Rest {
    ghost use Rattle.streamer.specs.Codes.{coded_places};
    ghost use Rattle.streamer.specs.Places.{IsPlaced, Places};
    ghost use Rattle.streamer.specs.Seen.{seen};

    ghost Value = { Places };

    ghost coded = { coded_places };

    ghost view = { seen };

    ghost invariant = { λ p. IsPlaced (seen p) };
}

impl Rest {
    ghost use Rattle.std.specs.Prelude.{List};
    ghost use Rattle.std.specs.Borrow.{sem};
    ghost use Rattle.voxel_block.specs.declared.voxel.Voxel.{Voxel};
    ghost use Rattle.streamer.specs.Lending.{KeepsPlaces, LendsBlockOf, with_block_of};
    ghost use Rattle.streamer.specs.Places.{cell_of as cell_named, in_heap};

    /// No key, and a heap of `cells` cells, found through a table of this number of buckets. The heap takes its memory
    /// here, about 1.5 KB a cell.
    pub fn make(alloc: Global, cells: u32, buckets: u32) -> Result<Rest, NoMemory>
        requires least { 1 ≤ cells }
        requires most { cells ≤ 65536 }
        requires power { IsPowerOfTwo buckets }
        requires buckets { buckets ≤ 65536 }
        ensures value { IfOk result (λ p. p ≡ record { table = empty_table buckets (2 * cells + 65); heap = new_cells cells; store = record { contents = empty; opened = no_chunks } }) }
        ensures blocks { IfOk result (λ p. blocks_of p ≡ empty) }
        ensures placed { IfOk result IsPlaced }
    {
        let hash = HashTable::make(alloc, buckets, 2 * cells + 65)?;
        let heap = Heap::make(alloc, cells)?;
        let store = ChunkStore::make(alloc);
        Ok(Rest { hash, heap, store })
    }

    /// The number of known keys.
    pub fn len(&self) -> u64
        ensures blocks { result ≡ len (blocks_of self.now) }
        ensures placed { IsPlaced self.now }
    {
        u64::from(self.heap.cell_count() - self.heap.free_count()) + self.store.len() as u64
    }

    /// The number of cells.
    pub fn cell_count(&self) -> u32
        ensures value { result ≡ length self.now.heap.cells }
        ensures placed { IsPlaced self.now }
    {
        self.heap.cell_count()
    }

    /// The number of free cells.
    pub fn free_count(&self) -> u32
        ensures value { result ≡ length self.now.heap.free }
        ensures placed { IsPlaced self.now }
    {
        self.heap.free_count()
    }

    /// The heap, of which each owned cell has the block of a key.
    pub fn heap(&self) -> &Heap
        ensures value { result.now ≡ self.now.heap }
        ensures placed { IsPlaced self.now }
    {
        &self.heap
    }

    /// The hash table that names the cell of each key in the heap.
    pub fn hash(&self) -> &HashTable
        ensures value { result.now ≡ self.now.table }
        ensures placed { IsPlaced self.now }
    {
        &self.hash
    }

    /// The store of packed blocks.
    pub fn store(&self) -> &ChunkStore
        ensures value { result.now ≡ self.now.store }
        ensures placed { IsPlaced self.now }
    {
        &self.store
    }

    /// Whether a key's block is resident, which means that it lies in the heap.
    pub fn is_resident(&self, key: BlockKey) -> bool
        ensures value { result ≡ contains_key (contents self.now.table) key }
        ensures placed { IsPlaced self.now }
    {
        self.hash.find(key).is_some()
    }

    /// Whether a key's block lies in the store.
    pub fn is_stored(&self, key: BlockKey) -> bool
        ensures value { result ≡ contains_key self.now.store.contents key }
        ensures placed { IsPlaced self.now }
    {
        self.store.peek(key).is_some()
    }

    /// Whether a key is known.
    pub fn contains(&self, key: BlockKey) -> bool
        ensures blocks { result ≡ contains_key (blocks_of self.now) key }
        ensures placed { IsPlaced self.now }
    {
        self.is_resident(key) || self.is_stored(key)
    }

    /// The block of a resident key. `None` where the key is not resident.
    pub fn lend(&self, key: BlockKey) -> Option<&Block>
        ensures value { option_map (λ b. b.now) result ≡ in_heap self.now.heap (cell_named self.now.table key) }
        ensures placed { IsPlaced self.now }
    {
        let cell = cell_of(&self.hash, key)?;
        let (_, block) = self.heap.lend(cell)?;
        Some(block)
    }

    /// The block of a resident key, to be changed. `None` where the key is not resident.
    pub fn lend_mut(&mut self, key: BlockKey) -> Option<&mut Block>
        ensures* writes_back { sem 𝓛 (LendsBlockOf self.entry key result) }
        ensures value { option_map (λ b. b.now) result ≡ in_heap self.old.heap (cell_named self.old.table key) }
        ensures blocks { (w : List Voxel) → IsTrue (contains_key (contents self.old.table) key) → blocks_of (with_block_of self.old key w) ≡ insert (blocks_of self.old) key w }
        ensures places { (w : List Voxel) → KeepsPlaces self.old (with_block_of self.old key w) }
        ensures placed { (w : List Voxel) → IsPlaced (with_block_of self.old key w) }
    {
        let cell = cell_of(&self.hash, key)?;
        self.heap.lend_mut(cell)
    }

    /// Unpacks the block of a stored key. `false` where the key is not stored, and then `out` stays.
    pub fn unpack(&self, key: BlockKey, out: &mut Block) -> bool
        ensures stored { result ≡ contains_key self.now.store.contents key }
        ensures block { IsTrue result → get (blocks_of self.now) key ≡ Some out.new }
        ensures kept { result ≡ false → out.new ≡ out.old }
        ensures placed { IsPlaced self.now }
    {
        match self.store.peek(key) {
            Some(packed) => unpack_into(packed, u8::MAX, out).is_ok(),
            None => false,
        }
    }

    /// The block of a key, wherever it lies: a stored one is unpacked into `scratch`. `None` where the key is not known.
    pub fn read<'a>(&'a self, key: BlockKey, scratch: &'a mut Block) -> Option<&'a Block>
        ensures value { option_map (λ b. b.now) result ≡ get (blocks_of self.now) key }
        ensures placed { IsPlaced self.now }
    {
        match self.lend(key) {
            Some(block) => Some(block),
            None => {
                if self.unpack(key, scratch) {
                    Some(scratch)
                } else {
                    None
                }
            }
        }
    }

    /// All known keys, in order.
    pub fn keys(&self, alloc: Global) -> Result<Vec<BlockKey>, NoMemory>
        ensures blocks { IfOk result (λ v. v.items ≡ keys (blocks_of self.now)) }
        ensures placed { IsPlaced self.now }
    {
        let mut known = keys_of(alloc, &self.hash)?;
        let stored = self.store.keys(alloc)?;
        append(&mut known, &stored)?;
        known.sort_unstable();
        Ok(known)
    }
}

/// Appends keys.
fn append(keys: &mut Vec<BlockKey>, more: &[BlockKey]) -> Result<(), AllocError>
    ensures { OnOk result (keys.new.items ≡ keys.old.items ++ more.now) }
{
    keys.extend_from_slice(more)?;
    Ok(())
}
