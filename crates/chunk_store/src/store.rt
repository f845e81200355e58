ghost use Rattle.std.specs.Prelude.{◌≡◌, ◌^◌, ◌≤◌, false, filter, IfOk, IfSome, IsTrue, OnErr, OnOk, length, option_map};
ghost use Rattle.std.specs.FinMap.{contains_key, empty as no_blocks, from_entries, get, insert, keys, len, remove};
ghost use Rattle.std.specs.List.{IsDistinct};
ghost use Rattle.std.specs.Map.{keys_of};
ghost use Rattle.std.specs.FinSet.{contains, empty as no_chunks, insert as with_chunk, is_subset};
ghost use Rattle.voxel_block.specs.Chunks.{chunk_of};
ghost use Rattle.voxel_block.specs.Keys.{same_key};
ghost use Rattle.camera.specs.Cameras.{is_active};
ghost use Rattle.chunk_store.specs.Remaining.{remaining_blocks};
ghost use Rattle.chunk_store.specs.Store.{opened_with};

use crate::blocks::Blocks;
use crate::row::Row;
use crate::rows;
use camera::Camera;
use fixed_geom::Pose;
use indexmap::IndexMap;
use std::alloc::Global;
use std::marker::Model;
use voxel_block::{BlockKey, ChunkKey, NoMemory, Packed};

/// Packed blocks by their keys, chunk by chunk.
///
/// A chunk that is opened has a place for each of its 512 keys, about 12 KB in all, and stays opened until the
/// store is dropped. So no memory is taken when a block is put into an opened chunk or taken out of it.
#[derive(Drop)]
pub struct ChunkStore {
    /// A row for each opened chunk. A row is never removed.
    rows: IndexMap<ChunkKey, Row>,
    /// The number of blocks in all rows.
    count: usize,
}

impl Model for ChunkStore {
    ghost use Rattle.chunk_store.specs.Codes.{coded_stored};
    ghost use Rattle.camera.specs.Cameras.{is_active};
    ghost use Rattle.chunk_store.specs.Store.{IsStore, Stored, stored};

    ghost Value = { Stored };

    ghost coded = { coded_stored };

    ghost view = { λ s. stored s.rows.entries };

    ghost invariant = { λ s. IsStore s.rows.entries s.count };
}

impl ChunkStore {
    /// A store with no block and no opened chunk. Takes no memory.
    pub fn make(alloc: Global) -> ChunkStore
        ensures { result ≡ record { contents = no_blocks; opened = no_chunks } }
    {
        ChunkStore {
            rows: IndexMap::new(alloc),
            count: 0,
        }
    }

    /// The number of blocks.
    pub fn len(&self) -> usize
        ensures value { result ≡ len self.now.contents }
        ensures bound { result ≤ 2 ^ 49 }
    {
        self.count
    }

    /// Opens the chunks of these keys, so that a block can be put at each. The blocks stay as they are.
    ///
    /// Takes about 12 KB for each chunk that was not opened. When it is out of memory, some of the chunks may be
    /// opened, and what was opened before still is.
    pub fn reserve_out(&mut self, alloc: Global, keys: &[BlockKey]) -> Result<(), NoMemory>
        ensures ok { OnOk result (self.new.opened ≡ opened_with self.old.opened keys.now) }
        ensures contents { self.new.contents ≡ self.old.contents }
        ensures kept { IsTrue (is_subset self.old.opened self.new.opened) }
        ensures others { IsTrue (is_subset self.new.opened (opened_with self.old.opened keys.now)) }
    {
        for key in keys {
            self.open(alloc, key.chunk())?;
        }
        Ok(())
    }

    // Opens a chunk.
    fn open(&mut self, alloc: Global, chunk: ChunkKey) -> Result<(), NoMemory>
        ensures ok { OnOk result (self.new ≡ record self.old { opened = with_chunk self.old.opened chunk }) }
        ensures err { OnErr result (self.new ≡ self.old) }
    {
        rows::open(&mut self.rows, alloc, chunk)
    }

    /// Puts a block at a key that has none, whose chunk is opened. Takes no memory.
    pub fn put_reserved(&mut self, key: BlockKey, packed: Packed)
        requires opened { IsTrue (contains self.old.opened (chunk_of key)) }
        requires vacant { contains_key self.old.contents key ≡ false }
        ensures { self.new ≡ record self.old { contents = insert self.old.contents key packed } }
    {
        rows::put(&mut self.rows, key, packed);
        self.count += 1;
    }

    /// Takes the block of a key out. `None` where the store has none. Its chunk stays opened.
    pub fn take(&mut self, key: BlockKey) -> Option<Packed>
        ensures value { result ≡ get self.old.contents key }
        ensures store { self.new ≡ record self.old { contents = remove self.old.contents key } }
        ensures opened { IfSome result (λ _. IsTrue (contains self.new.opened (chunk_of key))) }
    {
        let packed = rows::take(&mut self.rows, key)?;
        self.count -= 1;
        Some(packed)
    }

    /// The block of a key. `None` where the store has none.
    pub fn peek(&self, key: BlockKey) -> Option<&Packed>
        ensures value { option_map (λ p. p.now) result ≡ get self.now.contents key }
        ensures opened { IfSome result (λ _. IsTrue (contains self.now.opened (chunk_of key))) }
    {
        rows::peek(&self.rows, key)
    }

    /// All blocks, each once, with their keys. They come in no order that callers may rely on. Takes no memory.
    pub fn blocks(&self) -> Blocks<'_>
        ensures distinct { IsDistinct same_key (keys_of (remaining_blocks result)) }
        ensures contents { from_entries (remaining_blocks result) ≡ self.now.contents }
        ensures bound { length (remaining_blocks result) ≤ 2 ^ 49 }
    {
        Blocks::of(self.rows.iter())
    }

    /// The keys of all blocks, in order. Takes memory for the keys alone.
    pub fn keys(&self, alloc: Global) -> Result<Vec<BlockKey>, NoMemory>
        ensures { IfOk result (λ v. v.items ≡ keys self.now.contents) }
    {
        let mut keys = rows::keys(&self.rows, alloc, self.count)?;
        keys.sort_unstable();
        Ok(keys)
    }

    /// The keys of the blocks that are active at a pose, in order.
    ///
    /// A chunk of which `Camera::may_hold_active` shows that no block is active is left out as a whole.
    /// Takes memory for the keys alone.
    pub fn keys_active(
        &self,
        alloc: Global,
        camera: &Camera,
        pose: &Pose,
    ) -> Result<Vec<BlockKey>, NoMemory>
        ensures { IfOk result (λ v. v.items ≡ filter (is_active camera.now pose.now) (keys self.now.contents)) }
    {
        let mut keys = rows::active_keys(&self.rows, alloc, camera, pose)?;
        keys.sort_unstable();
        Ok(keys)
    }
}
