ghost use Rattle.std.specs.Prelude.{◌≡◌, None, Some, filter, IfOk, IfSome, IsSome, OnErr, OnOk, option_and_then, option_map};
ghost use Rattle.indexmap.specs.IndexMap.{get, IsUnchanged};
ghost use Rattle.voxel_block.specs.Chunks.{chunk_of};
ghost use Rattle.voxel_block.specs.Words.{key_of, word_of};
ghost use Rattle.camera.specs.Cameras.{is_active};
ghost use Rattle.chunk_store.specs.Store.{AreOfChunks, all_keys};
ghost use Rattle.chunk_store.specs.Changes.{Opens, Writes};
ghost use Rattle.chunk_store.specs.Rows.{bytes_in, chunk_eq};

use crate::place::place_of;
use crate::row::Row;
use camera::Camera;
use fixed_geom::Pose;
use indexmap::IndexMap;
use std::alloc::Global;
use voxel_block::{BlockKey, ChunkKey, NoMemory, Packed};

// Gives a chunk a row, where it has none.
pub(crate) fn open(
    rows: &mut IndexMap<ChunkKey, Row>,
    alloc: Global,
    chunk: ChunkKey,
) -> Result<(), NoMemory>
    ensures opened { OnOk result (get chunk_eq rows.old chunk ≡ None → Opens rows.old.entries chunk rows.new.entries) }
    ensures had { IsSome (get chunk_eq rows.old chunk) → IsUnchanged rows.old rows.new }
    ensures err { OnErr result (IsUnchanged rows.old rows.new) }
{
    if !rows.contains_key(&chunk) {
        let row = Row::make(alloc)?;
        if rows.insert(chunk, row).is_err() {
            return Err(NoMemory);
        }
    }
    Ok(())
}

// Puts a block into its place, which holds nothing, in the row of its chunk.
pub(crate) fn put(rows: &mut IndexMap<ChunkKey, Row>, key: BlockKey, packed: Packed)
    requires opened { IsSome (get chunk_eq rows.old (chunk_of key)) }
    requires vacant { option_and_then (λ row. bytes_in row key) (get chunk_eq rows.old (chunk_of key)) ≡ None }
    ensures written { IfSome (get chunk_eq rows.old (chunk_of key)) (λ row. Writes rows.old.entries key row (Some (key, packed)) rows.new.entries) }
    ensures short { key_of (word_of key) ≡ Some key }
{
    let place = place_of(key);
    if let Some(row) = rows.get_mut(&key.chunk()) {
        row.put(place, key, packed);
    }
}

// Takes a block out of its place.
pub(crate) fn take(rows: &mut IndexMap<ChunkKey, Row>, key: BlockKey) -> Option<Packed>
    ensures value { result ≡ option_and_then (λ row. bytes_in row key) (get chunk_eq rows.old (chunk_of key)) }
    ensures written { IfSome (get chunk_eq rows.old (chunk_of key)) (λ row. Writes rows.old.entries key row None rows.new.entries) }
    ensures unchanged { get chunk_eq rows.old (chunk_of key) ≡ None → IsUnchanged rows.old rows.new }
{
    rows.get_mut(&key.chunk())?.take(place_of(key))
}

// The block in the place of a key.
pub(crate) fn peek(rows: &IndexMap<ChunkKey, Row>, key: BlockKey) -> Option<&Packed>
    ensures { option_map (λ p. p.now) result ≡ option_and_then (λ row. bytes_in row key) (get chunk_eq rows.now (chunk_of key)) }
{
    rows.get(&key.chunk())?.peek(place_of(key))
}

// The keys of all blocks, in the order of rows.
pub(crate) fn keys(
    rows: &IndexMap<ChunkKey, Row>,
    alloc: Global,
    count: usize,
) -> Result<Vec<BlockKey>, NoMemory>
    ensures { IfOk result (λ v. v.items ≡ all_keys rows.now.entries) }
{
    let mut keys = Vec::with_capacity(alloc, count)?;
    for (_, row) in rows {
        row.add_keys(&mut keys)?;
    }
    Ok(keys)
}

// The keys of the active blocks, in the order of rows.
pub(crate) fn active_keys(
    rows: &IndexMap<ChunkKey, Row>,
    alloc: Global,
    camera: &Camera,
    pose: &Pose,
) -> Result<Vec<BlockKey>, NoMemory>
    requires { AreOfChunks rows.now.entries }
    ensures { IfOk result (λ v. v.items ≡ filter (is_active camera.now pose.now) (all_keys rows.now.entries)) }
{
    let mut keys = Vec::new(alloc);
    for (chunk, row) in rows {
        row.add_active(*chunk, camera, pose, &mut keys)?;
    }
    Ok(keys)
}
