ghost use Rattle.std.specs.Prelude.{◌≡◌, ◌<◌, ◌≤◌, ◌+◌, ◌^◌, fold};
ghost use Rattle.std.specs.FinMap.{entries};
ghost use Rattle.voxel_block.specs.Packing.{voxels_in};
ghost use Rattle.streamer.specs.Owners.{owned_blocks};
ghost use Rattle.streamer.specs.Places.{blocks_of};
ghost use Rattle.scan_io.specs.Reading.{saturated as saturated_of};
ghost use Rattle.session.specs.Fold.{known_in, known_voxels, totals_of, within_i64 as within_i64_of};
ghost use Rattle.session.specs.Sums.{IsSum, nothing, added, added_if, with_known, with_packed_known};

use crate::known::known_at;
use block_heap::Heap;
use chunk_store::ChunkStore;
use scan_lang::{KnownVoxel, Totals};
use streamer::Rest;
use voxel_block::{Block, BlockKey, Packed};

/// Sums over known voxels: their number, their weights and their distances.
#[derive(Clone, Copy)]
pub struct Sums {
    pub known: u128,
    pub weight: u128,
    pub distance: i128,
}

/// Totals over a map. Takes no memory.
pub fn totals(rest: &Rest) -> Totals
    ensures { result ≡ totals_of (blocks_of rest.now) }
{
    let sums = sums_over(rest);
    Totals {
        blocks: rest.len(),
        known: saturated(sums.known),
        weight: saturated(sums.weight),
        distance: within_i64(sums.distance),
    }
}

/// The sums over all known voxels of a map: those in the heap, and then those in the store.
fn sums_over(rest: &Rest) -> Sums
    ensures { result ≡ fold added nothing (known_voxels (blocks_of rest.now)) }
{
    with_store(sums_in(rest.heap()), rest.store())
}

/// The sums over the known voxels of the owned cells of a heap, in the order of their numbers.
fn sums_in(heap: &Heap) -> Sums
    ensures value { result ≡ fold with_known nothing (owned_blocks heap.now.cells) }
    ensures sum { IsSum result }
    ensures few { result.known ≤ 2 ^ 41 }
{
    let mut sums = Sums {
        known: 0,
        weight: 0,
        distance: 0,
    };
    for cell in 0..heap.cell_count() {
        if let Some((key, block)) = heap.lend(cell) {
            sums = with_block(sums, key, block);
        }
    }
    sums
}

/// The sums with the known voxels of the blocks of a store. No block is unpacked: each voxel is read where it lies.
fn with_store(sums: Sums, store: &ChunkStore) -> Sums
    requires sum { IsSum sums }
    requires few { sums.known ≤ 2 ^ 41 }
    ensures { result ≡ fold with_packed_known sums (entries store.now.contents) }
{
    let mut result = sums;
    for (key, packed) in store.blocks() {
        result = with_packed(result, key, packed);
    }
    result
}

/// The sums with the known voxels of a block.
fn with_block(sums: Sums, key: BlockKey, block: &Block) -> Sums
    requires sum { IsSum sums }
    requires few { sums.known < 2 ^ 79 }
    ensures value { result ≡ fold added sums (known_in key block.now) }
    ensures sum { IsSum result }
    ensures few { result.known ≤ sums.known + 512 }
{
    let mut result = sums;
    for i in 0..512_u16 {
        result = with_voxel(result, known_at(key, i, block.get(i)));
    }
    result
}

/// The sums with the known voxels of a packed block.
fn with_packed(sums: Sums, key: BlockKey, packed: &Packed) -> Sums
    requires sum { IsSum sums }
    requires few { sums.known < 2 ^ 79 }
    ensures value { result ≡ fold added sums (known_in key (voxels_in packed.now)) }
    ensures sum { IsSum result }
    ensures few { result.known ≤ sums.known + 512 }
{
    let mut result = sums;
    for i in 0..512_u16 {
        result = with_voxel(result, known_at(key, i, packed.get(i)));
    }
    result
}

/// The sums with one voxel more, if there is one.
fn with_voxel(sums: Sums, voxel: Option<KnownVoxel>) -> Sums
    requires sum { IsSum sums }
    requires few { sums.known < 2 ^ 80 }
    ensures value { result ≡ added_if sums voxel }
    ensures sum { IsSum result }
    ensures few { result.known ≤ sums.known + 1 }
{
    match voxel {
        Some(voxel) => Sums {
            known: sums.known + 1,
            weight: sums.weight + u128::from(voxel.w),
            distance: sums.distance + i128::from(voxel.f),
        },
        None => sums,
    }
}

/// A number that saturates at the greatest one of 64 bits.
fn saturated(n: u128) -> u64
    ensures { result ≡ saturated_of n }
{
    n.min(u128::from(u64::MAX)) as u64
}

/// A number that saturates at the ends of 64 bits with a sign.
fn within_i64(z: i128) -> i64
    ensures { result ≡ within_i64_of z }
{
    z.clamp(i128::from(i64::MIN), i128::from(i64::MAX)) as i64
}
