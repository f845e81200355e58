ghost use Rattle.std.specs.Prelude.{◌≡◌, ◌++◌, pos, ◌+ℤ◌, ◌≤ℤ◌, IfOk, IsTrue, OnOk, option_map};
ghost use Rattle.std.specs.FinMap.{contains_key, get};
ghost use Rattle.std.specs.List.{flat_map, list_any};
ghost use Rattle.voxel_block.specs.declared.key.BlockKey.{BlockKey as Key};
ghost use Rattle.voxel_block.specs.Keys.{same_key};
ghost use Rattle.camera.specs.Grid.{block};
ghost use Rattle.camera.specs.Visibility.{IsInReach};
ghost use Rattle.crossing_export.specs.Crossings.{block_crossings as block_crossings_of, crossings};
ghost use Rattle.streamer.specs.Places.{IsPlaced, blocks_of};
ghost use Rattle.fusion_core.specs.Laws.{HasKeysInReach};

use crossing_export::{Crossing, block_crossings};
use std::alloc::Global;
use streamer::Rest;
use voxel_block::{Block, BlockKey, NoMemory};

/// The blocks that stored ones are unpacked into: a block, and the next one on each axis.
#[derive(Drop)]
struct Unpacked {
    here: Block,
    x: Block,
    y: Block,
    z: Block,
}

impl Unpacked {
    fn make(alloc: Global) -> Result<Unpacked, NoMemory> {
        Ok(Unpacked {
            here: Block::make(alloc)?,
            x: Block::make(alloc)?,
            y: Block::make(alloc)?,
            z: Block::make(alloc)?,
        })
    }
}

/// The surface points of a map, in the order of keys, indices and axes.
///
/// A stored block is unpacked at most four times: for itself, and for the block before it on each axis.
pub fn surface_points(alloc: Global, rest: &Rest, size: i64) -> Result<Vec<Crossing>, NoMemory>
    requires size { pos 1000 ≤ℤ size }
    requires size_high { size ≤ℤ pos 100000 }
    requires reach { HasKeysInReach size (blocks_of rest.now) }
    ensures { IfOk result (λ v. v.items ≡ crossings (blocks_of rest.now) size) }
{
    let keys = rest.keys(alloc)?;
    let mut unpacked = Unpacked::make(alloc)?;
    points_at_keys(alloc, rest, &keys, size, &mut unpacked)
}

/// The surface points of the blocks of these keys, one block after another.
fn points_at_keys(
    alloc: Global,
    rest: &Rest,
    keys: &[BlockKey],
    size: i64,
    unpacked: &mut Unpacked,
) -> Result<Vec<Crossing>, NoMemory>
    requires size { pos 1000 ≤ℤ size }
    requires size_high { size ≤ℤ pos 100000 }
    requires reach { HasKeysInReach size (blocks_of rest.now) }
    requires known { (b : Key) → IsTrue (list_any (same_key b) keys.now) → IsTrue (contains_key (blocks_of rest.now) b) }
    ensures { IfOk result (λ v. v.items ≡ flat_map (block_crossings_of (blocks_of rest.now) size) keys.now) }
{
    let mut points = Vec::new(alloc);
    for key in keys {
        push_points(&mut points, rest, *key, size, unpacked)?;
    }
    Ok(points)
}

/// Appends the surface points of a known key's block.
fn push_points(
    points: &mut Vec<Crossing>,
    rest: &Rest,
    key: BlockKey,
    size: i64,
    unpacked: &mut Unpacked,
) -> Result<(), NoMemory>
    requires size { pos 1000 ≤ℤ size }
    requires size_high { size ≤ℤ pos 100000 }
    requires reach { IsInReach size key }
    requires known { IsTrue (contains_key (blocks_of rest.now) key) }
    ensures { OnOk result (points.new.items ≡ points.old.items ++ block_crossings_of (blocks_of rest.now) size key) }
{
    let Some(here) = rest.read(key, &mut unpacked.here) else {
        unreachable!()
    };
    let px = next_on_x(rest, key, &mut unpacked.x);
    let py = next_on_y(rest, key, &mut unpacked.y);
    let pz = next_on_z(rest, key, &mut unpacked.z);
    block_crossings(key, here, px, py, pz, size, points)
}

/// The next block on the axis x, if it is known. A stored one is unpacked into `scratch`.
fn next_on_x<'a>(rest: &'a Rest, key: BlockKey, scratch: &'a mut Block) -> Option<&'a Block>
    requires { IsPlaced rest.now }
    ensures { option_map (λ b. b.now) result ≡ get (blocks_of rest.now) (block (key.x +ℤ pos 1) key.y key.z) }
{
    match key.x.checked_add(1) {
        Some(x) => rest.read(BlockKey { x, ..key }, scratch),
        None => None,
    }
}

/// The next block on the axis y.
fn next_on_y<'a>(rest: &'a Rest, key: BlockKey, scratch: &'a mut Block) -> Option<&'a Block>
    requires { IsPlaced rest.now }
    ensures { option_map (λ b. b.now) result ≡ get (blocks_of rest.now) (block key.x (key.y +ℤ pos 1) key.z) }
{
    match key.y.checked_add(1) {
        Some(y) => rest.read(BlockKey { y, ..key }, scratch),
        None => None,
    }
}

/// The next block on the axis z.
fn next_on_z<'a>(rest: &'a Rest, key: BlockKey, scratch: &'a mut Block) -> Option<&'a Block>
    requires { IsPlaced rest.now }
    ensures { option_map (λ b. b.now) result ≡ get (blocks_of rest.now) (block key.x key.y (key.z +ℤ pos 1)) }
{
    match key.z.checked_add(1) {
        Some(z) => rest.read(BlockKey { z, ..key }, scratch),
        None => None,
    }
}
