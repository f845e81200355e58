ghost use Rattle.std.specs.Prelude.{◌≡◌, ◌<◌, ◌++◌, pos, ◌+ℤ◌, ◌*ℤ◌, IfOk, OnOk, option_to_list};
ghost use Rattle.std.specs.FinMap.{get};
ghost use Rattle.streamer.specs.Places.{blocks_of};
ghost use Rattle.session.specs.Fold.{known_at as known_at_of, known_in, known_voxels as known_voxels_of};
ghost use Rattle.session.specs.Sums.{known_among, known_in_option};

use scan_lang::KnownVoxel;
use std::alloc::{AllocError, Global};
use streamer::Rest;
use voxel_block::{Block, BlockKey, NoMemory, Voxel};

/// All known voxels of a map, in the order of keys and indices.
///
/// A stored block is unpacked into a block that is made before the walk.
pub fn known_voxels(alloc: Global, rest: &Rest) -> Result<Vec<KnownVoxel>, NoMemory>
    ensures { IfOk result (λ v. v.items ≡ known_voxels_of (blocks_of rest.now)) }
{
    let keys = rest.keys(alloc)?;
    let mut scratch = Block::make(alloc)?;
    let known = known_at_keys(alloc, rest, &keys, &mut scratch)?;
    Ok(known)
}

/// The known voxels of the blocks of these keys, one block after another.
fn known_at_keys(
    alloc: Global,
    rest: &Rest,
    keys: &[BlockKey],
    scratch: &mut Block,
) -> Result<Vec<KnownVoxel>, AllocError>
    ensures { IfOk result (λ v. v.items ≡ known_among (blocks_of rest.now) keys.now) }
{
    let mut known = Vec::new(alloc);
    for key in keys {
        push_known(&mut known, rest, *key, scratch)?;
    }
    Ok(known)
}

/// Appends the known voxels of a key's block, wherever it lies.
fn push_known(
    known: &mut Vec<KnownVoxel>,
    rest: &Rest,
    key: BlockKey,
    scratch: &mut Block,
) -> Result<(), AllocError>
    ensures { OnOk result (known.new.items ≡ known.old.items ++ known_in_option key (get (blocks_of rest.now) key)) }
{
    match rest.read(key, scratch) {
        Some(block) => push_block(known, key, block),
        None => Ok(()),
    }
}

/// Appends the known voxels of a block.
fn push_block(known: &mut Vec<KnownVoxel>, key: BlockKey, block: &Block) -> Result<(), AllocError>
    ensures { OnOk result (known.new.items ≡ known.old.items ++ known_in key block.now) }
{
    for i in 0..512_u16 {
        push_voxel(known, known_at(key, i, block.get(i)))?;
    }
    Ok(())
}

/// Appends a voxel, if there is one.
fn push_voxel(known: &mut Vec<KnownVoxel>, voxel: Option<KnownVoxel>) -> Result<(), AllocError>
    ensures { OnOk result (known.new.items ≡ known.old.items ++ option_to_list voxel) }
{
    match voxel {
        Some(voxel) => {
            known.push(voxel)?;
            Ok(())
        }
        None => Ok(()),
    }
}

/// The voxel of index `i` of a block with its coordinates in the whole grid, if it is known.
pub fn known_at(key: BlockKey, i: u16, voxel: Voxel) -> Option<KnownVoxel>
    requires { i < 512 }
    ensures { result ≡ known_at_of key i voxel }
{
    if !voxel.is_known() {
        return None;
    }
    Some(KnownVoxel {
        x: coordinate(key.x, i % 8),
        y: coordinate(key.y, i / 8 % 8),
        z: coordinate(key.z, i / 64),
        f: voxel.f,
        w: voxel.w,
    })
}

/// The coordinate of a voxel on one axis.
fn coordinate(block: i16, offset: u16) -> i32
    ensures { result ≡ pos 8 *ℤ block +ℤ pos offset }
{
    8 * i32::from(block) + i32::from(offset)
}

#[cfg(test)]
mod tests;
