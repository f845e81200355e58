ghost use Rattle.std.specs.Prelude.{◌≡◌, ◌<◌, ◌++◌, pos, ◌≤ℤ◌, List, OnOk, OnErr};
ghost use Rattle.std.specs.FinMap.{FinMap};
ghost use Rattle.std.specs.Option.{option_copied, option_to_list};
ghost use Rattle.voxel_block.specs.declared.voxel.Voxel.{Voxel};
ghost use Rattle.voxel_block.specs.Keys.{key_cmp};
ghost use Rattle.camera.specs.Grid.{voxel_coordinates};
ghost use Rattle.camera.specs.Visibility.{IsInReach};
ghost use Rattle.crossing_export.specs.Crossings.{IsAround, block_crossings as block_crossings_of, crossings_at};
ghost use Rattle.crossing_export.specs.Steps.{InEachMap, IsGrown};

use crate::around::Around;
use crate::crossing::{Axis, Crossing};
use std::alloc::AllocError;
use voxel_block::{Block, BlockKey, NoMemory};

/// Appends the surface points of a block. `s` is the size of a voxel in micrometres, and `px`, `py` and `pz` are the
/// next block on each axis, `None` where the map has none.
///
/// There is a point between a voxel and the next one along an axis where both are known and exactly one of their values
/// is above 0. It lies where a straight line from value to value is 0, rounded down. The voxels are taken in order of
/// index, and the axes of each in the order x, y, z. Out of memory leaves `out` as it was.
pub fn block_crossings(
    key: BlockKey,
    here: &Block,
    px: Option<&Block>,
    py: Option<&Block>,
    pz: Option<&Block>,
    s: i64,
    out: &mut Vec<Crossing>,
) -> Result<(), NoMemory>
    requires size { pos 1000 ≤ℤ s }
    requires size_high { s ≤ℤ pos 100000 }
    requires reach { IsInReach s key }
    ensures appended { OnOk result ((m : FinMap key_cmp (List Voxel)) →
        IsAround m key here.now (option_copied px.entry) (option_copied py.entry) (option_copied pz.entry) →
        out.new.items ≡ out.old.items ++ block_crossings_of m s key) }
    ensures unchanged { OnErr result (out.new.items ≡ out.old.items) }
{
    let around = Around {
        key,
        here,
        x: px,
        y: py,
        z: pz,
    };
    let count = out.len();
    match add_block(&around, s, out) {
        Ok(()) => Ok(()),
        Err(_) => {
            out.truncate(count);
            Err(NoMemory)
        }
    }
}

/// Appends the crossings of a block.
fn add_block(around: &Around, size: i64, out: &mut Vec<Crossing>) -> Result<(), AllocError>
    requires size { pos 1 ≤ℤ size }
    requires size_high { size ≤ℤ pos 100000 }
    requires reach { IsInReach size around.now.key }
    ensures appended { OnOk result (InEachMap around.now
        (λ m. out.new.items ≡ out.old.items ++ block_crossings_of m size around.now.key)) }
    ensures grown { IsGrown out.old.items out.new.items }
{
    for i in 0..512_u16 {
        add_voxel(around, size, i, out)?;
    }
    Ok(())
}

/// Appends the crossings of a voxel.
fn add_voxel(around: &Around, size: i64, i: u16, out: &mut Vec<Crossing>) -> Result<(), AllocError>
    requires size { pos 1 ≤ℤ size }
    requires size_high { size ≤ℤ pos 100000 }
    requires reach { IsInReach size around.now.key }
    requires index { i < 512 }
    ensures appended { OnOk result (InEachMap around.now
        (λ m. out.new.items ≡ out.old.items ++ crossings_at m size (voxel_coordinates around.now.key i))) }
    ensures grown { IsGrown out.old.items out.new.items }
{
    add(out, around.along(Axis::X, size, i))?;
    add(out, around.along(Axis::Y, size, i))?;
    add(out, around.along(Axis::Z, size, i))
}

/// Appends a crossing, if there is one.
fn add(out: &mut Vec<Crossing>, crossing: Option<Crossing>) -> Result<(), AllocError>
    ensures appended { OnOk result (out.new.items ≡ out.old.items ++ option_to_list crossing) }
    ensures grown { IsGrown out.old.items out.new.items }
{
    if let Some(point) = crossing {
        out.push(point)?;
    }
    Ok(())
}
