ghost use Rattle.std.specs.Prelude.{◌≡◌, ◌<◌, length, option_and_then, option_map, slice_get, slice_set, unwrap_or};
ghost use Rattle.voxel_block.specs.Voxels.{IsVoxel};
ghost use Rattle.block_heap.specs.Cells.{content};
ghost use Rattle.block_heap.specs.HeapLending.{with_block_at};

use super::*;
use std::test::Fail;
use voxel_block::{Block, BlockKey, Voxel};

const KEY: BlockKey = BlockKey { x: 0, y: 0, z: 12 };

fn is_shared<T: Send + Sync>(_value: &T) {}

// Writes the first voxel of the block of a cell, where it is owned.
fn write(heap: &mut Heap, cell: u32, voxel: Voxel)
    requires cell { cell < length heap.old.cells }
    requires voxel { IsVoxel voxel }
    ensures { heap.new ≡ unwrap_or (option_map (λ p. with_block_at heap.old cell (slice_set p.1 0 voxel))
        (option_and_then content (slice_get heap.old.cells cell))) heap.old }
{
    if let Some(block) = heap.lend_mut(cell) {
        block.set(0, voxel);
    }
}

#[test]
fn cells_are_drawn_lent_and_given_up(rt: HostRuntime) -> Result<(), Fail> {
    let mut heap = Heap::make(rt.alloc(), 3)?;
    is_shared(&heap);
    assert_eq!(rt; heap.cell_count(), 3);
    assert_eq!(rt; heap.free_count(), 3);
    assert!(rt; heap.lend(0).is_none());
    assert_eq!(rt; heap.draw(KEY), Some(0));
    assert_eq!(rt; heap.free_count(), 2);
    write(&mut heap, 0, Voxel { f: 5, w: 1 });
    let owner = heap
        .lend(0)
        .map(|(key, block)| (key, block.get(0), block.get(511)));
    assert_eq!(rt;
        owner,
        Some((KEY, Voxel { f: 5, w: 1 }, Voxel { f: 32767, w: 0 }))
    );
    heap.give_up(0);
    assert!(rt; heap.lend(0).is_none());
    assert_eq!(rt; heap.free_count(), 3);
    heap.give_up(0);
    assert_eq!(rt; heap.free_count(), 3);
    assert_eq!(rt; heap.draw(KEY), Some(0));
    Ok(())
}

#[test]
fn parts_make_a_heap(rt: HostRuntime) -> Result<(), Fail> {
    let mut owned = Block::make(rt.alloc())?;
    owned.set(7, Voxel { f: -1, w: 2 });
    let mut cells = Vec::with_capacity(rt.alloc(), 2)?;
    cells.push_reserved(Cell::Owned(KEY, owned));
    cells.push_reserved(Cell::Free(Block::make(rt.alloc())?));
    let mut free = Vec::with_capacity(rt.alloc(), 2)?;
    free.push_reserved(1);
    let mut heap = Heap::of_parts(cells, free);
    assert_eq!(rt; heap.free_count(), 1);
    let owner = heap.lend(0).map(|(key, block)| (key, block.get(7)));
    assert_eq!(rt; owner, Some((KEY, Voxel { f: -1, w: 2 })));
    assert!(rt; heap.lend(1).is_none());
    heap.give_up(0);
    let (cells, free) = heap.into_parts();
    is_shared(&cells);
    assert_eq!(rt; cells.len(), 2);
    assert_eq!(rt; free.as_slice(), [1, 0].as_slice());
    Ok(())
}
