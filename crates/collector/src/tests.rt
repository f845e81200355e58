use super::*;
use block_heap::Cell;
use fusion_core::{Done, Job};
use std::test::Fail;
use voxel_block::{Block, BlockKey};

const NEAR: BlockKey = BlockKey { x: 0, y: 0, z: 12 };

const FAR: BlockKey = BlockKey { x: 0, y: 0, z: 13 };

#[test]
fn a_block_is_empty_where_its_least_distance_is_large(rt: HostRuntime) {
    for (name, known, least, empty_f, is) in [
        ("at the bound", 7, 3, 3, true),
        ("below it", 7, 2, 3, false),
        ("one voxel below", 1, 32766, 32767, false),
        ("no known voxel", 0, 32767, 3, true),
        ("no known voxel, the greatest bound", 0, 32767, 32767, true),
        ("all known, far away", 512, 32767, 32767, true),
        ("on the surface, no bound", 512, 0, 0, true),
        ("on the surface", 512, 0, 1, false),
        ("on the surface, a bound below 0", 512, 0, -1, true),
        ("the least bound", 512, 0, -32768, true),
    ] {
        let summary = Summary { known, least };
        assert_eq!(rt; is_empty(summary, empty_f), is, "{name}");
    }
}

// Cells 1 and 3 of four are owned, and only the block of cell 3 is far from the surface.
#[test]
fn owned_cells_are_checked_and_empty_ones_are_listed(rt: HostRuntime) -> Result<(), Fail> {
    let alloc = rt.alloc();
    let mut cells = Vec::new(alloc);
    cells.push(Cell::Free(Block::make(alloc)?))?;
    cells.push(Cell::Owned(NEAR, Block::make(alloc)?))?;
    cells.push(Cell::Free(Block::make(alloc)?))?;
    cells.push(Cell::Owned(FAR, Block::make(alloc)?))?;
    let jobs = check_jobs(alloc, cells.as_slice())?;
    let wanted = [Job::Check { cell: 1 }, Job::Check { cell: 3 }];
    assert!(rt; jobs.as_slice() == wanted.as_slice());
    let near = Done::Looked(Summary { known: 7, least: 2 });
    let far = Done::Looked(Summary { known: 7, least: 3 });
    let empty = empty_cells(alloc, wanted.as_slice(), [near, far].as_slice(), 3)?;
    assert!(rt; empty.as_slice() == [3].as_slice());
    Ok(())
}
