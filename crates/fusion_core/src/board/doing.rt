//! What each job makes of its cell and of its dock. A slot that is not what the job finds stays as it is.
ghost use Rattle.std.specs.Prelude.{◌≡◌};
ghost use Rattle.block_heap.specs.declared.cell.Cell.TheVariants.{Free, Owned};
ghost use Rattle.fusion_core.specs.declared.board.slot.Slot.TheVariants.{OfCell};
ghost use Rattle.fusion_core.specs.Jobs.{departed, entered, freshened, stayed, summary_at};
ghost use Rattle.fusion_core.specs.Machines.{IsTaken};

use crate::board::{Dock, Slot, Tools};
use block_heap::Cell;
use voxel_block::{Block, BlockKey, Summary, pack_into, unpack_into};

/// Makes a free cell the key's, with new voxels that are updated.
pub fn freshen(slot: Slot, key: BlockKey, tools: &Tools<'_>) -> Slot
    ensures { result ≡ freshened tools.now key slot }
{
    match slot {
        Slot::OfCell(Cell::Free(mut block)) => {
            block.reset();
            tools.update(&mut block, key);
            Slot::OfCell(Cell::Owned(key, block))
        }
        other => other,
    }
}

/// Updates the block of an owned cell.
pub fn stay(slot: Slot, tools: &Tools<'_>) -> Slot
    ensures { result ≡ stayed tools.now slot }
{
    match slot {
        Slot::OfCell(Cell::Owned(key, mut block)) => {
            tools.update(&mut block, key);
            Slot::OfCell(Cell::Owned(key, block))
        }
        other => other,
    }
}

/// Moves the block of a full dock into a free cell, and updates it.
pub fn enter(cell: Slot, dock: Slot, tools: &Tools<'_>) -> (Slot, Slot)
    requires { IsTaken tools.now dock }
    ensures { result ≡ entered tools.now cell dock }
{
    match cell {
        Slot::OfCell(Cell::Free(block)) => enter_block(block, dock, tools),
        other => (other, dock),
    }
}

// The same with the block of the free cell.
fn enter_block(mut block: Block, dock: Slot, tools: &Tools<'_>) -> (Slot, Slot)
    requires { IsTaken tools.now dock }
    ensures { result ≡ entered tools.now (OfCell (Free block)) dock }
{
    match dock {
        Slot::OfDock(Dock::Full(key, packed)) => {
            match unpack_into(&packed, tools.max_weight(), &mut block) {
                Ok(_) => {
                    tools.update(&mut block, key);
                    (
                        Slot::OfCell(Cell::Owned(key, block)),
                        Slot::OfDock(Dock::Bare(packed)),
                    )
                }
                Err(_) => (
                    Slot::OfCell(Cell::Free(block)),
                    Slot::OfDock(Dock::Full(key, packed)),
                ),
            }
        }
        other => (Slot::OfCell(Cell::Free(block)), other),
    }
}

/// Packs the block of an owned cell into a bare dock, and frees the cell.
pub fn leave(cell: Slot, dock: Slot) -> (Slot, Slot)
    ensures { result ≡ departed cell dock }
{
    match cell {
        Slot::OfCell(Cell::Owned(key, block)) => leave_block(key, block, dock),
        other => (other, dock),
    }
}

// The same with the block of the owned cell.
fn leave_block(key: BlockKey, block: Block, dock: Slot) -> (Slot, Slot)
    ensures { result ≡ departed (OfCell (Owned key block)) dock }
{
    match dock {
        Slot::OfDock(Dock::Bare(mut packed)) => {
            pack_into(&block, key, &mut packed);
            let freed = Cell::Free(block);
            (Slot::OfCell(freed), Slot::OfDock(Dock::Full(key, packed)))
        }
        other => (Slot::OfCell(Cell::Owned(key, block)), other),
    }
}

/// The summary of the block in a cell.
pub fn look(slot: &Slot) -> Summary
    ensures { result ≡ summary_at slot.now }
{
    match slot {
        Slot::OfCell(Cell::Owned(_, block)) => block.summary(),
        Slot::OfCell(Cell::Free(block)) => block.summary(),
        _ => Summary { known: 0, least: 0 },
    }
}
