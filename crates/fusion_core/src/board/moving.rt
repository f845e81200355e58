//! Cells and docks go into one row of slots, which takes no memory.
ghost use Rattle.std.specs.Prelude.{◌≡◌, ◌+◌, ◌≤◌, [], ◌++◌, map, vec_len};
ghost use Rattle.std.specs.Vec.{vec_capacity};
ghost use Rattle.fusion_core.specs.declared.board.slot.Slot.TheVariants.{OfCell, OfDock};
ghost use Rattle.fusion_core.specs.Jobs.{slots_of};

use crate::board::{Dock, Slot};
use block_heap::Cell;

// Moves all cells to the end of the row. The emptied list keeps its room.
fn move_cells(cells: &mut Vec<Cell>, slots: &mut Vec<Slot>)
    requires { vec_len slots.old + vec_len cells.old ≤ vec_capacity slots.old }
    ensures slots { slots.new.items ≡ slots.old.items ++ map OfCell cells.old.items }
    ensures len { vec_len slots.new ≡ vec_len slots.old + vec_len cells.old }
    ensures emptied { cells.new.items ≡ [] }
    ensures room { vec_capacity cells.new ≡ vec_capacity cells.old }
    ensures slot_room { vec_capacity slots.new ≡ vec_capacity slots.old }
{
    cells.as_mut_slice().reverse();
    while let Some(cell) = cells.pop() {
        slots.push_reserved(Slot::OfCell(cell));
    }
}

// Moves all docks to the end of the row. The emptied list keeps its room.
fn move_docks(docks: &mut Vec<Dock>, slots: &mut Vec<Slot>)
    requires { vec_len slots.old + vec_len docks.old ≤ vec_capacity slots.old }
    ensures slots { slots.new.items ≡ slots.old.items ++ map OfDock docks.old.items }
    ensures len { vec_len slots.new ≡ vec_len slots.old + vec_len docks.old }
    ensures emptied { docks.new.items ≡ [] }
    ensures room { vec_capacity docks.new ≡ vec_capacity docks.old }
    ensures slot_room { vec_capacity slots.new ≡ vec_capacity slots.old }
{
    docks.as_mut_slice().reverse();
    while let Some(dock) = docks.pop() {
        slots.push_reserved(Slot::OfDock(dock));
    }
}

/// Moves all cells and then all docks into an empty row. The emptied lists keep their room.
pub fn move_into_row(cells: &mut Vec<Cell>, docks: &mut Vec<Dock>, slots: &mut Vec<Slot>)
    requires empty { slots.old.items ≡ [] }
    requires room { vec_len cells.old + vec_len docks.old ≤ vec_capacity slots.old }
    ensures slots { slots.new.items ≡ slots_of cells.old.items docks.old.items }
    ensures cells { cells.new.items ≡ [] }
    ensures docks { docks.new.items ≡ [] }
    ensures cell_room { vec_capacity cells.new ≡ vec_capacity cells.old }
    ensures dock_room { vec_capacity docks.new ≡ vec_capacity docks.old }
{
    move_cells(cells, slots);
    move_docks(docks, slots);
}
