// Cells and docks come back from one row of slots, with no memory.
ghost use Rattle.std.specs.Prelude.{◌≡◌, ◌+◌, ◌≤◌, [], ◌∷◌, ◌++◌, length, vec_len};
ghost use Rattle.std.specs.Vec.{vec_capacity};
ghost use Rattle.work_board.specs.Rows.{cells_in, docks_in};

use block_heap::Cell;
use fusion_core::{Dock, Slot};

/// Appends a slot to the cells or to the docks, as it is one.
pub fn put_home(slot: Slot, cells: &mut Vec<Cell>, docks: &mut Vec<Dock>)
    requires cell_room { vec_len cells.old + length (cells_in (slot ∷ [])) ≤ vec_capacity cells.old }
    requires dock_room { vec_len docks.old + length (docks_in (slot ∷ [])) ≤ vec_capacity docks.old }
    ensures cells { cells.new.items ≡ cells.old.items ++ cells_in (slot ∷ []) }
    ensures docks { docks.new.items ≡ docks.old.items ++ docks_in (slot ∷ []) }
    ensures cell_len { vec_len cells.new ≡ vec_len cells.old + length (cells_in (slot ∷ [])) }
    ensures dock_len { vec_len docks.new ≡ vec_len docks.old + length (docks_in (slot ∷ [])) }
    ensures cell_capacity { vec_capacity cells.new ≡ vec_capacity cells.old }
    ensures dock_capacity { vec_capacity docks.new ≡ vec_capacity docks.old }
{
    match slot {
        Slot::OfCell(cell) => cells.push_reserved(cell),
        Slot::OfDock(dock) => docks.push_reserved(dock),
        Slot::Away => {}
    }
}

/// Moves a row's cells and docks back into their emptied lists.
pub fn out_of_row(mut slots: Vec<Slot>, cells: &mut Vec<Cell>, docks: &mut Vec<Dock>)
    requires empty_cells { (cells.old.items ≡ []) × (vec_len cells.old ≡ 0) }
    requires empty_docks { (docks.old.items ≡ []) × (vec_len docks.old ≡ 0) }
    requires cell_room { length (cells_in slots.items) ≤ vec_capacity cells.old }
    requires dock_room { length (docks_in slots.items) ≤ vec_capacity docks.old }
    ensures cells { cells.new.items ≡ cells_in slots.items }
    ensures docks { docks.new.items ≡ docks_in slots.items }
    ensures cell_capacity { vec_capacity cells.new ≡ vec_capacity cells.old }
    ensures dock_capacity { vec_capacity docks.new ≡ vec_capacity docks.old }
{
    slots.as_mut_slice().reverse();
    while let Some(slot) = slots.pop() {
        put_home(slot, cells, docks);
    }
}
