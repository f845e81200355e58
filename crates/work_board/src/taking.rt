// What is taken out of a closed table.
ghost use Rattle.std.specs.Prelude.{◌≡◌, ℕ, ◌+◌, ◌<◌, ◌≤◌, ◌-◌, true, false, List, [], ◌∷◌, ◌++◌, length, slice_index_or, take, reverse, vec_len};
ghost use Rattle.std.specs.Vec.{vec_capacity};
ghost use Rattle.std.specs.Slots.{slots_items, slots_filled, slots_len, IsFull};
ghost use Rattle.fusion_core.specs.declared.board.done.Done.{Done as DoneValue};
ghost use Rattle.work_board.specs.Rows.{cells_in, docks_in};
ghost use Rattle.work_board.specs.Closes.{AreAnswers, freed_by, freed_all};

use crate::rows::put_home;
use crate::words::done_of;
use atomic_table::Closed;
use block_heap::Cell;
use fusion_core::{Dock, Done, Slot};
use std::alloc::Global;

/// Drops the first numbers, which jobs drew.
pub fn drop_drawn(free: &mut Vec<u32>, cursor: usize)
    requires { cursor ≤ vec_len free.old }
    ensures items { free.new.items ≡ take (length free.old.items - cursor) (reverse free.old.items) }
    ensures capacity { vec_capacity free.new ≡ vec_capacity free.old }
{
    let rest = free.len() - cursor;
    free.as_mut_slice().reverse();
    free.truncate(rest);
}

/// Takes all cells and docks back.
pub fn take_slots(
    closed: &mut Closed<Slot, Global>,
    count: usize,
    cells: &mut Vec<Cell>,
    docks: &mut Vec<Dock>,
)
    requires count { (count ≡ slots_len closed.old.slots) × (length (slots_items closed.old.slots) ≡ count) }
    requires full { (k : ℕ) → k < count → slice_index_or (slots_filled closed.old.slots) k false ≡ true }
    requires empty { (cells.old.items ≡ []) × (vec_len cells.old ≡ 0) × (docks.old.items ≡ []) × (vec_len docks.old ≡ 0) }
    requires cell_room { length (cells_in (slots_items closed.old.slots)) ≤ vec_capacity cells.old }
    requires dock_room { length (docks_in (slots_items closed.old.slots)) ≤ vec_capacity docks.old }
    ensures cells { cells.new.items ≡ cells_in (slots_items closed.old.slots) }
    ensures docks { docks.new.items ≡ docks_in (slots_items closed.old.slots) }
    ensures words { closed.new.words ≡ closed.old.words }
    ensures len { slots_len closed.new.slots ≡ slots_len closed.old.slots }
    ensures taken { (k : ℕ) → k < count → slice_index_or (slots_filled closed.new.slots) k false ≡ false }
{
    for i in 0..count {
        put_home(closed.take(i), cells, docks);
    }
}

// Adds the number of the cell that an answer states to be free.
fn add_freed(free: &mut Vec<u32>, done: Done)
    requires { vec_len free.old + length (freed_by done) ≤ vec_capacity free.old }
    ensures items { free.new.items ≡ free.old.items ++ freed_by done }
    ensures capacity { vec_capacity free.new ≡ vec_capacity free.old }
{
    if let Done::Freed(cell) = done {
        free.push_reserved(cell);
    }
}

/// Reads the answer of each job, and adds the freed cells to the free numbers.
pub fn take_answers(
    closed: &Closed<Slot, Global>,
    count: usize,
    free: &mut Vec<u32>,
    done: &mut Vec<Done>,
)
    requires words { (count + 2 ≤ slots_len closed.now.words) × IsFull closed.now.words }
    requires room { (ds : List DoneValue) × AreAnswers count (slots_items closed.now.words) ds × (vec_len free.old + length (freed_all ds) ≤ vec_capacity free.old) }
    requires empty { (done.old.items ≡ []) × (vec_len done.old ≡ 0) × (count ≤ vec_capacity done.old) }
    ensures answers { (ds : List DoneValue) → AreAnswers count (slots_items closed.now.words) ds → (done.new.items ≡ ds) × (free.new.items ≡ free.old.items ++ freed_all ds) }
    ensures capacity { vec_capacity free.new ≡ vec_capacity free.old }
{
    for j in 0..count {
        let answer = done_of(closed.word(j + 2));
        add_freed(free, answer);
        done.push_reserved(answer);
    }
}
