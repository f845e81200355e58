ghost use Rattle.std.specs.Prelude.{◌≡◌, ◌↔◌, ◌-◌, ◌^◌, ◌<◌, ◌≤◌, length, Some, IsSome, IfOk, IfSome, true, is_some, not, option_and_then, option_map, slice_get, slice_set, count_by, vec_len, vec_capacity};
ghost use Rattle.block_heap.specs.Cells.{IsFreeList, content, drawn, given_up, is_free, is_free_at, new_cells, with_owner};
ghost use Rattle.block_heap.specs.declared.cell.Cell.{Cell as CellValue};
ghost use Rattle.block_heap.specs.HeapLending.{LendsBlockAt};
ghost use Rattle.std.specs.Borrow.{sem};

use crate::cell::Cell;
use std::alloc::Global;
use std::marker::Model;
use voxel_block::{Block, BlockKey, NoMemory};

/// A fixed number of cells, numbered from 0, each with a block, and the numbers of the free ones.
///
/// Only `make` allocates.
#[derive(Drop)]
pub struct Heap {
    cells: Vec<Cell>,
    free: Vec<u32>,
}

impl Model for Heap {
    ghost use Rattle.std.specs.Prelude.{◌<◌, ◌≤◌, ◌^◌, vec_len, vec_capacity};
    ghost use Rattle.block_heap.specs.Cells.{Cells, IsFreeList};

    ghost Value = { Cells };

    ghost view = { λ h. record { cells = h.cells.items; free = h.free.items } };

    ghost invariant = { λ h. IsFreeList h.cells.items h.free.items × (vec_len h.cells < 2 ^ 32)
        × (vec_len h.cells ≤ vec_capacity h.free) };
}

impl Heap {
    /// A heap of `n` free cells with new voxels. The lowest number is drawn first. All memory is allocated
    /// here, about 1.5 KB a cell.
    pub fn make(alloc: Global, n: u32) -> Result<Heap, NoMemory>
        requires least { 1 ≤ n }
        requires most { n ≤ 65536 }
        ensures value { IfOk result (λ h. h ≡ new_cells n) }
        ensures list { IfOk result (λ h. IsFreeList h.cells h.free) }
    {
        let mut cells = Vec::with_capacity(alloc, n as usize)?;
        let mut free = Vec::with_capacity(alloc, n as usize)?;
        for i in 0..n {
            cells.push_reserved(Cell::Free(Block::make(alloc)?));
            free.push_reserved(n - 1 - i);
        }
        Ok(Heap { cells, free })
    }

    /// The heap with these cells, where these are the numbers of the free ones.
    pub fn of_parts(cells: Vec<Cell>, free: Vec<u32>) -> Heap
        requires list { IsFreeList cells.items free.items }
        requires short { vec_len cells < 2 ^ 32 }
        requires room { vec_len cells ≤ vec_capacity free }
        ensures { result ≡ record { cells = cells.items; free = free.items } }
    {
        Heap { cells, free }
    }

    /// The cells, and the numbers of the free ones, a list with capacity for all cells.
    pub fn into_parts(self) -> (Vec<Cell>, Vec<u32>)
        ensures cells { result.0.items ≡ self.cells }
        ensures free { result.1.items ≡ self.free }
        ensures list { IsFreeList self.cells self.free }
        ensures short { vec_len result.0 < 2 ^ 32 }
        ensures room { vec_len result.0 ≤ vec_capacity result.1 }
    {
        (self.cells, self.free)
    }

    /// The number of cells.
    pub fn cell_count(&self) -> u32
        ensures value { result ≡ length self.now.cells }
        ensures list { IsFreeList self.now.cells self.now.free }
    {
        self.cells.len() as u32
    }

    /// The number of free cells.
    pub fn free_count(&self) -> u32
        ensures value { result ≡ length self.now.free }
        ensures cells { result ≡ count_by is_free self.now.cells }
        ensures list { IsFreeList self.now.cells self.now.free }
    {
        self.free.len() as u32
    }

    /// The key and the block of the cell of this number. `None` exactly where the cell is free.
    pub fn lend(&self, cell: u32) -> Option<(BlockKey, &Block)>
        requires { cell < length self.now.cells }
        ensures value { option_map (λ p. (p.0, p.1.now)) result ≡ option_and_then content (slice_get self.now.cells cell) }
        ensures owned { is_some result ≡ not (is_free_at self.now.cells cell) }
        ensures list { IsFreeList self.now.cells self.now.free }
    {
        match &self.cells[cell as usize] {
            Cell::Free(_) => None,
            Cell::Owned(key, block) => Some((*key, block)),
        }
    }

    /// The block of the cell of this number, to be changed. `None` exactly where the cell is free.
    pub fn lend_mut(&mut self, cell: u32) -> Option<&mut Block>
        requires { cell < length self.old.cells }
        ensures* writes_back { sem 𝓛 (LendsBlockAt self.entry cell result) }
        ensures value { option_map (λ b. b.now) result ≡ option_map (λ p. p.1) (option_and_then content (slice_get self.old.cells cell)) }
        ensures owned { is_some result ≡ not (is_free_at self.old.cells cell) }
        ensures list { IsFreeList self.old.cells self.old.free }
    {
        self.cells[cell as usize].block_mut()
    }

    /// Gives a free cell to the key, with new voxels, and returns its number. `None` exactly where no cell is free.
    pub fn draw(&mut self, key: BlockKey) -> Option<u32>
        ensures value { result ≡ slice_get self.old.free (length self.old.free - 1) }
        ensures variant { IsSome result ↔ (0 < length self.old.free) }
        ensures after { self.new ≡ drawn self.old key result }
        ensures count { length self.new.cells ≡ length self.old.cells }
        ensures free { IfSome result (λ n. is_free_at self.old.cells n ≡ true) }
        ensures list { IsFreeList self.new.cells self.new.free }
    {
        let cell = self.free.pop()?;
        set_owner(&mut self.cells, cell as usize, Some(key));
        Some(cell)
    }

    /// Frees the cell of this number. A free cell stays as it is, and its number is not added again.
    pub fn give_up(&mut self, cell: u32)
        requires { cell < length self.old.cells }
        ensures after { self.new ≡ given_up self.old cell }
        ensures count { length self.new.cells ≡ length self.old.cells }
        ensures list { IsFreeList self.new.cells self.new.free }
    {
        if self.cells[cell as usize].is_free() {
            return;
        }
        set_owner(&mut self.cells, cell as usize, None);
        self.free.push_reserved(cell);
    }
}

// Gives the cell of this number to the key, with new voxels, or frees it, with the block that it has.
fn set_owner(cells: &mut Vec<Cell>, i: usize, owner: Option<BlockKey>)
    requires { i < vec_len cells.old }
    ensures cells { (c : CellValue) → slice_get cells.old.items i ≡ Some c → cells.new.items ≡ slice_set cells.old.items i (with_owner c owner) }
    ensures len { vec_len cells.new ≡ vec_len cells.old }
{
    let cell = cells.swap_remove(i);
    cells.push_reserved(cell.with_owner(owner));
    let last = cells.len() - 1;
    cells.swap(i, last);
}
