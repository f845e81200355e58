use crate::board::Dock;
use block_heap::Cell;

/// A cell or a dock, or nothing where one was taken out.
#[derive(Drop)]
pub enum Slot {
    /// A cell.
    OfCell(Cell),
    /// A dock.
    OfDock(Dock),
    /// Nothing: it is in a hand.
    Away,
}
