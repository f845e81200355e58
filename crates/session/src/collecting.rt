ghost use Rattle.std.specs.Prelude.{◌≡◌, ◌<◌, ◌+◌, length};
ghost use Rattle.std.specs.FinMap.{len};
ghost use Rattle.streamer.specs.Owners.{owner_at};
ghost use Rattle.streamer.specs.Places.{IsPlaced, blocks_of};
ghost use Rattle.session.specs.Collecting.{Collects, is_empty_owner};

use block_heap::Heap;
use collector::is_empty;
use streamer::Rest;

/// Removes the empty blocks of the heap from the map, and returns their number. Takes no memory.
pub fn collect_empty(rest: &mut Rest, empty_f: i16) -> u32
    requires placed { IsPlaced rest.old }
    ensures collected { Collects empty_f rest.old rest.new }
    ensures count { result + len (blocks_of rest.new) ≡ len (blocks_of rest.old) }
{
    let mut count = 0;
    for cell in 0..rest.cell_count() {
        if is_empty_at(rest.heap(), cell, empty_f) {
            rest.remove_at(cell);
            count += 1;
        }
    }
    count
}

/// Whether a cell is owned and its block is empty.
fn is_empty_at(heap: &Heap, cell: u32, empty_f: i16) -> bool
    requires { cell < length heap.now.cells }
    ensures { result ≡ is_empty_owner empty_f (owner_at heap.now cell) }
{
    match heap.lend(cell) {
        Some((_, block)) => is_empty(block.summary(), empty_f),
        None => false,
    }
}
