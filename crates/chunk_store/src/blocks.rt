ghost use Rattle.std.specs.Iterator.{YieldsFirstBy, item_count};
ghost use Rattle.chunk_store.specs.Remaining.{keyed_bytes, remaining_blocks, remaining_in};

use crate::row::Row;
use indexmap::map;
use std::marker::Model;
use std::slice;
use voxel_block::{BlockKey, ChunkKey, Packed};

/// The blocks of a store that are still to come, each with its key, in no order that callers may rely on.
#[derive(Drop)]
pub struct Blocks<'a> {
    /// The places of the present row that are still to come.
    places: slice::Iter<'a, Option<(BlockKey, Packed)>>,
    /// The rows that are still to come.
    rows: map::Iter<'a, ChunkKey, Row>,
}

impl<'a> Model for Blocks<'a> {
    ghost use Rattle.std.specs.Prelude.{List, ◌++◌};
    ghost use Rattle.std.specs.Slice.Iter.{iter_rest};
    ghost use Rattle.chunk_store.specs.Rows.{Held, held_in};
    ghost use Rattle.chunk_store.specs.Store.{held_of};

    ghost Value = { List Held };

    ghost view = { λ b. held_in (iter_rest b.places) ++ held_of b.rows };
}

impl<'a> Blocks<'a> {
    ghost use Rattle.std.specs.Prelude.{◌≡◌};
    ghost use Rattle.chunk_store.specs.Store.{held_of};

    // The blocks of these rows.
    pub(crate) fn of(rows: map::Iter<'a, ChunkKey, Row>) -> Blocks<'a>
        ensures { remaining_blocks result ≡ held_of rows.entry }
    {
        Blocks {
            places: [].iter(),
            rows,
        }
    }
}

impl<'a> Iterator for Blocks<'a> {
    type Item = (BlockKey, &'a Packed);

    ghost next_gives = { YieldsFirstBy keyed_bytes remaining_blocks };

    ghost remaining = { item_count remaining_blocks };

    /// The next block. Empty places are passed over.
    fn next(&mut self) -> Option<(BlockKey, &'a Packed)> {
        loop {
            if let Some(block) = next_held(&mut self.places) {
                return Some(block);
            }
            let (_, row) = self.rows.next()?;
            self.places = row.places();
        }
    }
}

// The next block of these places.
fn next_held<'a>(
    places: &mut slice::Iter<'a, Option<(BlockKey, Packed)>>,
) -> Option<(BlockKey, &'a Packed)>
    ensures { YieldsFirstBy keyed_bytes remaining_in places.old result places.new }
{
    loop {
        if let Some((key, packed)) = places.next()? {
            return Some((*key, packed));
        }
    }
}
