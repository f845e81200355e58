ghost use Rattle.std.specs.Prelude.{◌≡◌, ◌↔◌, ◌≤◌, ◌++◌, [], ◌∷◌, length, IfOk, OnOk, OnErr};
ghost use Rattle.std.specs.Result.{IsOk};
ghost use Rattle.fusion_core.specs.TouchWords.{counter_at};
ghost use Rattle.fusion_core.specs.TouchNext.{IsSizeOf};
ghost use Rattle.fusion_core.specs.TouchRoom.{AreFresh};
ghost use Rattle.fusion_core.specs.TouchMachine.{touch_start, RuleHolds, IsAllowed, Steps};

use super::event::Touch;
use super::seat::Seat;
use super::size::Size;
use crate::NotAllowed;
use spatial_hash::HashTable;
use std::alloc::{AllocError, Global};
use std::marker::Model;
use std::snapshot::Snapshot;
use voxel_block::NoMemory;

mod guard;
mod steps;

/// A hash table whose keys several seats touch, one step at a time.
///
/// Its words are those of the table, and after them a counter, the number that the next draw of a node gives. A
/// key that a seat touches is found, or it is placed at the first free entry of its bucket or, where the entries are
/// filled, in a node that is linked at the end of the bucket's chain. Only `make` allocates.
#[derive(Drop)]
pub struct TouchCore {
    /// The table at the start.
    start: Snapshot<HashTable>,
    size: Size,
    words: Vec<u64>,
    seats: Vec<Seat>,
}

impl Model for TouchCore {
    ghost use Rattle.fusion_core.specs.TouchMachine.{TouchState};
    ghost use Rattle.fusion_core.specs.TouchCoreView.{machine_view, IsMachine};

    ghost Value = { TouchState };

    ghost view = { machine_view };

    ghost invariant = { IsMachine };
}

impl TouchCore {
    /// Fresh seats, from 1 to 64, over the words of a table.
    ///
    /// # Errors
    ///
    /// Out of memory.
    pub fn make(alloc: Global, table: &HashTable, seats: u32) -> Result<TouchCore, NoMemory>
        requires least { 1 ≤ seats }
        requires most { seats ≤ 64 }
        ensures state { IfOk result (λ m. m ≡ touch_start table.now seats) }
        ensures rule { IfOk result (λ m. RuleHolds m) }
    {
        let linked = table.linked();
        let size = Size {
            buckets: table.buckets() as usize,
            nodes: table.nodes() as usize,
        };
        let words = copy_words(alloc, table, size, linked)?;
        let seats = fresh_seats(alloc, seats, words.len(), size.entries())?;
        Ok(TouchCore {
            start: Snapshot::of(table),
            size,
            words,
            seats,
        })
    }

    /// Makes a step of a seat.
    ///
    /// # Errors
    ///
    /// A step is not allowed where there is no such seat, where a `Seen`, `Place` or `Link` names a word that is not
    /// the next one on the seat's walk, where a `Place` or `Link` names a word that is not 0, where a `Node` comes
    /// from a seat that has an unlinked node, where a `Fill` comes from one that has none, and where a `Link` comes from
    /// one that has no filled one. Nothing changes then.
    pub fn step(&mut self, seat: u32, touch: Touch) -> Result<(), NotAllowed>
        ensures allowed { IsOk result ↔ IsAllowed self.old seat touch }
        ensures step { OnOk result (Steps self.old seat touch self.new) }
        ensures same { OnErr result (self.new ≡ self.old) }
        ensures rule { RuleHolds self.new }
    {
        let seat = seat as usize;
        if !self.allows(seat, touch) {
            return Err(NotAllowed);
        }
        match touch {
            Touch::Seen { word, key } => self.load(seat, word as usize, key),
            Touch::Place { entry, key } => self.place(seat, entry as usize, key),
            Touch::Node => self.draw(seat),
            Touch::Fill { key } => self.fill(seat, key),
            Touch::Link { word } => self.link(seat, word as usize),
        }
        Ok(())
    }
}

/// The words of a table of this size, and the number of its linked nodes.
fn copy_words(
    alloc: Global,
    table: &HashTable,
    size: Size,
    linked: u32,
) -> Result<Vec<u64>, AllocError>
    requires size { IsSizeOf table.now size }
    requires long { length table.now.words ≡ counter_at table.now }
    ensures { IfOk result (λ v. v.items ≡ table.now.words ++ linked ∷ []) }
{
    let count = size.counter();
    let mut words = Vec::with_capacity(alloc, count + 1)?;
    for word in 0..count {
        words.push_reserved(table.word_at(word as u32));
    }
    words.push_reserved(u64::from(linked));
    Ok(words)
}

/// A number of fresh seats over a number of words, with room for a key at each entry.
fn fresh_seats(
    alloc: Global,
    count: u32,
    words: usize,
    entries: usize,
) -> Result<Vec<Seat>, NoMemory>
    ensures { IfOk result (λ v. AreFresh count words entries v.items) }
{
    let mut seats = Vec::with_capacity(alloc, count as usize)?;
    for _ in 0..count {
        seats.push_reserved(Seat::make(alloc, words, entries)?);
    }
    Ok(seats)
}
