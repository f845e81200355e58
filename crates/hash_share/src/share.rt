ghost use Rattle.std.specs.Prelude.{◌≡◌, ◌+◌, ◌*◌, ◌<◌, ◌≤◌, ◌∷◌, ◌++◌, [], ◌⊎◌, ℕ, ◌-◌, ◌^◌, Some, None, true, false, IfOk};
ghost use Rattle.std.specs.FinMap.{get, len};
ghost use Rattle.voxel_block.specs.declared.key.BlockKey.{BlockKey};
ghost use Rattle.spatial_hash.specs.Contents.{contents};
ghost use Rattle.spatial_hash.specs.Sound.{IsSound};
ghost use Rattle.hash_share.specs.Seats.{HasCells, cell_in};

use crate::hand::Hand;
use crate::refill::{is_spare, put_back};
use crate::rule::Told;
use crate::seat::TouchSeat;
use crate::spares::Spares;
use crate::touched::Touched;
use crate::walks::Walks;
use atomic_table::Table;
use spatial_hash::{HashTable, bucket};
use std::alloc::{AllocError, Global};
use std::marker::Model;
use std::snapshot::Snapshot;
use voxel_block::{BlockKey, NoMemory};

/// A copy of a hash table, whose keys several seats touch at once, with no lock (this project's own).
///
/// A touch goes over the bucket of the key, and then over its chain, once. It places a key at the first
/// free word of the walk by a compare and exchange from 0, so a key is placed once, whoever touches it.
/// A share is made with its first seat; each further one is split off from a seat. The parts of all
/// seats add up to the number of seats that the share was made for.
#[derive(Drop)]
pub struct HashShare {
    walks: Walks,
    /// The table that `close` fills.
    refill: HashTable,
    /// The cell of each entry of the shared table, none where the entry is free.
    cells: Vec<u32>,
}

impl Model for HashShare {
    ghost use Rattle.hash_share.specs.Seats.{Share, share_of, IsHashShare};

    ghost Value = { Share };

    ghost view = { share_of };

    ghost invariant = { IsHashShare };
}

impl HashShare {
    ghost use Rattle.voxel_block.specs.Words.{word_of, key_of};
    ghost use Rattle.hash_share.specs.Seats.{Belongs, FindsIt, IsNewKey};
    ghost use Rattle.hash_share.specs.Steps.{HasPair, IsFresh, first_view, cut_left, cut_right, both};
    ghost use Rattle.hash_share.specs.Touching.{IsTouched};

    /// A copy of the table for 1 to 64 seats, and its first seat, whose part is all of them.
    ///
    /// # Errors
    ///
    /// No memory is left.
    pub fn share(
        alloc: Global,
        table: &HashTable,
        seats: u32,
    ) -> Result<(HashShare, TouchSeat), NoMemory>
        requires { (1 ≤ seats) × (seats ≤ 64) }
        ensures share { IfOk result (λ r. (r.0.start ≡ table.now) × (r.0.seats ≡ seats)) }
        ensures seat { IfOk result (λ r. Belongs r.1 r.0 × (r.1.knows ≡ first_view table.now seats) × IsFresh r.1.knows) }
    {
        let refill = table.cleared(alloc)?;
        let cells = cells_of(alloc, table)?;
        let words = words_of(alloc, table)?;
        let told = Told {
            start: Snapshot::of(table),
            seats,
        };
        let (buckets, nodes) = sizes_of(table);
        let (table, seat) = Table::of_words(alloc, words.as_slice(), &told)?;
        let walks = Walks {
            table,
            buckets: buckets as usize,
            nodes: nodes as usize,
        };
        let hand = Hand {
            seat,
            spares: Spares::none(),
            marked: false,
        };
        Ok((
            HashShare {
                walks,
                refill,
                cells,
            },
            TouchSeat { hand, part: seats },
        ))
    }

    /// Finds a key in the shared words, or places it there.
    ///
    /// It goes over the bucket and the chain of the key once, waits for nobody, and takes no memory. Where
    /// the key stands it makes one load for each word up to it, and writes nothing.
    pub fn touch(&self, seat: &mut TouchSeat, key: BlockKey) -> Touched
        requires { Belongs seat.old self.now }
        ensures seat { Belongs seat.new self.now × (seat.new.id ≡ seat.old.id) }
        ensures part { seat.new.knows.part ≡ seat.old.knows.part }
        ensures named { key_of (word_of key) ≡ Some key }
        ensures touched { IsTouched (word_of key) seat.old.knows seat.new.knows result }
        ensures findable { FindsIt self.now seat.new key result }
    {
        let bucket = bucket(self.walks.buckets, key);
        self.walks.touch(&mut seat.hand, bucket, key.word())
    }

    /// A new seat with that part. The old one keeps the rest. Takes no memory.
    pub fn split(&self, seat: &mut TouchSeat, part: u32) -> TouchSeat
        requires belongs { Belongs seat.old self.now }
        requires part { (1 ≤ part) × (part < seat.old.knows.part) }
        requires fresh { IsFresh seat.old.knows }
        ensures belongs { Belongs seat.new self.now × Belongs result self.now }
        ensures seat { (seat.new.id ≡ seat.old.id) × (seat.new.knows ≡ cut_left part seat.old.knows) }
        ensures other { result.knows ≡ cut_right part seat.old.knows }
        ensures fresh { IsFresh seat.new.knows × IsFresh result.knows }
    {
        let other = self.walks.split(&mut seat.hand.seat, part);
        seat.part -= part;
        TouchSeat {
            hand: Hand {
                seat: other,
                spares: Spares::none(),
                marked: false,
            },
            part,
        }
    }

    /// Takes the other seat in, with its part, its lists and its unlinked nodes. Takes no memory.
    pub fn join(&self, seat: &mut TouchSeat, other: TouchSeat)
        requires belongs { Belongs seat.old self.now × Belongs other self.now }
        ensures belongs { Belongs seat.new self.now }
        ensures seat { (seat.new.id ≡ seat.old.id) × (seat.new.knows ≡ both seat.old.knows other.knows) }
    {
        let TouchSeat { hand, part } = other;
        let Hand {
            seat: taken,
            spares,
            marked,
        } = hand;
        self.walks.join(&mut seat.hand.seat, taken);
        self.walks.weigh(&mut seat.hand.seat);
        seat.hand.spares.take(spares);
        seat.hand.marked = any(seat.hand.marked, marked);
        seat.part += part;
    }

    /// The table with the keys of the shared one, each with its cell, and the keys that the seat touched, new
    /// ones with no cell (`u32::MAX`). Its nodes are numbered anew. Takes no memory.
    ///
    /// Where the seat has a mark, at least `nodes - seats` nodes are linked, and at least
    /// `nodes - linked - seats` keys are new, where `linked` is that of the shared table.
    pub fn close(self, seat: TouchSeat) -> HashTable
        requires belongs { Belongs seat self }
        requires whole { seat.knows.part ≡ self.seats }
        ensures size { (result.buckets ≡ self.start.buckets) × (result.nodes ≡ self.start.nodes) }
        ensures shared { (k : BlockKey) (c : ℕ) → get (contents self.start) k ≡ Some c → get (contents result) k ≡ Some c }
        // Each key of 16-bit coordinates is that of its word.
        ensures touched { (k : BlockKey) (e : ℕ) → key_of (word_of k) ≡ Some k → HasPair (word_of k) e seat.knows → get (contents self.start) k ≡ None → get (contents result) k ≡ Some (2 ^ 32 - 1) }
        ensures only { (k : BlockKey) (c : ℕ) → get (contents result) k ≡ Some c → (get (contents self.start) k ≡ Some c) ⊎ IsNewKey self.start seat.knows k c }
        ensures linked { 0 < seat.knows.mark → self.start.nodes ≤ result.linked + self.seats }
        ensures count { 0 < seat.knows.mark → len (contents self.start) + (self.start.nodes - self.start.linked) ≤ len (contents result) + self.seats }
    {
        let TouchSeat { hand, part: _ } = seat;
        let Hand {
            seat,
            spares,
            marked: _,
        } = hand;
        let HashShare {
            walks,
            mut refill,
            cells,
        } = self;
        let Walks {
            table,
            buckets,
            nodes,
        } = walks;
        let closed = table.close_with(seat);
        let entries = 4 * buckets;
        for e in 0..entries + nodes {
            let word = closed.word(e);
            put_back(&mut refill, word, cells[e], is_spare(&spares, e, entries));
        }
        closed.free();
        refill
    }
}

/// The words of a table, and behind them the number of its linked nodes.
fn words_of(alloc: Global, table: &HashTable) -> Result<Vec<u64>, AllocError>
    ensures { IfOk result (λ v. v.items ≡ table.now.words ++ table.now.linked ∷ []) }
{
    let (buckets, nodes) = sizes_of(table);
    let count = 5 * buckets + 2 * nodes;
    let mut words = Vec::with_capacity(alloc, count as usize + 1)?;
    for w in 0..count {
        words.push_reserved(table.word_at(w));
    }
    words.push_reserved(u64::from(table.linked()));
    Ok(words)
}

/// The cell of each entry of a table, none where it is free.
fn cells_of(alloc: Global, table: &HashTable) -> Result<Vec<u32>, AllocError>
    ensures { IfOk result (λ v. HasCells table.now v.items) }
{
    let (buckets, nodes) = sizes_of(table);
    let count = 4 * buckets + nodes;
    let mut cells = Vec::with_capacity(alloc, count as usize)?;
    for e in 0..count {
        cells.push_reserved(cell_of(table, e));
    }
    Ok(cells)
}

/// The cell of an entry, none where it is free.
fn cell_of(table: &HashTable, e: u32) -> u32
    requires { e < 4 * table.now.buckets + table.now.nodes }
    ensures { result ≡ cell_in table.now e }
{
    if table.word_at(e) == 0 {
        return u32::MAX;
    }
    table.cell_at(e)
}

/// The numbers of buckets and of nodes.
fn sizes_of(table: &HashTable) -> (u32, u32)
    ensures value { (result.0 ≡ table.now.buckets) × (result.1 ≡ table.now.nodes) }
    ensures small { (0 < result.0) × (result.0 ≤ 65536) × (result.1 ≤ 1000000) }
    ensures sound { IsSound table.now }
{
    let _ = table.linked();
    (table.buckets(), table.nodes())
}

/// One of the two holds.
fn any(a: bool, b: bool) -> bool
    ensures yes { result ≡ true → (a ≡ true) ⊎ (b ≡ true) }
    ensures no { result ≡ false → (a ≡ false) × (b ≡ false) }
{
    if a {
        return true;
    }
    b
}
