ghost use Rattle.std.specs.Prelude.{◌≡◌, ◌≢◌, ◌↔◌, ◌<◌, ◌≤◌, ◌+◌, ◌^◌, [], ◌∷◌, length, slice_index, IfOk, MatchOption, IsTrue};
ghost use Rattle.fusion_core.specs.TouchCounts.{has_first};
ghost use Rattle.fusion_core.specs.TouchSeats.{fresh_seat};
ghost use Rattle.fusion_core.specs.TouchSteps.{seen_after, put, drawn_after, stored, hung, touched_after, draw_of};
ghost use Rattle.fusion_core.specs.TouchNext.{sized, IsSize};
ghost use Rattle.spatial_hash.specs.Table.{entries_in};

use super::size::Size;
use std::alloc::Global;
use std::marker::Model;
use voxel_block::NoMemory;

mod next;

/// A node that a seat drew and that is not linked yet.
#[derive(Clone, Copy)]
pub(super) struct Unlinked {
    pub number: usize,
    /// The word of the key that is stored in it, 0 for none.
    pub word: u64,
}

/// What one seat knows and has. Only `make` allocates.
#[derive(Drop)]
pub(super) struct Seat {
    /// Each word as the seat has seen it, 0 where it has not.
    seen: Vec<u64>,
    /// The words of the keys that it touched, each with its entry.
    touched: Vec<(u64, usize)>,
    /// The words of the keys that it placed.
    placed: Vec<u64>,
    node: Option<Unlinked>,
    /// One more than the last number that it drew at or past the number of nodes, 0 for none.
    mark: u64,
}

impl Model for Seat {
    ghost use Rattle.std.specs.Prelude.{◌≤◌, vec_capacity};
    ghost use Rattle.fusion_core.specs.TouchRoom.{SeatRoom};
    ghost use Rattle.fusion_core.specs.TouchView.{seat_view};

    ghost Value = { SeatRoom };

    ghost view = { seat_view };

    ghost invariant = { λ s. vec_capacity s.touched ≤ vec_capacity s.placed };
}

impl Seat {
    /// A fresh seat over a number of words, with room for a touched key at each entry.
    pub(super) fn make(alloc: Global, words: usize, entries: usize) -> Result<Seat, NoMemory>
        ensures seat { IfOk result (λ s. s.seat ≡ fresh_seat words 1) }
        ensures room { IfOk result (λ s. entries ≤ s.room) }
    {
        let seen = Vec::from_elem(alloc, 0, words)?;
        let touched: Vec<(u64, usize)> = Vec::with_capacity(alloc, entries)?;
        let placed = Vec::with_capacity(alloc, touched.capacity())?;
        Ok(Seat {
            seen,
            touched,
            placed,
            node: None,
            mark: 0,
        })
    }

    /// Word `w` as the seat has seen it, 0 where it has not.
    pub(super) fn seen_at(&self, w: usize) -> u64
        requires { w < length self.now.seat.seen }
        ensures { result ≡ slice_index self.now.seat.seen w }
    {
        self.seen[w]
    }

    /// Whether the seat has seen a key word, and it is not this one.
    pub(super) fn passes(&self, entry: usize, key: u64) -> bool
        requires { entry < length self.now.seat.seen }
        ensures { IsTrue result ↔ ((0 < slice_index self.now.seat.seen entry) × (slice_index self.now.seat.seen entry ≢ key)) }
    {
        let word = self.seen[entry];
        word != 0 && word != key
    }

    /// The seat's unlinked node.
    pub(super) fn node(&self) -> Option<Unlinked>
        ensures { MatchOption result (self.now.seat.nodes ≡ []) (λ n. self.now.seat.nodes ≡ (n.number, n.word) ∷ []) }
    {
        self.node
    }

    /// What the seat adds to the counter when it draws.
    pub(super) fn draw_step(&self) -> u64
        ensures { result ≡ draw_of self.now.seat }
    {
        if self.mark == 0 { 1 } else { 0 }
    }

    /// The seat loads a word, which tells it nothing where it is 0, in a step for a key.
    pub(super) fn load(&mut self, table: Size, key: u64, w: usize, value: u64)
        requires size { IsSize table }
        requires low { w < length self.old.seat.seen }
        requires room { value ≢ 0 → w < entries_in (sized table.buckets table.nodes) → length (touched_after key w value self.old.seat.touched) ≤ self.old.room }
        ensures { self.new ≡ record self.old { seat = seen_after (sized table.buckets table.nodes) key w value self.old.seat } }
    {
        if value == 0 {
            return;
        }
        self.seen[w] = value;
        if w < table.entries() && value == key {
            self.touch(key, w);
        }
    }

    /// Touches a key at an entry, unless it was touched before.
    fn touch(&mut self, key: u64, entry: usize)
        requires room { length (touched_after key entry key self.old.seat.touched) ≤ self.old.room }
        ensures { self.new ≡ record self.old { seat = record self.old.seat { touched = touched_after key entry key self.old.seat.touched } } }
    {
        if !self.has_touched(key) {
            self.touched.push_reserved((key, entry));
        }
    }

    /// Whether the seat touched a key.
    fn has_touched(&self, key: u64) -> bool
        ensures { result ≡ has_first key self.now.seat.touched }
    {
        self.touched.iter().any(|touched| touched.0 == key)
    }

    /// The seat placed a key at an entry.
    pub(super) fn place(&mut self, key: u64, entry: usize)
        requires low { entry < length self.old.seat.seen }
        requires room { length (touched_after key entry key self.old.seat.touched) ≤ self.old.room }
        requires more { length self.old.seat.placed < self.old.room }
        ensures { self.new ≡ record self.old { seat = put key entry self.old.seat } }
    {
        self.seen[entry] = key;
        self.touch(key, entry);
        self.placed.push_reserved(key);
    }

    /// The seat drew a number: a node, or one past the nodes.
    pub(super) fn draw(&mut self, nodes: usize, number: u64)
        requires number { number + 1 < 2 ^ 64 }
        requires none { self.old.seat.nodes ≡ [] }
        ensures { self.new ≡ record self.old { seat = drawn_after nodes number self.old.seat } }
    {
        if number < nodes as u64 {
            self.node = Some(Unlinked {
                number: number as usize,
                word: 0,
            });
        } else {
            self.mark = number + 1;
        }
    }

    /// The seat stored a word in its unlinked node.
    pub(super) fn store(&mut self, word: u64)
        ensures { self.new ≡ record self.old { seat = stored word self.old.seat } }
    {
        if let Some(node) = self.node {
            self.node = Some(Unlinked { word, ..node });
        }
    }

    /// The seat linked its unlinked node at a link.
    pub(super) fn link(&mut self, link: usize, node: Unlinked, entry: usize)
        requires node { self.old.seat.nodes ≡ (node.number, node.word) ∷ [] }
        requires number { node.number + 1 < 2 ^ 64 }
        requires link { link < length self.old.seat.seen }
        requires low { entry < length self.old.seat.seen }
        requires room { length (touched_after node.word entry node.word self.old.seat.touched) ≤ self.old.room }
        requires more { length self.old.seat.placed < self.old.room }
        ensures { self.new ≡ record self.old { seat = hung node.word link node.number entry self.old.seat } }
    {
        self.seen[link] = node.number as u64 + 1;
        self.node = None;
        self.place(node.word, entry);
    }
}
