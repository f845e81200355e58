ghost use Rattle.std.specs.Prelude.{◌≡◌, ◌⊎◌, ℕ, List, ◌+◌, ◌*◌, ◌<◌, ◌≤◌, ◌^◌, [], ◌∷◌, length};
ghost use Rattle.spatial_hash.specs.Hash.{home};
ghost use Rattle.fusion_core.specs.TouchWords.{shown, counter_at, Passes, link_at};
ghost use Rattle.hash_share.specs.Steps.{found, saw, put, drew, past, stored, hung, LeadsOn, IsKept, HasPair, IsFresh, cut_left, cut_right, both};
ghost use Rattle.fusion_core.specs.TouchSteps.{IsNextKey, IsNextLink};
ghost use Rattle.fusion_core.specs.TouchLaws.{IsAbsent};

use crate::rule::{
    Both, Cut, Draw, Fill, Follow, Hang, Key, Look, OnWalks, Seat, Told, Try, Weigh,
};
use crate::view::View;
use atomic_table::Table;
use std::alloc::Global;
use std::marker::Brand;

/// The words of a share: those of the shared table, and behind them the number of nodes that were
/// drawn.
#[derive(Drop)]
pub struct Walks {
    pub(crate) table: Table<u64, View, Told, OnWalks, Global>,
    pub(crate) buckets: usize,
    pub(crate) nodes: usize,
    ghost wide: { table.shared.table_id.words ≡ counter_at table.shared.key.start.value + 1 },
    ghost small: { (0 < buckets) × (buckets ≤ 65536) × (nodes ≤ 1000000) },
    ghost bare: { table.shared.table_id.slots ≡ 0 },
    ghost sizes: { (buckets ≡ table.shared.key.start.value.buckets) × (nodes ≡ table.shared.key.start.value.nodes) },
}

impl Walks {
    fn looks<K: Key>(&self, seat: &mut Seat, entry: usize, key: u64) -> u64
        requires key { (key ≡ K.key) × (0 < key) }
        requires seat { (seat.old.table_id ≡ self.now.table.shared.table_id) × (0 < seat.old.me.0.part) }
        requires entry { entry < self.now.table.shared.table_id.words }
        requires ahead { IsNextKey seat.old.me.0.start seat.old.me.0.seen key entry }
        ensures seat { (seat.new.table_id ≡ seat.old.table_id) × (seat.new.id ≡ seat.old.id) }
        ensures none { result ≡ 0 → seat.new.me ≡ seat.old.me }
        ensures some { 0 < result → seat.new.me ≡ (found key entry result seat.old.me.0, seat.old.me.1) }
        ensures node { 4 * seat.old.me.0.start.buckets ≤ entry → 0 < result }
        ensures kept { IsKept seat.old.me.0.seen entry result }
        ensures pair { result ≡ key → HasPair key entry seat.new.me.0 }
    {
        self.table.shared.load::<Look<K>>(seat, entry)
    }

    /// Reads the key word of an entry, in a call for a key.
    pub fn look(&self, seat: &mut Seat, entry: usize, key: u64) -> u64
        requires key { 0 < key }
        requires seat { (seat.old.table_id ≡ self.now.table.shared.table_id) × (0 < seat.old.me.0.part) }
        requires entry { entry < self.now.table.shared.table_id.words }
        requires ahead { IsNextKey seat.old.me.0.start seat.old.me.0.seen key entry }
        ensures seat { (seat.new.table_id ≡ seat.old.table_id) × (seat.new.id ≡ seat.old.id) }
        ensures none { result ≡ 0 → seat.new.me ≡ seat.old.me }
        ensures some { 0 < result → seat.new.me ≡ (found key entry result seat.old.me.0, seat.old.me.1) }
        ensures node { 4 * seat.old.me.0.start.buckets ≤ entry → 0 < result }
        ensures kept { IsKept seat.old.me.0.seen entry result }
        ensures pair { result ≡ key → HasPair key entry seat.new.me.0 }
    {
        self.looks::<Brand>(seat, entry, key)
    }

    /// Places a key at an entry of its bucket, if that is 0. The answer is what was found there.
    pub fn place(&self, seat: &mut Seat, entry: usize, key: u64, i: usize) -> u64
        requires key { (0 < key) × (key ≤ 2 ^ 48) }
        requires seat { (seat.old.table_id ≡ self.now.table.shared.table_id) × (0 < seat.old.me.0.part) }
        requires entry { (entry < self.now.table.shared.table_id.words) × (i < 4) × (entry ≡ 4 * home seat.old.me.0.start.buckets key + i) }
        requires before { Passes (shown seat.old.me.0.start seat.old.me.0.seen) key (home seat.old.me.0.start.buckets key) i }
        ensures seat { (seat.new.table_id ≡ seat.old.table_id) × (seat.new.id ≡ seat.old.id) }
        ensures won { result ≡ 0 → seat.new.me ≡ (put key entry seat.old.me.0, seat.old.me.1) }
        ensures lost { 0 < result → seat.new.me ≡ (found key entry result seat.old.me.0, seat.old.me.1) }
        ensures kept { IsKept seat.old.me.0.seen entry result }
        ensures pair { (result ≡ 0) ⊎ (result ≡ key) → HasPair key entry seat.new.me.0 }
    {
        let _ = i;
        self.table
            .shared
            .compare_exchange::<Try>(seat, entry, 0, key)
    }

    fn follows<K: Key>(&self, seat: &mut Seat, link: usize, key: u64) -> u64
        requires key { (key ≡ K.key) × (0 < key) }
        requires seat { (seat.old.table_id ≡ self.now.table.shared.table_id) × (0 < seat.old.me.0.part) × (seat.old.me.0.start ≡ self.now.table.shared.key.start.value) }
        requires link { link < self.now.buckets + self.now.nodes }
        requires reached { IsNextLink seat.old.me.0.start seat.old.me.0.seen key link }
        ensures seat { (seat.new.table_id ≡ seat.old.table_id) × (seat.new.id ≡ seat.old.id) }
        ensures none { result ≡ 0 → seat.new.me ≡ seat.old.me }
        ensures absent { result ≡ 0 → IsAbsent seat.old.me.0.start seat.old.me.0.touched key }
        ensures some { 0 < result → seat.new.me ≡ (saw (link_at seat.old.me.0.start link) result seat.old.me.0, seat.old.me.1) }
        ensures next { 0 < result → LeadsOn seat.old.me.0.start seat.old.me.0.seen key (link_at seat.old.me.0.start link) result }
        ensures kept { IsKept seat.old.me.0.seen (link_at seat.old.me.0.start link) result }
    {
        let word = 4 * self.buckets + self.nodes + link;
        self.table.shared.load::<Follow<K>>(seat, word)
    }

    /// Reads a link of the chain of a key's bucket.
    pub fn follow(&self, seat: &mut Seat, link: usize, key: u64) -> u64
        requires key { 0 < key }
        requires seat { (seat.old.table_id ≡ self.now.table.shared.table_id) × (0 < seat.old.me.0.part) × (seat.old.me.0.start ≡ self.now.table.shared.key.start.value) }
        requires link { link < self.now.buckets + self.now.nodes }
        requires reached { IsNextLink seat.old.me.0.start seat.old.me.0.seen key link }
        ensures seat { (seat.new.table_id ≡ seat.old.table_id) × (seat.new.id ≡ seat.old.id) }
        ensures none { result ≡ 0 → seat.new.me ≡ seat.old.me }
        ensures absent { result ≡ 0 → IsAbsent seat.old.me.0.start seat.old.me.0.touched key }
        ensures some { 0 < result → seat.new.me ≡ (saw (link_at seat.old.me.0.start link) result seat.old.me.0, seat.old.me.1) }
        ensures next { 0 < result → LeadsOn seat.old.me.0.start seat.old.me.0.seen key (link_at seat.old.me.0.start link) result }
        ensures kept { IsKept seat.old.me.0.seen (link_at seat.old.me.0.start link) result }
    {
        self.follows::<Brand>(seat, link, key)
    }

    /// Draws a number: a node, or one past them. A seat that drew one past them adds 0.
    pub fn draw(&self, seat: &mut Seat, step: u64) -> u64
        requires seat { (seat.old.table_id ≡ self.now.table.shared.table_id) × (0 < seat.old.me.0.part) × (seat.old.me.0.start ≡ self.now.table.shared.key.start.value) }
        requires empty { seat.old.me.0.nodes ≡ [] }
        requires one { seat.old.me.0.mark ≡ 0 → step ≡ 1 }
        requires zero { 0 < seat.old.me.0.mark → step ≡ 0 }
        ensures seat { (seat.new.table_id ≡ seat.old.table_id) × (seat.new.id ≡ seat.old.id) }
        ensures node { result < self.now.nodes → seat.new.me ≡ (drew result seat.old.me.0, seat.old.me.1) }
        ensures past { self.now.nodes ≤ result → seat.new.me ≡ (past result seat.old.me.0, seat.old.me.1) }
    {
        let word = 5 * self.buckets + 2 * self.nodes;
        self.table.shared.fetch_add::<Draw>(seat, word, step)
    }

    /// Stores a key in the seat's last unlinked node.
    pub fn store(&self, seat: &mut Seat, node: usize, key: u64)
        requires key { key ≤ 2 ^ 48 }
        requires seat { (seat.old.table_id ≡ self.now.table.shared.table_id) × (0 < seat.old.me.0.part) × (seat.old.me.0.start ≡ self.now.table.shared.key.start.value) }
        requires low { node < self.now.nodes }
        requires node { (y : ℕ) × (ps : List (ℕ × ℕ)) × (seat.old.me.0.nodes ≡ (node, y) ∷ ps) }
        ensures seat { (seat.new.table_id ≡ seat.old.table_id) × (seat.new.id ≡ seat.old.id) }
        ensures view { seat.new.me ≡ (stored key seat.old.me.0, seat.old.me.1) }
    {
        let entry = 4 * self.buckets + node;
        self.table.shared.store::<Fill>(seat, entry, key)
    }

    fn hangs<K: Key>(&self, seat: &mut Seat, link: usize, node: usize, key: u64) -> u64
        requires key { (key ≡ K.key) × (0 < key) }
        requires seat { (seat.old.table_id ≡ self.now.table.shared.table_id) × (0 < seat.old.me.0.part) × (seat.old.me.0.start ≡ self.now.table.shared.key.start.value) }
        requires link { link < self.now.buckets + self.now.nodes }
        requires reached { IsNextLink seat.old.me.0.start seat.old.me.0.seen key link }
        requires low { node < self.now.nodes }
        requires node { (ps : List (ℕ × ℕ)) × (seat.old.me.0.nodes ≡ (node, key) ∷ ps) }
        ensures seat { (seat.new.table_id ≡ seat.old.table_id) × (seat.new.id ≡ seat.old.id) }
        ensures won { result ≡ 0 → seat.new.me ≡ (hung key (link_at seat.old.me.0.start link) node (4 * seat.old.me.0.start.buckets + node) seat.old.me.0, seat.old.me.1) }
        ensures lost { 0 < result → seat.new.me ≡ (saw (link_at seat.old.me.0.start link) result seat.old.me.0, seat.old.me.1) }
        ensures next { 0 < result → LeadsOn seat.old.me.0.start seat.old.me.0.seen key (link_at seat.old.me.0.start link) result }
        ensures kept { IsKept seat.old.me.0.seen (link_at seat.old.me.0.start link) result }
        ensures pair { result ≡ 0 → HasPair key (4 * seat.old.me.0.start.buckets + node) seat.new.me.0 }
    {
        let word = 4 * self.buckets + self.nodes + link;
        self.table
            .shared
            .compare_exchange::<Hang<K>>(seat, word, 0, node as u64 + 1)
    }

    /// Links the seat's last unlinked node, in which the key was stored, if the link is 0. The answer is
    /// what was found there.
    pub fn hang(&self, seat: &mut Seat, link: usize, node: usize, key: u64) -> u64
        requires key { 0 < key }
        requires seat { (seat.old.table_id ≡ self.now.table.shared.table_id) × (0 < seat.old.me.0.part) × (seat.old.me.0.start ≡ self.now.table.shared.key.start.value) }
        requires link { link < self.now.buckets + self.now.nodes }
        requires reached { IsNextLink seat.old.me.0.start seat.old.me.0.seen key link }
        requires low { node < self.now.nodes }
        requires node { (ps : List (ℕ × ℕ)) × (seat.old.me.0.nodes ≡ (node, key) ∷ ps) }
        ensures seat { (seat.new.table_id ≡ seat.old.table_id) × (seat.new.id ≡ seat.old.id) }
        ensures won { result ≡ 0 → seat.new.me ≡ (hung key (link_at seat.old.me.0.start link) node (4 * seat.old.me.0.start.buckets + node) seat.old.me.0, seat.old.me.1) }
        ensures lost { 0 < result → seat.new.me ≡ (saw (link_at seat.old.me.0.start link) result seat.old.me.0, seat.old.me.1) }
        ensures next { 0 < result → LeadsOn seat.old.me.0.start seat.old.me.0.seen key (link_at seat.old.me.0.start link) result }
        ensures kept { IsKept seat.old.me.0.seen (link_at seat.old.me.0.start link) result }
        ensures pair { result ≡ 0 → HasPair key (4 * seat.old.me.0.start.buckets + node) seat.new.me.0 }
    {
        self.hangs::<Brand>(seat, link, node, key)
    }

    fn cuts<K: Key>(&self, seat: &mut Seat, part: u32) -> Seat
        requires key { part ≡ K.key }
        requires seat { seat.old.table_id ≡ self.now.table.shared.table_id }
        requires part { (1 ≤ part) × (part < seat.old.me.0.part) }
        requires fresh { IsFresh seat.old.me.0 }
        ensures seat { (seat.new.table_id ≡ seat.old.table_id) × (seat.new.id ≡ seat.old.id) × (result.table_id ≡ seat.old.table_id) }
        ensures view { seat.new.me ≡ (cut_left part seat.old.me.0, seat.old.me.1) }
        ensures other { result.me ≡ (cut_right part seat.old.me.0, []) }
    {
        self.table.shared.split_seat::<Cut<K>>(seat)
    }

    /// A new seat with that part.
    pub fn split(&self, seat: &mut Seat, part: u32) -> Seat
        requires seat { seat.old.table_id ≡ self.now.table.shared.table_id }
        requires part { (1 ≤ part) × (part < seat.old.me.0.part) }
        requires fresh { IsFresh seat.old.me.0 }
        ensures seat { (seat.new.table_id ≡ seat.old.table_id) × (seat.new.id ≡ seat.old.id) × (result.table_id ≡ seat.old.table_id) }
        ensures view { seat.new.me ≡ (cut_left part seat.old.me.0, seat.old.me.1) }
        ensures other { result.me ≡ (cut_right part seat.old.me.0, []) }
    {
        self.cuts::<Brand>(seat, part)
    }

    /// Takes the other seat in.
    pub fn join(&self, seat: &mut Seat, other: Seat)
        requires seat { (seat.old.table_id ≡ self.now.table.shared.table_id) × (other.table_id ≡ self.now.table.shared.table_id) }
        requires part { (0 < seat.old.me.0.part) × (other.me.1 ≡ []) }
        ensures seat { (seat.new.table_id ≡ seat.old.table_id) × (seat.new.id ≡ seat.old.id) }
        ensures view { seat.new.me ≡ (both seat.old.me.0 other.me.0, seat.old.me.1) }
    {
        self.table.shared.join_seat::<Both>(seat, other);
    }

    /// Tells a seat the bounds of its part.
    pub fn weigh(&self, seat: &mut Seat)
        requires seat { seat.old.table_id ≡ self.now.table.shared.table_id }
        ensures seat { (seat.new.table_id ≡ seat.old.table_id) × (seat.new.id ≡ seat.old.id) × (seat.new.me ≡ seat.old.me) }
        ensures part { (seat.old.me.0.part ≤ 64) × (length seat.old.me.0.nodes ≤ seat.old.me.0.part) }
    {
        let _ = self.table.shared.load::<Weigh>(seat, 0);
    }
}
