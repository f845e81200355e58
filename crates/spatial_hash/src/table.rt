ghost use Rattle.std.specs.Prelude.{◌≡◌, ◌+◌, ◌*◌, ◌<◌, ◌≤◌, slice_index, slice_set, IfOk, IfSome, MatchOption, Some, None, map};
ghost use Rattle.std.specs.FinMap.{get, insert, from_entries, len, empty as no_keys, entries as listed};
ghost use Rattle.std.specs.List.{IsDistinct};
ghost use Rattle.std.specs.List.Sorted.{IsStrictlySortedBy};
ghost use Rattle.std.specs.Int.{IsPowerOfTwo};

use crate::lookup::Lookup;
use std::alloc::{AllocError, Global};
use std::marker::Model;
use voxel_block::{BlockKey, NoMemory};

mod inserting;
mod removing;
mod seeking;

/// A map from keys to cell numbers, with `u32::MAX` for no cell.
///
/// A key belongs to the bucket of its hash. A bucket has four entries, and a chain of nodes where these are
/// filled. The buckets share the nodes, and each node is one more entry: entry i of bucket h has the number
/// 4h + i, and node n has the number 4 * buckets + n. The walk of a bucket goes over its entries and then
/// over its chain. In a bucket the filled entries come first, and the linked nodes are those with the lowest
/// numbers.
///
/// The hash is the exclusive or of three multiplied coordinates (Nießner, Zollhöfer, Izadi and
/// Stamminger 2013). Its factors, each product modulo 2^32, four entries a bucket, and a power of two of
/// buckets are this project's own.
#[derive(Drop)]
pub struct HashTable {
    buckets: usize,
    nodes: usize,
    /// The nodes that are linked, each of which has a key.
    linked: usize,
    /// The key word of each entry, 0 where it is free, and then the link of each bucket and of each node,
    /// 0 for none, else the node's number plus 1.
    words: Vec<u64>,
    /// The cell of each entry.
    cells: Vec<u32>,
}

impl Model for HashTable {
    ghost use Rattle.spatial_hash.specs.Table.{Table};

    ghost Value = { Table };

    ghost use Rattle.spatial_hash.specs.View.{table_view};
    ghost use Rattle.spatial_hash.specs.Sound.{IsSound};

    ghost view = { table_view };

    ghost invariant = { λ t. IsSound (table_view t) };
}

impl HashTable {
    ghost use Rattle.spatial_hash.specs.Table.{empty_table, entries_in, key_word};
    ghost use Rattle.spatial_hash.specs.Walk.{entry_of};
    ghost use Rattle.spatial_hash.specs.Contents.{contents, pairs_from, tied, IsKeyAt};
    ghost use Rattle.spatial_hash.specs.Sound.{IsSound};
    ghost use Rattle.voxel_block.specs.Keys.{key_cmp};

    /// A table with no key.
    pub fn make(alloc: Global, buckets: u32, nodes: u32) -> Result<HashTable, NoMemory>
        requires power { IsPowerOfTwo buckets }
        requires buckets { buckets ≤ 65536 }
        requires nodes { nodes ≤ 1000000 }
        ensures table { IfOk result (λ t. t ≡ empty_table buckets nodes) }
        ensures map { IfOk result (λ t. contents t ≡ no_keys) }
    {
        let buckets = buckets as usize;
        let nodes = nodes as usize;
        let words = Vec::from_elem(alloc, 0, 5 * buckets + 2 * nodes)?;
        let cells = Vec::from_elem(alloc, u32::MAX, 4 * buckets + nodes)?;
        Ok(HashTable {
            buckets,
            nodes,
            linked: 0,
            words,
            cells,
        })
    }

    /// A table of the same size with no key.
    pub fn cleared(&self, alloc: Global) -> Result<HashTable, NoMemory>
        ensures table { IfOk result (λ t. t ≡ empty_table self.now.buckets self.now.nodes) }
        ensures map { IfOk result (λ t. contents t ≡ no_keys) }
    {
        let words = Vec::from_elem(alloc, 0, 5 * self.buckets + 2 * self.nodes)?;
        let cells = Vec::from_elem(alloc, u32::MAX, 4 * self.buckets + self.nodes)?;
        Ok(HashTable {
            buckets: self.buckets,
            nodes: self.nodes,
            linked: 0,
            words,
            cells,
        })
    }

    /// Makes the table a copy of another one of the same size. Takes no memory.
    pub fn copy_from(&mut self, other: &HashTable)
        requires buckets { self.old.buckets ≡ other.now.buckets }
        requires nodes { self.old.nodes ≡ other.now.nodes }
        ensures { self.new ≡ other.now }
    {
        self.linked = other.linked;
        self.words.copy_from_slice(&other.words);
        self.cells.copy_from_slice(&other.cells);
    }

    /// The entry of a key. `None` where the table does not have the key.
    #[tactic(auto, unfolding(crate::specs::Walk::entry_of))]
    pub fn find(&self, key: BlockKey) -> Option<u32>
        ensures entry { result ≡ entry_of self.now key }
        ensures cell { MatchOption result (get (contents self.now) key ≡ None) (λ e. get (contents self.now) key ≡ Some (slice_index self.now.cells e)) }
        ensures key { IfSome result (λ e. IsKeyAt self.now key e) }
    {
        match self.seek(key) {
            Lookup::Found(entry) => Some(entry as u32),
            Lookup::Vacant(_) | Lookup::ChainEnd(_) => None,
        }
    }

    /// All keys with their cells, in order of keys.
    pub fn entries(&self, alloc: Global) -> Result<Vec<(BlockKey, u32)>, NoMemory>
        ensures list { IfOk result (λ v. v.items ≡ listed (contents self.now)) }
        ensures order { IfOk result (λ v. IsStrictlySortedBy key_cmp (map (λ p. p.0) v.items)) }
        ensures map { IfOk result (λ v. from_entries v.items ≡ contents self.now) }
    {
        let mut pairs = self.pairs(alloc)?;
        pairs.sort()?;
        Ok(pairs)
    }

    /// All keys with their cells, in order of entries.
    fn pairs(&self, alloc: Global) -> Result<Vec<(BlockKey, u32)>, AllocError>
        ensures pairs { IfOk result (λ v. v.items ≡ pairs_from (entries_in self.now) self.now 0) }
        ensures distinct { IfOk result (λ v. IsDistinct tied v.items) }
    {
        let mut pairs = Vec::new(alloc);
        for entry in 0..4 * self.buckets + self.nodes {
            if let Some(key) = BlockKey::of_word(self.words[entry]) {
                pairs.push((key, self.cells[entry]))?;
            }
        }
        Ok(pairs)
    }

    /// The cell of entry `e`.
    pub fn cell_at(&self, e: u32) -> u32
        requires { e < 4 * self.now.buckets + self.now.nodes }
        ensures { result ≡ slice_index self.now.cells e }
    {
        self.cells[e as usize]
    }

    /// Sets the cell of a filled entry.
    pub fn set_cell(&mut self, e: u32, cell: u32)
        requires low { e < entries_in self.old }
        requires filled { 0 < key_word self.old e }
        ensures table { self.new ≡ record self.old { cells = slice_set self.old.cells e cell } }
        ensures map { (k : BlockKey) → IsKeyAt self.old k e → contents self.new ≡ insert (contents self.old) k cell }
        ensures entries { (k : BlockKey) → entry_of self.new k ≡ entry_of self.old k }
    {
        self.cells[e as usize] = cell;
    }

    /// The number of buckets.
    pub fn buckets(&self) -> u32
        ensures { result ≡ self.now.buckets }
    {
        self.buckets as u32
    }

    /// The number of nodes.
    pub fn nodes(&self) -> u32
        ensures { result ≡ self.now.nodes }
    {
        self.nodes as u32
    }

    /// The number of linked nodes, each of which has a key.
    pub fn linked(&self) -> u32
        ensures value { result ≡ self.now.linked }
        ensures sound { IsSound self.now }
        ensures keys { result ≤ len (contents self.now) }
    {
        self.linked as u32
    }

    /// Word `w` of the table. The words are the key word of each entry, 0 where it is free, and then the link
    /// of each bucket and of each node, 0 for none, else the node's number plus 1.
    pub fn word_at(&self, w: u32) -> u64
        requires { w < 5 * self.now.buckets + 2 * self.now.nodes }
        ensures { result ≡ slice_index self.now.words w }
    {
        self.words[w as usize]
    }
}
