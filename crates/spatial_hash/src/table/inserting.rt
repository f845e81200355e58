ghost use Rattle.std.specs.Prelude.{◌≡◌, ◌+◌, ◌*◌, ◌<◌, ◌≤◌, slice_index, IfOk, OnOk, OnErr, Some, None, ◌↔◌, if◌then◌else◌};
ghost use Rattle.std.specs.Result.{IsErr, is_ok};
ghost use Rattle.std.specs.FinMap.{get, insert, len};

use super::HashTable;
use crate::full::Full;
use crate::lookup::Lookup;
use voxel_block::BlockKey;

impl HashTable {
    ghost use Rattle.spatial_hash.specs.Hash.{home, bucket_of};
    ghost use Rattle.voxel_block.specs.Words.{word_of};
    ghost use Rattle.spatial_hash.specs.Changes.{written, extended};
    ghost use Rattle.spatial_hash.specs.Walk.{entry_of, IsFilled, IsFullFor, StaysPut, nodes_for};
    ghost use Rattle.spatial_hash.specs.Contents.{contents, IsKeyAt};
    ghost use Rattle.spatial_hash.specs.Sound.{EndsAt};
    ghost use Rattle.spatial_hash.specs.Lookup.{IsFreeAt, IsNew, Puts};
    ghost use Rattle.spatial_hash.specs.Table.{KeepsSize};

    /// Inserts a new key with its cell, and returns the key's entry.
    ///
    /// After an error the table is as before. There is none while the table has fewer keys than nodes.
    pub fn insert(&mut self, key: BlockKey, cell: u32) -> Result<u32, Full>
        requires { get (contents self.old) key ≡ None }
        ensures full { IsErr result ↔ IsFullFor self.old key }
        ensures err { OnErr result (self.new ≡ self.old) }
        ensures many { OnErr result (self.old.nodes ≤ len (contents self.old)) }
        ensures map { OnOk result (contents self.new ≡ insert (contents self.old) key cell) }
        ensures entry { IfOk result (λ e. entry_of self.new key ≡ Some e) }
        ensures key { IfOk result (λ e. IsKeyAt self.new key e) }
        ensures cell { IfOk result (λ e. slice_index self.new.cells e ≡ cell) }
        ensures others { StaysPut self.old self.new key }
        ensures puts { IfOk result (λ e. Puts self.old self.new (word_of key) (bucket_of self.old.buckets key) e) }
        ensures size { KeepsSize self.old self.new }
        ensures count { self.new.linked ≡ self.old.linked + (if is_ok result then nodes_for self.old key else 0) }
    {
        let word = key.word();
        match self.seek(key) {
            Lookup::Found(_) => unreachable!(),
            Lookup::Vacant(entry) => {
                self.fill(entry, word, cell);
                Ok(entry as u32)
            }
            Lookup::ChainEnd(link) => {
                if self.linked == self.nodes {
                    return Err(Full);
                }
                let entry = self.extend(link, word, cell);
                Ok(entry as u32)
            }
        }
    }

    /// Writes a key and its cell to a free entry of its bucket.
    fn fill(&mut self, entry: usize, word: u64, cell: u32)
        requires new { IsNew self.old word }
        requires free { IsFreeAt self.old (home self.old.buckets word) entry }
        ensures { self.new ≡ written self.old entry word cell }
    {
        self.words[entry] = word;
        self.cells[entry] = cell;
    }

    /// Writes a key and its cell to the first unlinked node, and links this at the end of a chain.
    fn extend(&mut self, link: usize, word: u64, cell: u32) -> usize
        requires new { IsNew self.old word }
        requires filled { IsFilled self.old (home self.old.buckets word) }
        requires last { EndsAt self.old (home self.old.buckets word) link }
        requires room { self.old.linked < self.old.nodes }
        ensures table { self.new ≡ extended self.old link word cell }
        ensures entry { result ≡ 4 * self.old.buckets + self.old.linked }
    {
        let entry = 4 * self.buckets + self.linked;
        self.words[entry] = word;
        self.cells[entry] = cell;
        self.linked += 1;
        self.words[4 * self.buckets + self.nodes + link] = self.linked as u64;
        entry
    }
}
