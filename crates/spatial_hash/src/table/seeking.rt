ghost use Rattle.std.specs.Prelude.{◌≡◌, ◌^◌, ◌<◌};
ghost use Rattle.std.specs.Option.{IsSome};

use super::HashTable;
use crate::hash::bucket;
use crate::lookup::Lookup;
use voxel_block::BlockKey;

impl HashTable {
    ghost use Rattle.spatial_hash.specs.Hash.{bucket_of, home};
    ghost use Rattle.spatial_hash.specs.Table.{entries_in};
    ghost use Rattle.spatial_hash.specs.Lookup.{IsLookup, IsChainLookup, IsCellAt};
    ghost use Rattle.voxel_block.specs.Words.{word_of, key_of};

    /// Looks a key up in its bucket and the bucket's chain.
    pub(super) fn seek(&self, key: BlockKey) -> Lookup
        ensures lookup { IsLookup self.now (word_of key) (bucket_of self.now.buckets key) result }
        ensures cell { IsCellAt self.now key result }
        ensures small { entries_in self.now < 2 ^ 32 }
    {
        let word = key.word();
        let bucket = self.bucket(key);
        for i in 0..4 {
            let entry = 4 * bucket + i;
            let stored = self.words[entry];
            if stored == word {
                return Lookup::Found(entry);
            }
            if stored == 0 {
                return Lookup::Vacant(entry);
            }
        }
        self.seek_chain(word, bucket)
    }

    /// Looks a key word up in the chain of a bucket.
    fn seek_chain(&self, word: u64, bucket: usize) -> Lookup
        requires { bucket < self.now.buckets }
        ensures { IsChainLookup self.now word bucket result }
    {
        let mut link = bucket;
        for _ in 0..self.linked {
            let next = self.words[4 * self.buckets + self.nodes + link];
            if next == 0 {
                return Lookup::ChainEnd(link);
            }
            let node = next as usize - 1;
            let entry = 4 * self.buckets + node;
            if self.words[entry] == word {
                return Lookup::Found(entry);
            }
            link = self.buckets + node;
        }
        Lookup::ChainEnd(link)
    }

    /// The bucket of the key with this word.
    pub(super) fn home(&self, word: u64) -> usize
        requires { IsSome (key_of word) }
        ensures value { result ≡ home self.now.buckets word }
        ensures bound { result < self.now.buckets }
    {
        match BlockKey::of_word(word) {
            Some(key) => self.bucket(key),
            None => unreachable!(),
        }
    }

    /// The bucket of a key.
    pub(super) fn bucket(&self, key: BlockKey) -> usize
        ensures value { result ≡ bucket_of self.now.buckets key }
        ensures bound { result < self.now.buckets }
    {
        bucket(self.buckets, key)
    }
}
