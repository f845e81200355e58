ghost use Rattle.std.specs.Prelude.{◌≡◌, ◌↔◌, ◌<◌, ◌≤◌, ◌+◌, ◌*◌, length, IsTrue};
ghost use Rattle.spatial_hash.specs.Hash.{home};
ghost use Rattle.fusion_core.specs.TouchWords.{counter_at, shown, Passes};
ghost use Rattle.fusion_core.specs.TouchSteps.{IsNext};
ghost use Rattle.fusion_core.specs.TouchNext.{sized, IsSize, IsOnChain, IsShort};

use super::Seat;
use crate::touch::bucket::home_bucket;
use crate::touch::size::Size;

impl Seat {
    /// Whether a word is the next one on the seat's walk, for the key with a word, in a table of this size.
    pub(in crate::touch) fn is_next(&self, table: Size, key: u64, word: usize) -> bool
        requires size { IsSize table }
        requires wide { length self.now.seat.seen ≡ counter_at (sized table.buckets table.nodes) + 1 }
        requires short { IsShort (sized table.buckets table.nodes) self.now.seat.seen key }
        ensures { IsTrue result ↔ IsNext (sized table.buckets table.nodes) self.now.seat.seen key word }
    {
        let bucket = home_bucket(table.buckets, key);
        for i in 0..4 {
            let entry = 4 * bucket + i;
            if entry == word {
                return true;
            }
            if !self.passes(entry, key) {
                return false;
            }
        }
        self.is_next_in_chain(table, bucket, key, word)
    }

    /// Whether a word is the next one on the chain of a bucket.
    fn is_next_in_chain(&self, table: Size, bucket: usize, key: u64, word: usize) -> bool
        requires size { IsSize table }
        requires bucket { bucket ≡ home table.buckets key }
        requires wide { length self.now.seat.seen ≡ counter_at (sized table.buckets table.nodes) + 1 }
        requires short { IsShort (sized table.buckets table.nodes) self.now.seat.seen key }
        ensures { IsTrue result ↔ IsOnChain (sized table.buckets table.nodes) self.now.seat.seen key bucket word }
    {
        let Size { buckets, nodes } = table;
        let mut link = bucket;
        for _ in 0..nodes {
            let at = 4 * buckets + nodes + link;
            if at == word {
                return true;
            }
            let next = self.seen_at(at);
            if next == 0 {
                return false;
            }
            let node = next as usize - 1;
            let entry = 4 * buckets + node;
            if entry == word {
                return true;
            }
            if !self.passes(entry, key) {
                return false;
            }
            link = buckets + node;
        }
        4 * buckets + nodes + link == word
    }
}
