ghost use Rattle.std.specs.Prelude.{◌≡◌, ◌≢◌, ◌<◌, ◌⊎◌, IsTrue, IfOk, Some, [], ◌∷◌};
ghost use Rattle.voxel_block.specs.declared.key.BlockKey.{BlockKey as BlockKeyOf};
ghost use Rattle.voxel_block.specs.Words.{key_of, key_with};
ghost use Rattle.band_walk.specs.Memos.{HasAdded, IsGrown, IsNoted};

use crate::side::RaisedKey;
use std::alloc::{AllocError, Global};
use std::marker::Model;
use voxel_block::BlockKey;

/// The number of words of a memo.
const WORDS: usize = 32768;

/// A memo of keys: some of those that were noted in it since it was emptied, and no other. A key that is noted takes the
/// place of the one that was noted in its slot before.
#[derive(Drop)]
pub struct Memo {
    words: Vec<u64>,
}

impl Model for Memo {
    ghost use Rattle.std.specs.Prelude.{◌≡◌, List, ℕ, length};

    ghost Value = { List ℕ };

    ghost view = { λ m. m.words.items };

    ghost invariant = { λ m. length m.words.items ≡ 32768 };
}

impl Memo {
    /// A memo in which nothing is noted, or out of memory.
    pub fn make(alloc: Global) -> Result<Memo, AllocError>
        ensures { IfOk result (λ m. (b : BlockKeyOf) → ¬ IsNoted m b) }
    {
        let words = vec![in alloc; 0; WORDS]?;
        Ok(Memo { words })
    }

    /// Empties the memo.
    pub fn clear(&mut self)
        ensures { (b : BlockKeyOf) → ¬ IsNoted self.new b }
    {
        self.words.as_mut_slice().fill(0);
    }

    /// Notes a key, and adds it to `keys`, unless the memo has noted it. Out of memory, both stay as they are.
    pub(crate) fn add(
        &mut self,
        block: RaisedKey,
        keys: &mut Vec<BlockKey>,
    ) -> Result<(), AllocError>
        ensures added { IfOk result (λ _. HasAdded (key_with block.x block.y block.z ∷ []) self.old keys.old.items self.new keys.new.items) }
        ensures grown { IsGrown self.old keys.old.items self.new keys.new.items }
    {
        let word = block.word();
        if self.has(word) {
            return Ok(());
        }
        keys.push(block.key())?;
        self.note(word);
        Ok(())
    }

    /// Whether the memo has noted a key, by its word.
    fn has(&self, word: u64) -> bool
        ensures { (b : BlockKeyOf) → IsTrue result → key_of word ≡ Some b → IsNoted self.now b }
    {
        self.words[slot(word)] == word
    }

    fn note(&mut self, word: u64)
        ensures { (b : BlockKeyOf) → IsNoted self.new b → IsNoted self.old b ⊎ (key_of word ≡ Some b) }
    {
        self.words[slot(word)] = word;
    }
}

/// The slot of a key's word. The blocks of a box of 64 by 32 by 16 have slots of their own.
fn slot(word: u64) -> usize
    ensures { result < 32768 }
{
    let (x, y, z) = (word >> 32, word >> 16, word);
    (x % 64 + 64 * (y % 32) + 2048 * (z % 16)) as usize
}
