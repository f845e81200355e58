ghost use Rattle.std.specs.Prelude.{◌≡◌, ℕ, ◌-◌, ◌<◌, ◌≤◌, ◌^◌, Some, None, true, false};
ghost use Rattle.std.specs.FinMap.{get};
ghost use Rattle.voxel_block.specs.declared.key.BlockKey.{BlockKey};
ghost use Rattle.voxel_block.specs.Words.{key_of};
ghost use Rattle.spatial_hash.specs.Contents.{contents};
ghost use Rattle.spatial_hash.specs.Walk.{IsFullFor};
ghost use Rattle.fusion_core.specs.TouchCounts.{times};
ghost use Rattle.hash_share.specs.Refill.{IsPutBack};

use crate::spares::Spares;
use spatial_hash::{Full, HashTable};
use voxel_block::BlockKey;

/// Puts the key with this word and its cell into the table, unless its entry is a spare node's.
pub fn put_back(table: &mut HashTable, word: u64, cell: u32, spare: bool)
    requires named { word ≤ 2 ^ 48 }
    requires ready { spare ≡ false → 0 < word → (k : BlockKey) → key_of word ≡ Some k → (get (contents table.old) k ≡ None) × (IsFullFor table.old k → ⊥) }
    ensures { IsPutBack table.old table.new word cell spare }
{
    if spare {
        return;
    }
    if let Some(key) = BlockKey::of_word(word) {
        match table.insert(key, cell) {
            Ok(_) => {}
            Err(Full) => unreachable!(),
        }
    }
}

/// Entry `e` is that of one of these nodes, behind so many entries of buckets.
pub fn is_spare(spares: &Spares, e: usize, entries: usize) -> bool
    ensures yes { result ≡ true → (entries ≤ e) × (0 < times (e - entries) spares.now) }
    ensures no { result ≡ false → entries ≤ e → times (e - entries) spares.now ≡ 0 }
{
    if e < entries {
        return false;
    }
    spares.has(e - entries)
}
