ghost use Rattle.std.specs.Prelude.{◌≡◌, ◌<◌};
ghost use Rattle.spatial_hash.specs.Hash.{home};

use spatial_hash::bucket;
use voxel_block::BlockKey;

/// The bucket of the key with this word, and 0 where no key has it.
pub(super) fn home_bucket(buckets: usize, word: u64) -> usize
    requires { 0 < buckets }
    ensures value { result ≡ home buckets word }
    ensures bound { result < buckets }
{
    match BlockKey::of_word(word) {
        Some(key) => bucket(buckets, key),
        None => 0,
    }
}
