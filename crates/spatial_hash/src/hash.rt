ghost use Rattle.std.specs.Prelude.{◌≡◌, ◌<◌};
ghost use Rattle.spatial_hash.specs.Hash.{hash_axis as hash_axis_of, bucket_of};

use voxel_block::BlockKey;

/// The factors of the hash, one for each axis.
const X_FACTOR: i32 = 73856093;

const Y_FACTOR: i32 = 19349669;

const Z_FACTOR: i32 = 83492791;

/// The bucket of a key in a table of this many buckets.
///
/// Each coordinate times its axis's factor, modulo 2^32, the three products by exclusive or, and of that the
/// remainder by the number of buckets.
pub fn bucket(buckets: usize, key: BlockKey) -> usize
    requires { 0 < buckets }
    ensures value { result ≡ bucket_of buckets key }
    ensures bound { result < buckets }
{
    let hash = hash_axis(key.x, X_FACTOR) ^ hash_axis(key.y, Y_FACTOR) ^ hash_axis(key.z, Z_FACTOR);
    hash as usize % buckets
}

/// What one axis adds to the hash: the coordinate times the factor, modulo 2^32.
fn hash_axis(a: i16, factor: i32) -> u32
    ensures { result ≡ hash_axis_of a factor }
{
    i32::from(a).wrapping_mul(factor).cast_unsigned()
}
