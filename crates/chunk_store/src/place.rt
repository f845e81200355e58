ghost use Rattle.std.specs.Prelude.{◌≡◌, ◌<◌, Some};
ghost use Rattle.voxel_block.specs.Words.{key_of, word_of};
ghost use Rattle.chunk_store.specs.Rows.{IsShort, offset_of, place_of as place_in_row};

use voxel_block::BlockKey;

// The place of a key in the row of its chunk, so that the order of places is that of keys.
pub(crate) fn place_of(key: BlockKey) -> usize
    ensures value { result ≡ place_in_row key }
    ensures low { result < 512 }
    ensures short { key_of (word_of key) ≡ Some key }
{
    offset_in_chunk(key.x) * 64 + offset_in_chunk(key.y) * 8 + offset_in_chunk(key.z)
}

// Where a coordinate lies in its chunk.
fn offset_in_chunk(coordinate: i16) -> usize
    ensures value { result ≡ offset_of coordinate }
    ensures low { result < 8 }
    ensures short { IsShort coordinate }
{
    coordinate.rem_euclid(8) as usize
}
