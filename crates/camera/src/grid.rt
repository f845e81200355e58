ghost use Rattle.std.specs.Prelude.{◌≡◌, ◌^◌, ◌<◌, pos, ◌+ℤ◌, ◌*ℤ◌, ◌≤ℤ◌, Some, None, IfSome, if◌then◌else◌};
ghost use Rattle.fixed_geom.specs.Vectors.{AreWithin, IsWithin};
ghost use Rattle.camera.specs.Grid.{centre_of, chunk_centre as chunk_centre_of, point_of, block, fits_key, as_key, key_at, nearest as nearest_of, nearest_voxel as nearest_voxel_of, nearest_axis as nearest_axis_of, block_of_voxel as block_of_voxel_of, index_of_voxel as index_of_voxel_of, offset_axis as offset_axis_of, voxel_coordinates};

use fixed_geom::Vec3;
use voxel_block::{BlockKey, ChunkKey};

/// The world point of voxel `i` of a block, in micrometres, where a voxel has the size `size`.
pub fn voxel_point(size: i64, key: BlockKey, i: u16) -> Vec3
    requires size { IsWithin (pos 100000) size }
    requires index { i < 512 }
    ensures value { result ≡ point_of size key i }
    ensures bound { AreWithin (pos (2 ^ 40)) result }
{
    Vec3 {
        x: coordinate(size, key.x, i % 8),
        y: coordinate(size, key.y, i / 8 % 8),
        z: coordinate(size, key.z, i / 64),
    }
}

/// The centre of a block, in micrometres.
pub fn block_centre(size: i64, key: BlockKey) -> Vec3
    requires { IsWithin (pos 100000) size }
    ensures value { result ≡ centre_of size key }
    ensures bound { AreWithin (pos (2 ^ 40)) result }
{
    Vec3 {
        x: coordinate(size, key.x, 4),
        y: coordinate(size, key.y, 4),
        z: coordinate(size, key.z, 4),
    }
}

/// The centre of a chunk, in micrometres.
pub fn chunk_centre(size: i64, chunk: ChunkKey) -> Vec3
    requires { IsWithin (pos 100000) size }
    ensures value { result ≡ chunk_centre_of size chunk }
    ensures bound { AreWithin (pos (2 ^ 40)) result }
{
    Vec3 {
        x: chunk_coordinate(size, chunk.x),
        y: chunk_coordinate(size, chunk.y),
        z: chunk_coordinate(size, chunk.z),
    }
}

/// The block that a point lies in. `None` where a coordinate of the block does not fit 16 bits.
pub fn block_of(size: i64, p: Vec3) -> Option<BlockKey>
    requires size { pos 1 ≤ℤ size }
    requires size_high { size ≤ℤ pos 100000 }
    requires p { AreWithin (pos (2 ^ 40)) p }
    ensures { result ≡ key_at size p }
{
    let length = 8 * size;
    key(
        p.x.div_euclid(length),
        p.y.div_euclid(length),
        p.z.div_euclid(length),
    )
}

/// The voxel nearest to a point, by its block and its voxel index. `None` where a coordinate of the block does not fit
/// 16 bits.
pub fn nearest(size: i64, p: Vec3) -> Option<(BlockKey, u16)>
    requires size { pos 1 ≤ℤ size }
    requires size_high { size ≤ℤ pos 100000 }
    requires p { AreWithin (pos (2 ^ 40)) p }
    ensures value { result ≡ nearest_of size p }
    ensures voxel { IfSome result (λ n. (n.1 < 512) × (voxel_coordinates n.0 n.1 ≡ nearest_voxel_of size p)) }
{
    let voxel = nearest_voxel(size, p);
    let block = block_of_voxel(voxel)?;
    Some((block, index_of_voxel(voxel)))
}

/// The block with these coordinates. `None` where one of them does not fit 16 bits.
fn key(x: i64, y: i64, z: i64) -> Option<BlockKey>
    ensures { result ≡ as_key (block x y z) }
{
    Some(BlockKey {
        x: key_axis(x)?,
        y: key_axis(y)?,
        z: key_axis(z)?,
    })
}

/// A coordinate of a block as a key has it. `None` where it does not fit 16 bits.
fn key_axis(coordinate: i64) -> Option<i16>
    ensures { result ≡ (if fits_key coordinate then Some coordinate else None) }
{
    i16::try_from(coordinate).ok()
}

/// The coordinates, in voxels, of the voxel nearest to a point.
fn nearest_voxel(size: i64, p: Vec3) -> Vec3
    requires size { pos 1 ≤ℤ size }
    requires size_high { size ≤ℤ pos 100000 }
    requires p { AreWithin (pos (2 ^ 40)) p }
    ensures { result ≡ nearest_voxel_of size p }
{
    Vec3 {
        x: nearest_axis(size, p.x),
        y: nearest_axis(size, p.y),
        z: nearest_axis(size, p.z),
    }
}

/// The voxel coordinate nearest to a coordinate of a point, the greater one of two.
fn nearest_axis(size: i64, p: i64) -> i64
    requires size { pos 1 ≤ℤ size }
    requires size_high { size ≤ℤ pos 100000 }
    requires p { IsWithin (pos (2 ^ 40)) p }
    ensures { result ≡ nearest_axis_of size p }
{
    (2 * p + size).div_euclid(2 * size)
}

/// The block that has the voxel of these coordinates. `None` where a coordinate of the block does not fit 16 bits.
fn block_of_voxel(voxel: Vec3) -> Option<BlockKey>
    ensures { result ≡ as_key (block_of_voxel_of voxel) }
{
    key(
        voxel.x.div_euclid(8),
        voxel.y.div_euclid(8),
        voxel.z.div_euclid(8),
    )
}

/// The index of that voxel in its block: x runs fastest, then y, then z.
fn index_of_voxel(voxel: Vec3) -> u16
    ensures value { result ≡ index_of_voxel_of voxel }
    ensures bound { result < 512 }
{
    offset_axis(voxel.x) + 8 * offset_axis(voxel.y) + 64 * offset_axis(voxel.z)
}

/// The offset of a voxel coordinate in its block.
fn offset_axis(coordinate: i64) -> u16
    ensures value { result ≡ offset_axis_of coordinate }
    ensures bound { result < 8 }
{
    coordinate.rem_euclid(8) as u16
}

/// A coordinate of a voxel's point, by the block's coordinate and the voxel's offset in the block.
fn coordinate(size: i64, block: i16, offset: u16) -> i64
    requires size { IsWithin (pos 100000) size }
    requires offset { offset < 8 }
    ensures value { result ≡ (pos 8 *ℤ block +ℤ pos offset) *ℤ size }
    ensures bound { IsWithin (pos (2 ^ 40)) result }
{
    (8 * i64::from(block) + i64::from(offset)) * size
}

/// A coordinate of a chunk's centre.
fn chunk_coordinate(size: i64, chunk: i16) -> i64
    requires { IsWithin (pos 100000) size }
    ensures value { result ≡ (pos 64 *ℤ chunk +ℤ pos 32) *ℤ size }
    ensures bound { IsWithin (pos (2 ^ 40)) result }
{
    (64 * i64::from(chunk) + 32) * size
}
