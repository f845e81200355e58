//! Theorems on their own. A law is a clause of a public function, since only what a clause states is
//! proved.

ghost use Rattle.std.specs.Prelude.{◌≡◌, ◌≤◌, All, Ok};
ghost use Rattle.voxel_block.specs.Keys.{key_cmp};

use crate::{BadPacked, Block, BlockKey, Packed, pack_into, unpack_into};
use std::cmp::Ordering;

/// The derived order of keys is that of the definitions: by x, then y, then z.
pub fn order_of_keys(a: BlockKey, b: BlockKey) -> Ordering
    ensures { result ≡ key_cmp a b }
{
    a.cmp(&b)
}

/// A block that is packed and then unpacked is the same block, with the same key, where no weight is
/// above the greatest.
pub fn packed_and_unpacked(
    block: &Block,
    key: BlockKey,
    max_weight: u8,
    form: &mut Packed,
    out: &mut Block,
) -> Result<BlockKey, BadPacked>
    requires { All (λ v. v.w ≤ max_weight) block.now }
    ensures key { result ≡ Ok key }
    ensures voxels { out.new ≡ block.now }
{
    pack_into(block, key, form);
    unpack_into(form, max_weight, out)
}
