ghost use Rattle.std.specs.Prelude.{◌≡◌, ◌<◌, ◌≤◌, ◌↔◌, List, Ok, Some, All, IfErr, IfOk, IsTrue, MatchOption, OnErr, OnOk, length, slice_get};
ghost use Rattle.voxel_block.specs.Packing.{packed, key_in, voxels_in, IsAllowed, IsBlock, IsFirstBad, IsKey};
ghost use Rattle.voxel_block.specs.Voxels.{IsVoxel};

use crate::{Block, BlockKey, Packed, Voxel};
use std::fmt;

/// Some voxel of a packed block is not allowed.
#[derive(Clone, Copy, Debug, PartialEq, Eq)]
pub struct BadPacked {
    /// The least index of such a voxel.
    pub voxel: u16,
}

impl fmt::Display for BadPacked {
    fn fmt<W: fmt::Write>(&self, f: &mut fmt::Formatter<W>) -> fmt::Result {
        let voxel = self.voxel;
        write!(f, "voxel {voxel} of a packed block is not allowed")
    }
}

/// Reads a packed block into `out`, and returns its key. Takes no memory.
///
/// Refused where the distance of some voxel is -32768, where a voxel without weight has another
/// distance than 32767, and where a weight is above `max_weight`. A refusal leaves `out` as it was.
pub fn unpack_into(from: &Packed, max_weight: u8, out: &mut Block) -> Result<BlockKey, BadPacked>
    ensures key { IfOk result (λ k. k ≡ key_in from.now) }
    ensures voxels { OnOk result (out.new ≡ voxels_in from.now) }
    ensures allowed { OnOk result (All (IsAllowed max_weight) out.new) }
    ensures form { IfOk result (λ k. packed k out.new ≡ from.now) }
    ensures bad { IfErr result (λ e. IsFirstBad max_weight (voxels_in from.now) e.voxel) }
    ensures index { IfErr result (λ e. e.voxel < 512) }
    ensures unchanged { OnErr result (out.new ≡ out.old) }
    ensures back { (k : BlockKey) (vs : List Voxel) → IsKey k → IsBlock vs → All (λ v. v.w ≤ max_weight) vs
        → from.now ≡ packed k vs → (result ≡ Ok k) × (out.new ≡ vs) }
{
    let bytes = from.bytes();
    match first_bad(bytes, max_weight) {
        Some(voxel) => Err(BadPacked { voxel }),
        None => {
            fill(bytes, out);
            Ok(key_of(bytes))
        }
    }
}

// The key that the bytes state.
fn key_of(bytes: &[u8]) -> BlockKey
    requires { length bytes.now ≡ 1542 }
    ensures { result ≡ key_in bytes.now }
{
    BlockKey {
        x: i16::from_be_bytes([bytes[0], bytes[1]]),
        y: i16::from_be_bytes([bytes[2], bytes[3]]),
        z: i16::from_be_bytes([bytes[4], bytes[5]]),
    }
}

// The voxel of this index that the bytes state.
pub(crate) fn voxel_at(bytes: &[u8], i: u16) -> Voxel
    requires len { length bytes.now ≡ 1542 }
    requires index { i < 512 }
    ensures { slice_get (voxels_in bytes.now) i ≡ Some result }
{
    let at = 6 + 3 * i as usize;
    let f = i16::from_be_bytes([bytes[at], bytes[at + 1]]);
    let w = bytes[at + 2];
    Voxel { f, w }
}

fn is_allowed(voxel: Voxel, max_weight: u8) -> bool
    ensures { IsTrue result ↔ IsAllowed max_weight voxel }
{
    voxel.f != i16::MIN && (voxel.w != 0 || voxel.f == 32767) && voxel.w <= max_weight
}

// The least index of a voxel that is not allowed.
fn first_bad(bytes: &[u8], max_weight: u8) -> Option<u16>
    requires { length bytes.now ≡ 1542 }
    ensures { MatchOption result (All (IsAllowed max_weight) (voxels_in bytes.now))
        (IsFirstBad max_weight (voxels_in bytes.now)) }
{
    for i in 0..512_u16 {
        if !is_allowed(voxel_at(bytes, i), max_weight) {
            return Some(i);
        }
    }
    None
}

// Makes a block of the voxels that the bytes state.
fn fill(bytes: &[u8], out: &mut Block)
    requires len { length bytes.now ≡ 1542 }
    requires voxels { All IsVoxel (voxels_in bytes.now) }
    ensures { out.new ≡ voxels_in bytes.now }
{
    for i in 0..out.len() as u16 {
        out.set(i, voxel_at(bytes, i));
    }
}
