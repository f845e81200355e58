ghost use Rattle.std.specs.Prelude.{◌≡◌, ◌<◌, Some, length, slice_get, IfOk, replicate};
ghost use Rattle.std.specs.List.{flat_map};
ghost use Rattle.voxel_block.specs.Packing.{packed, key_bytes, voxel_bytes, voxels_in, IsBlock, IsKey};

use crate::unpack::voxel_at;
use crate::{Block, BlockKey, NoMemory, Voxel};
use byteorder::{BigEndian, ByteOrder};
use std::alloc::Global;
use std::marker::Model;

/// The bytes of a block in packed form: its key, then its 512 voxels.
#[derive(Drop)]
pub struct Packed {
    bytes: Box<[u8; 1542]>,
}

impl Model for Packed {
    ghost use Rattle.std.specs.Prelude.{◌≡◌, ℕ, List, length};
    ghost use Rattle.std.specs.Coded.{coded_list, coded_ℕ};

    ghost Value = { List ℕ };

    ghost coded = { coded_list coded_ℕ };

    ghost view = { λ p. p.bytes.value };

    ghost invariant = { λ p. length p.bytes.value ≡ 1542 };
}

impl Packed {
    /// 1542 bytes of 0, which are no block's. Takes the memory of the packed form.
    pub fn make(alloc: Global) -> Result<Packed, NoMemory>
        ensures value { IfOk result (λ p. p ≡ replicate 1542 0) }
    {
        match Box::new(alloc, [0u8; 1542]) {
            Ok(bytes) => Ok(Packed { bytes }),
            Err(_) => Err(NoMemory),
        }
    }

    /// The bytes.
    pub fn bytes(&self) -> &[u8]
        ensures value { result.now ≡ self.now }
        ensures len { length self.now ≡ 1542 }
    {
        self.bytes.as_slice()
    }

    /// The voxel of this index, as the bytes state it.
    pub fn get(&self, i: u16) -> Voxel
        requires { i < 512 }
        ensures value { slice_get (voxels_in self.now) i ≡ Some result }
        ensures count { length (voxels_in self.now) ≡ 512 }
    {
        voxel_at(self.bytes(), i)
    }

    /// Replaces the bytes.
    pub fn of_bytes(&mut self, bytes: &[u8])
        requires { length bytes.now ≡ 1542 }
        ensures { self.new ≡ bytes.now }
    {
        self.bytes.copy_from_slice(bytes);
    }
}

/// Writes a block and its key in packed form. Takes no memory.
pub fn pack_into(block: &Block, key: BlockKey, out: &mut Packed)
    ensures value { out.new ≡ packed key block.now }
    ensures block { IsBlock block.now }
    ensures key { IsKey key }
{
    let (head, rest) = out.bytes.split_at_mut(6);
    write_key(key, head);
    write_voxels(block, rest);
}

// Writes a key in 6 bytes.
fn write_key(key: BlockKey, out: &mut [u8])
    requires { length out.old ≡ 6 }
    ensures { out.new ≡ key_bytes key }
{
    BigEndian::write_i16(&mut out[0..2], key.x);
    BigEndian::write_i16(&mut out[2..4], key.y);
    BigEndian::write_i16(&mut out[4..6], key.z);
}

// Writes a voxel in 3 bytes.
fn write_voxel(voxel: Voxel, out: &mut [u8])
    requires { length out.old ≡ 3 }
    ensures { out.new ≡ voxel_bytes voxel }
{
    BigEndian::write_i16(out, voxel.f);
    out[2] = voxel.w;
}

// Writes the voxels of a block in 1536 bytes.
fn write_voxels(block: &Block, out: &mut [u8])
    requires { length out.old ≡ 1536 }
    ensures value { out.new ≡ flat_map voxel_bytes block.now }
    ensures block { IsBlock block.now }
{
    for i in 0..block.len() as u16 {
        let at = 3 * i as usize;
        write_voxel(block.get(i), &mut out[at..at + 3]);
    }
}
