ghost use Rattle.std.specs.Prelude.{◌≡◌, ◌<◌, Some, length, All, IfOk, slice_get, slice_set};
ghost use Rattle.voxel_block.specs.Voxels.{IsVoxel};

use crate::{NoMemory, Voxel};
use std::alloc::Global;
use std::marker::Model;

/// The distance of a voxel that was never observed.
const FAR: i16 = 32767;

/// The 512 voxels of a cube of 8 by 8 by 8. The voxel (x, y, z) has the index x + 8y + 64z, so that a
/// row along x is contiguous (InfiniTAM v3).
#[derive(Drop)]
pub struct Block {
    distances: Vec<i16>,
    weights: Vec<u8>,
}

impl Model for Block {
    ghost use Rattle.std.specs.Prelude.{◌≡◌, List, All, vec_len};
    ghost use Rattle.voxel_block.specs.declared.voxel.Voxel.{Voxel};
    ghost use Rattle.voxel_block.specs.Voxels.{IsVoxel, coded_voxel, voxels_of};
    ghost use Rattle.std.specs.Coded.{coded_list};

    ghost Value = { List Voxel };

    ghost coded = { coded_list coded_voxel };

    ghost view = { λ b. voxels_of b.distances.items b.weights.items };

    ghost invariant = { λ b. (vec_len b.distances ≡ 512) × (vec_len b.weights ≡ 512)
        × All IsVoxel (voxels_of b.distances.items b.weights.items) };
}

impl Block {
    ghost use Rattle.voxel_block.specs.Blocks.{new_block};

    /// A block of new voxels.
    pub fn make(alloc: Global) -> Result<Block, NoMemory>
        ensures { IfOk result (λ b. b ≡ new_block) }
    {
        let distances = vec![in alloc; FAR; 512]?;
        let weights = vec![in alloc; 0; 512]?;
        Ok(Block { distances, weights })
    }

    /// Makes every voxel new.
    pub fn reset(&mut self)
        ensures { self.new ≡ new_block }
    {
        self.distances.as_mut_slice().fill(FAR);
        self.weights.as_mut_slice().fill(0);
    }

    /// The number of voxels, which is 512 in every block.
    pub fn len(&self) -> usize
        ensures value { result ≡ 512 }
        ensures voxels { length self.now ≡ 512 }
    {
        self.distances.len()
    }

    /// The voxel of this index.
    pub fn get(&self, i: u16) -> Voxel
        requires { i < 512 }
        ensures value { slice_get self.now i ≡ Some result }
        ensures voxel { IsVoxel result }
        ensures count { length self.now ≡ 512 }
        ensures voxels { All IsVoxel self.now }
    {
        let f = self.distances[i as usize];
        let w = self.weights[i as usize];
        Voxel { f, w }
    }

    /// Replaces the voxel of this index.
    pub fn set(&mut self, i: u16, v: Voxel)
        requires index { i < 512 }
        requires voxel { IsVoxel v }
        ensures { self.new ≡ slice_set self.old i v }
    {
        self.distances[i as usize] = v.f;
        self.weights[i as usize] = v.w;
    }
}
