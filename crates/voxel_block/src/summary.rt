ghost use Rattle.std.specs.Prelude.{◌≡◌};
ghost use Rattle.voxel_block.specs.Summaries.{summary_of};

use crate::Block;

/// What a look at all voxels of a block keeps of them.
#[derive(Clone, Copy, Debug, PartialEq, Eq)]
pub struct Summary {
    /// The number of known voxels.
    pub known: u16,
    /// The least size of the distances of the known voxels, 32767 where no voxel is known.
    pub least: u16,
}

impl Block {
    /// Summarizes the voxels. Takes no memory.
    pub fn summary(&self) -> Summary
        ensures { result ≡ summary_of self.now }
    {
        let mut known = 0;
        let mut least = 32767;
        // The distance of an unknown voxel is 32767, so the least one is found without a branch.
        for i in 0..self.len() as u16 {
            let voxel = self.get(i);
            known += u16::from(voxel.is_known());
            least = least.min(voxel.f.unsigned_abs());
        }
        Summary { known, least }
    }
}
