ghost use Rattle.std.specs.Prelude.{◌≡◌};
ghost use Rattle.fusion_core.specs.Works.{IsWork, greatest_weight, updated_by};

use crate::board::Work;
use fuse_kernel::Kernel;
use std::marker::Model;
use voxel_block::{Block, BlockKey};

/// A work made ready for any number of jobs: what they need of its frame is computed once.
#[derive(Drop)]
pub struct Tools<'a> {
    work: &'a Work,
    kernel: Option<Kernel<'a>>,
}

impl<'a> Model for Tools<'a> {
    ghost use Rattle.fusion_core.specs.declared.board.work.Work.{Work};
    ghost use Rattle.fusion_core.specs.Works.{IsKernelFor};

    ghost Value = { Work };

    ghost view = { λ t. t.work.now };

    ghost invariant = { λ t. IsKernelFor t.work.now t.kernel };
}

impl<'a> Tools<'a> {
    /// The tools of a work, whose depths have to be those of its frame.
    pub fn of(work: &'a Work) -> Tools<'a>
        requires { IsWork work.now }
        ensures { result ≡ work.now }
    {
        let kernel = match work {
            Work::Fuse { frame, depths } => Some(frame.kernel(depths)),
            Work::Look { .. } => None,
        };
        Tools { work, kernel }
    }

    // Updates the block of a key, where the work has a frame.
    pub(crate) fn update(&self, block: &mut Block, key: BlockKey)
        ensures { block.new ≡ updated_by self.now key block.old }
    {
        if let Work::Fuse { frame, .. } = self.work
            && let Some(kernel) = &self.kernel
        {
            frame.update(kernel, block, key);
        }
    }

    // The greatest weight of a voxel.
    pub(crate) fn max_weight(&self) -> u8
        ensures { result ≡ greatest_weight self.now }
    {
        match self.work {
            Work::Fuse { frame, .. } => frame.max_weight(),
            Work::Look { max_weight } => *max_weight,
        }
    }
}
