ghost use Rattle.band_walk.specs.BandViews.{view_of_band};

use band_walk::{Band, Memo};
use std::alloc::AllocError;
use voxel_block::BlockKey;

/// The rows of a depth map, with the keys of its truncation band.
pub(crate) trait Rows {
    ghost use Rattle.std.specs.Prelude.{◌≡◌, ◌<◌, ◌⊎◌, IfOk, Contains};
    ghost use Rattle.voxel_block.specs.declared.key.BlockKey.{BlockKey as BlockKeyOf};
    ghost use Rattle.depth_view.specs.Views.{View};
    ghost use Rattle.band_walk.specs.Bands.{row_blocks};
    ghost use Rattle.band_walk.specs.Memos.{IsNoted};

    /// What the depth map shows.
    ghost shown: { Self → View };

    /// The number of rows.
    fn height(&self) -> u32
        ensures { result ≡ (shown self.now).depths.height };

    /// Puts into `keys`, in place of what was there, the keys of those blocks of row `v` that the memo has not
    /// noted, and notes them.
    fn new_keys(&self, v: u32, memo: &mut Memo, keys: &mut Vec<BlockKey>) -> Result<(), AllocError>
        requires { v < (shown self.now).depths.height }
        ensures found { IfOk result (λ _. (b : BlockKeyOf) → Contains (row_blocks (shown self.now) v) b → IsNoted memo.old b ⊎ Contains keys.new.items b) }
        ensures only { IfOk result (λ _. (b : BlockKeyOf) → Contains keys.new.items b → Contains (row_blocks (shown self.now) v) b) }
        ensures noted { (b : BlockKeyOf) → IsNoted memo.new b → IsNoted memo.old b ⊎ Contains keys.new.items b };
}

impl<'a> Rows for Band<'a> {
    ghost shown = { view_of_band };

    fn height(&self) -> u32 {
        self.frame.height()
    }

    fn new_keys(
        &self,
        v: u32,
        memo: &mut Memo,
        keys: &mut Vec<BlockKey>,
    ) -> Result<(), AllocError> {
        Band::new_keys(self, v, memo, keys)
    }
}
