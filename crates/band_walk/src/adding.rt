ghost use Rattle.std.specs.Prelude.{◌≡◌, ◌<◌, ◌⊎◌, IfOk, Contains};
ghost use Rattle.voxel_block.specs.declared.key.BlockKey.{BlockKey as BlockKeyOf};
ghost use Rattle.band_walk.specs.BandViews.{view_of_band};
ghost use Rattle.band_walk.specs.Bands.{pixel_blocks, row_blocks};
ghost use Rattle.band_walk.specs.Memos.{HasAdded, IsGrown, IsNoted};
ghost use Rattle.band_walk.specs.Remaining.{segment_blocks_of};

use crate::band::Band;
use crate::memo::Memo;
use crate::segment::Segment;
use std::alloc::AllocError;
use voxel_block::BlockKey;

impl<'a> Band<'a> {
    /// Puts into `keys`, in place of what was there, the keys of those blocks of row `v` that the memo has not noted, and
    /// notes them. A key comes more than once where another one took its slot of the memo in between.
    ///
    /// Out of memory, `keys` may have some of them, and what is noted since then is among these.
    pub fn new_keys(
        &self,
        v: u32,
        memo: &mut Memo,
        keys: &mut Vec<BlockKey>,
    ) -> Result<(), AllocError>
        requires { v < self.now.frame.now.height }
        ensures found { IfOk result (λ _. (b : BlockKeyOf) → Contains (row_blocks (view_of_band self.now) v) b → IsNoted memo.old b ⊎ Contains keys.new.items b) }
        ensures only { IfOk result (λ _. (b : BlockKeyOf) → Contains keys.new.items b → Contains (row_blocks (view_of_band self.now) v) b) }
        ensures noted { (b : BlockKeyOf) → IsNoted memo.new b → IsNoted memo.old b ⊎ Contains keys.new.items b }
    {
        keys.clear();
        for u in 0..self.width() {
            self.add_pixel(u, v, memo, keys)?;
        }
        Ok(())
    }

    /// Adds the keys of a pixel.
    fn add_pixel(
        &self,
        u: u32,
        v: u32,
        memo: &mut Memo,
        keys: &mut Vec<BlockKey>,
    ) -> Result<(), AllocError>
        requires column { u < self.now.frame.now.width }
        requires row { v < self.now.frame.now.height }
        ensures added { IfOk result (λ _. HasAdded (pixel_blocks (view_of_band self.now) u v) memo.old keys.old.items memo.new keys.new.items) }
        ensures grown { IsGrown memo.old keys.old.items memo.new keys.new.items }
    {
        match self.depth(u, v) {
            Some(d) => self.add_segment(self.segment(u, v, d), memo, keys),
            None => Ok(()),
        }
    }

    /// Adds the keys of a segment.
    fn add_segment(
        &self,
        segment: Segment,
        memo: &mut Memo,
        keys: &mut Vec<BlockKey>,
    ) -> Result<(), AllocError>
        ensures added { IfOk result (λ _. HasAdded (segment_blocks_of self.now.side segment) memo.old keys.old.items memo.new keys.new.items) }
        ensures grown { IsGrown memo.old keys.old.items memo.new keys.new.items }
    {
        memo.add(self.side.block_at(segment.start), keys)?;
        for j in 1..segment.n {
            memo.add(self.side.block_at(segment.inner_sample(j)), keys)?;
        }
        memo.add(self.side.block_at(segment.end), keys)
    }
}
