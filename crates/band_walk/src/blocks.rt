ghost use Rattle.std.specs.Prelude.{◌≡◌, ◌<◌, IsTrue, ◌↔◌, Some};
ghost use Rattle.std.specs.Iterator.{YieldsFirst};
ghost use Rattle.band_walk.specs.BandViews.{view_of_band};
ghost use Rattle.band_walk.specs.Bands.{row_blocks};
ghost use Rattle.band_walk.specs.Remaining.{GivesKey, IsRowBlocks, remaining_blocks};

use crate::band::Band;
use crate::samples::Samples;
use voxel_block::BlockKey;

/// The remaining blocks of row `v`: those of the samples of a pixel, and then those of the pixels from column `u` on.
#[derive(Drop)]
pub(crate) struct RowBlocks<'a> {
    band: &'a Band<'a>,
    v: u32,
    u: u32,
    samples: Samples,
}

impl<'a> RowBlocks<'a> {
    /// All blocks of the row.
    pub(crate) fn of(band: &'a Band<'a>, v: u32) -> RowBlocks<'a>
        requires { v < band.now.frame.now.height }
        ensures remaining { remaining_blocks result ≡ row_blocks (view_of_band band.now) v }
        ensures in_order { IsRowBlocks result }
    {
        RowBlocks {
            band,
            v,
            u: 0,
            samples: band.no_samples(),
        }
    }

    /// The next block.
    pub(crate) fn next_block(&mut self) -> Option<BlockKey>
        requires { IsRowBlocks self.old }
        ensures gives { YieldsFirst remaining_blocks self.old result self.new }
        ensures in_order { IsRowBlocks self.new }
    {
        loop {
            if let Some(key) = self.samples.next_block() {
                return Some(key);
            }
            if self.u >= self.band.width() {
                return None;
            }
            self.samples = self.band.samples(self.u, self.v);
            self.u += 1;
        }
    }
}

/// The next block that is not the one given last.
pub(crate) fn next_key(blocks: &mut RowBlocks<'_>, last: Option<BlockKey>) -> Option<BlockKey>
    requires { IsRowBlocks blocks.old }
    ensures gives { GivesKey last blocks.old result blocks.new }
    ensures in_order { IsRowBlocks blocks.new }
{
    loop {
        let key = blocks.next_block()?;
        if !is_last(last, key) {
            return Some(key);
        }
    }
}

/// Whether a key is the one given last.
fn is_last(last: Option<BlockKey>, key: BlockKey) -> bool
    ensures { IsTrue result ↔ (last ≡ Some key) }
{
    match last {
        Some(given) => given == key,
        None => false,
    }
}
