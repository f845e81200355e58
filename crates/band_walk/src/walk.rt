ghost use Rattle.std.specs.Prelude.{◌≡◌, ◌<◌};
ghost use Rattle.std.specs.Iterator.{YieldsFirst, item_count};
ghost use Rattle.band_walk.specs.BandViews.{view_of_band};
ghost use Rattle.band_walk.specs.Bands.{row_keys};
ghost use Rattle.band_walk.specs.RemainingKeys.{remaining_keys};

use crate::band::Band;
use crate::blocks::{RowBlocks, next_key};
use std::marker::Model;
use voxel_block::BlockKey;

/// The remaining keys of a row of pixels: those of the blocks near the depth that each pixel shows, sampled along the
/// pixel's ray through the truncation band round that depth.
///
/// The choice of the samples is this project's own. A key that is equal to the one given just before it is left out, and
/// may come again later.
#[derive(Drop)]
pub struct BandWalk<'a> {
    blocks: RowBlocks<'a>,
    last: Option<BlockKey>,
}

impl<'a> Model for BandWalk<'a> {
    ghost use Rattle.std.specs.Prelude.{List};
    ghost use Rattle.voxel_block.specs.declared.key.BlockKey.{BlockKey};
    ghost use Rattle.band_walk.specs.Remaining.{IsRowBlocks, remaining_blocks, keys_after};

    ghost Value = { List BlockKey };

    ghost view = { λ w. keys_after w.last (remaining_blocks w.blocks) };

    ghost invariant = { λ w. IsRowBlocks w.blocks };
}

impl<'a> BandWalk<'a> {
    /// The keys of row `v` of a band, by column and then by sample. A key that is equal to the one
    /// given just before it is left out. Takes no memory.
    pub fn over(band: &'a Band<'a>, v: u32) -> BandWalk<'a>
        requires { v < band.now.frame.now.height }
        ensures { remaining_keys result ≡ row_keys (view_of_band band.now) v }
    {
        BandWalk {
            blocks: RowBlocks::of(band, v),
            last: None,
        }
    }
}

impl<'a> Iterator for BandWalk<'a> {
    type Item = BlockKey;

    ghost next_gives = { YieldsFirst remaining_keys };

    ghost remaining = { item_count remaining_keys };

    /// The next key.
    fn next(&mut self) -> Option<BlockKey> {
        let key = next_key(&mut self.blocks, self.last)?;
        self.last = Some(key);
        Some(key)
    }
}
