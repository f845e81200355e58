ghost use Rattle.std.specs.Prelude.{◌≡◌, []};
ghost use Rattle.std.specs.Iterator.{YieldsFirst};
ghost use Rattle.band_walk.specs.Remaining.{IsSamples, sample_blocks_from, segment_blocks_of};

use crate::segment::Segment;
use crate::side::BlockSide;
use voxel_block::BlockKey;

/// The remaining samples of a segment: those from `j` on.
#[derive(Clone, Copy)]
pub(crate) struct Samples {
    side: BlockSide,
    segment: Segment,
    j: u32,
}

impl Samples {
    /// All samples of a segment.
    pub(crate) fn of(side: BlockSide, segment: Segment) -> Samples
        ensures remaining { sample_blocks_from result ≡ segment_blocks_of side segment }
        ensures samples { IsSamples result }
    {
        Samples {
            side,
            segment,
            j: 0,
        }
    }

    /// A segment's samples, none of which remains.
    pub(crate) fn none(side: BlockSide, segment: Segment) -> Samples
        ensures remaining { sample_blocks_from result ≡ [] }
        ensures samples { IsSamples result }
    {
        Samples {
            side,
            segment,
            j: segment.n + 1,
        }
    }

    /// The block of the next sample.
    pub(crate) fn next_block(&mut self) -> Option<BlockKey>
        requires { IsSamples self.old }
        ensures gives { YieldsFirst sample_blocks_from self.old result self.new }
        ensures samples { IsSamples self.new }
    {
        if self.j > self.segment.n {
            return None;
        }
        let sample = self.segment.sample(self.j);
        let key = self.side.block_at(sample).key();
        self.j += 1;
        Some(key)
    }
}
