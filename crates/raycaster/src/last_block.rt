ghost use Rattle.std.specs.Prelude.{◌≡◌, ◌<◌, option_map};
ghost use Rattle.camera.specs.Values.{value_in};
ghost use Rattle.raycaster.specs.Views.{IsLookedUp};

use streamer::Rest;
use voxel_block::{Block, BlockKey};

/// The block that was looked up last. It is remembered where the heap lacks it, too.
#[derive(Clone, Copy)]
pub(crate) struct LastBlock<'a> {
    key: BlockKey,
    block: Option<&'a Block>,
}

impl<'a> LastBlock<'a> {
    /// The block of a key.
    pub(crate) fn of(rest: &'a Rest, key: BlockKey) -> LastBlock<'a>
        ensures key { result.key ≡ key }
        ensures looked_up { IsLookedUp rest.now result }
    {
        LastBlock {
            key,
            block: rest.lend(key),
        }
    }

    /// The block of another key. It is looked up only where the key differs.
    pub(crate) fn next(self, rest: &'a Rest, key: BlockKey) -> LastBlock<'a>
        requires looked_up { IsLookedUp rest.now self }
        ensures key { result.key ≡ key }
        ensures looked_up { IsLookedUp rest.now result }
    {
        if self.key == key {
            self
        } else {
            LastBlock::of(rest, key)
        }
    }

    /// The value of the voxel of this index, if it is known.
    pub(crate) fn value(&self, i: u16) -> Option<i16>
        requires { i < 512 }
        ensures { result ≡ value_in (option_map (λ b. b.now) self.now.block) i }
    {
        match self.block {
            Some(block) => block.get(i).known_value(),
            None => None,
        }
    }
}
