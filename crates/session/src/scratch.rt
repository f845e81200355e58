ghost use Rattle.std.specs.Prelude.{IfOk};
ghost use Rattle.session.specs.Standing.{IsScratchOf};

use camera::Slopes;
use depth_view::Depths;
use scan_lang::Config;
use std::alloc::Global;
use voxel_block::NoMemory;

/// What a frame works with. It is kept from frame to frame, so that its memory is taken once; of what a frame leaves in
/// it the next one reads the slopes alone.
#[derive(Drop)]
pub struct Scratch {
    /// The slopes of the camera's pixels.
    pub slopes: Slopes,
    /// The depths of the frame's pixels.
    pub depths: Depths,
}

impl Scratch {
    /// What the frames of a configuration work with.
    pub fn make(alloc: Global, config: &Config) -> Result<Scratch, NoMemory>
        ensures { IfOk result (IsScratchOf config.now) }
    {
        Ok(Scratch {
            slopes: Slopes::make(alloc, config.camera())?,
            depths: Depths::make(alloc),
        })
    }
}
