ghost use Rattle.std.specs.Prelude.{◌≡◌};
ghost use Rattle.camera.specs.SampleRanges.{IsRangeOf};
ghost use Rattle.depth_view.specs.Views.{FitsImage};

use crate::side::BlockSide;
use crate::steps::Steps;
use camera::{Camera, SampleRange, Slopes};
use depth_frame::DepthFrame;
use fixed_geom::Pose;

/// A frame's truncation band: the frame with the camera that took it and the pose that it was taken from, the slopes of
/// the camera's pixels, the raw samples that it takes, and the reciprocals by which the points of a segment and their
/// blocks are made.
#[derive(Drop)]
pub struct Band<'a> {
    pub camera: &'a Camera,
    pub pose: &'a Pose,
    pub slopes: &'a Slopes,
    pub frame: &'a DepthFrame,
    pub(crate) range: SampleRange,
    pub(crate) side: BlockSide,
    pub(crate) steps: Steps,
    ghost fits: { FitsImage camera.now frame.now },
    ghost same: { slopes.now.fields ≡ camera.now },
    ghost taken: { IsRangeOf camera.now range.unit range.least range.most },
    ghost voxel: { side.voxel ≡ camera.now.voxel },
}

impl<'a> Band<'a> {
    /// The band of a frame. The slopes are those of the camera.
    pub fn of(
        camera: &'a Camera,
        pose: &'a Pose,
        slopes: &'a Slopes,
        frame: &'a DepthFrame,
    ) -> Band<'a>
        requires fits { FitsImage camera.now frame.now }
        requires slopes { slopes.now.fields ≡ camera.now }
        ensures camera { result.camera.now ≡ camera.now }
        ensures pose { result.pose.now ≡ pose.now }
        ensures frame { result.frame.now ≡ frame.now }
    {
        Band {
            camera,
            pose,
            slopes,
            frame,
            range: SampleRange::of(camera),
            side: BlockSide::of(camera.fields().voxel),
            steps: Steps::make(),
        }
    }

    /// The number of pixels in a row.
    pub(crate) fn width(&self) -> u32
        ensures { result ≡ self.now.frame.now.width }
    {
        self.frame.width()
    }
}
