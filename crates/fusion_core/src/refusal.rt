ghost use Rattle.std.specs.Prelude.{◌≡◌};
ghost use Rattle.fusion_core.specs.declared.refusal.Refusal.TheVariants.{BadPose as bad_pose};

use fixed_geom::BadPose;
use std::fmt;

/// Why a frame is refused. A refused frame changes nothing.
#[derive(Clone, Copy, Debug, PartialEq, Eq)]
pub enum Refusal {
    /// The depth map has these sides, which are not those of the camera's image.
    Size { width: u32, height: u32 },
    /// The rows are no pose.
    BadPose(BadPose),
    /// More blocks would be active than this limit.
    HeapSpent { limit: u32 },
}

impl fmt::Display for Refusal {
    fn fmt<W: fmt::Write>(&self, f: &mut fmt::Formatter<W>) -> fmt::Result {
        match self {
            Refusal::Size { width, height } => {
                write!(f, "the depth map has {width} by {height} pixels")
            }
            Refusal::BadPose(BadPose::Range) => write!(f, "the pose passes its bounds"),
            Refusal::BadPose(BadPose::NotRotation) => write!(f, "the pose has no rotation"),
            Refusal::HeapSpent { limit } => write!(f, "more than {limit} blocks would be active"),
        }
    }
}

impl From<BadPose> for Refusal {
    ghost from_gives = { λ why e. e ≡ bad_pose why };

    fn from(why: BadPose) -> Self {
        Refusal::BadPose(why)
    }
}
