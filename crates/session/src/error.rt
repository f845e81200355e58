ghost use Rattle.std.specs.Prelude.{◌≡◌, IfSome, IfNone};
ghost use Rattle.scan_io.specs.Reading.{refused, no_memory as out_of_memory};
ghost use Rattle.session.specs.declared.error.FrameError.TheVariants.{NoMemory as no_memory};
ghost use Rattle.session.specs.declared.error.ReadError.TheVariants.{NoMemory as not_read};
ghost use Rattle.session.specs.declared.error.RenderError.TheVariants.{NoMemory as not_rendered};
ghost use Rattle.session.specs.Answers.{frame_cause, frame_error};

use fixed_geom::BadPose;
use fusion_core::Refusal;
use std::alloc::AllocError;
use std::fmt;
use voxel_block::NoMemory;

/// Why a frame was not fused. After each of them the session is as before.
#[derive(Clone, Copy, Debug, PartialEq, Eq)]
pub enum FrameError {
    /// The depth map has these sides, which are not those of the configuration.
    Size { width: u32, height: u32 },
    /// The rows are no pose.
    BadPose(BadPose),
    /// More blocks would be active than this limit of the configuration.
    HeapSpent { limit: u32 },
    /// Out of memory.
    NoMemory,
}

impl FrameError {
    /// Why the frame is refused. `None` where it is out of memory.
    pub fn refusal(&self) -> Option<Refusal>
        ensures refused { IfSome result (λ why. frame_cause self.now ≡ refused why) }
        ensures memory { IfNone result (frame_cause self.now ≡ out_of_memory) }
    {
        match *self {
            FrameError::Size { width, height } => Some(Refusal::Size { width, height }),
            FrameError::BadPose(why) => Some(Refusal::BadPose(why)),
            FrameError::HeapSpent { limit } => Some(Refusal::HeapSpent { limit }),
            FrameError::NoMemory => None,
        }
    }
}

impl fmt::Display for FrameError {
    fn fmt<W: fmt::Write>(&self, f: &mut fmt::Formatter<W>) -> fmt::Result {
        match self.refusal() {
            Some(why) => write!(f, "{why}"),
            None => write!(f, "out of memory"),
        }
    }
}

impl From<Refusal> for FrameError {
    ghost from_gives = { λ why e. e ≡ frame_error why };

    fn from(why: Refusal) -> Self {
        match why {
            Refusal::Size { width, height } => FrameError::Size { width, height },
            Refusal::BadPose(why) => FrameError::BadPose(why),
            Refusal::HeapSpent { limit } => FrameError::HeapSpent { limit },
        }
    }
}

impl From<AllocError> for FrameError {
    ghost from_gives = { λ _ e. e ≡ no_memory };

    fn from(_: AllocError) -> Self {
        FrameError::NoMemory
    }
}

impl From<NoMemory> for FrameError {
    ghost from_gives = { λ _ e. e ≡ no_memory };

    fn from(_: NoMemory) -> Self {
        FrameError::NoMemory
    }
}

/// Why a map was not read. After it the session is as before.
#[derive(Clone, Copy, Debug, PartialEq, Eq)]
pub enum ReadError {
    /// Out of memory.
    NoMemory,
}

impl fmt::Display for ReadError {
    fn fmt<W: fmt::Write>(&self, f: &mut fmt::Formatter<W>) -> fmt::Result {
        write!(f, "out of memory")
    }
}

impl From<NoMemory> for ReadError {
    ghost from_gives = { λ _ e. e ≡ not_read };

    fn from(_: NoMemory) -> Self {
        ReadError::NoMemory
    }
}

impl From<AllocError> for ReadError {
    ghost from_gives = { λ _ e. e ≡ not_read };

    fn from(_: AllocError) -> Self {
        ReadError::NoMemory
    }
}

impl From<ReadError> for NoMemory {
    fn from(_: ReadError) -> Self {
        NoMemory
    }
}

/// Why there is no picture.
#[derive(Clone, Copy, Debug, PartialEq, Eq)]
pub enum RenderError {
    /// No frame was accepted yet.
    NoFrame,
    /// Out of memory.
    NoMemory,
}

impl fmt::Display for RenderError {
    fn fmt<W: fmt::Write>(&self, f: &mut fmt::Formatter<W>) -> fmt::Result {
        match self {
            RenderError::NoFrame => write!(f, "no frame was accepted"),
            RenderError::NoMemory => write!(f, "out of memory"),
        }
    }
}

impl From<NoMemory> for RenderError {
    ghost from_gives = { λ _ e. e ≡ not_rendered };

    fn from(_: NoMemory) -> Self {
        RenderError::NoMemory
    }
}
