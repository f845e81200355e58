ghost use Rattle.camera.specs.Laws.{ActiveIsHeld, MetIsActive, NearestIsActive, PiercedIsActive, InvisibleMeetsNone};

/// No voxel of a block that is not visible projects inside the image at a depth that a frame may
/// touch. The body is empty: the clause is the theorem.
pub fn invisible_meets_none()
    ensures { InvisibleMeetsNone }
{}

/// A block is active if one of its voxels projects inside the image at a depth that a frame may
/// touch.
pub fn met_is_active()
    ensures { MetIsActive }
{}

/// The chunk of an active block passes the test of `may_hold_active`.
pub fn active_is_held()
    ensures { ActiveIsHeld }
{}

/// A block is active, its coordinates are from -18876 to 18875, and 8 voxel sizes times each of them
/// is at most 2^30 either way, if the segment between two points of a pixel's ray goes through it.
pub fn pierced_is_active()
    ensures { PiercedIsActive }
{}

/// The voxel nearest to a point of a pixel's ray lies in an active block, and the block's
/// coordinates fit 16 bits.
pub fn nearest_is_active()
    ensures { NearestIsActive }
{}
