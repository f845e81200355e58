ghost use Rattle.fuse_kernel.specs.Laws.{InactiveStays, InvisibleIsNotMet, InvisibleStays, MetIsActive, MetIsAveraged, UnmetStays, WeightsStayBounded};

/// A voxel that a frame meets becomes the mean of its distance and the new one, and weighs one more. The body is empty:
/// the clause is the theorem.
pub fn met_is_averaged()
    ensures { MetIsAveraged }
{}

/// Every other voxel stays.
pub fn unmet_stays()
    ensures { UnmetStays }
{}

/// A frame meets no voxel of a block that is not visible.
pub fn invisible_is_not_met()
    ensures { InvisibleIsNotMet }
{}

/// A block is active for a frame that meets one of its voxels.
pub fn met_is_active()
    ensures { MetIsActive }
{}

/// The update leaves a block that is not visible as it is.
pub fn invisible_stays()
    ensures { InvisibleStays }
{}

/// The update leaves a block that is not active as it is.
pub fn inactive_stays()
    ensures { InactiveStays }
{}

/// Where no voxel of a block weighs more than the greatest weight, none does after an update.
pub fn weights_stay_bounded()
    ensures { WeightsStayBounded }
{}
