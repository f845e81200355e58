ghost use Rattle.band_walk.specs.Laws.{BandIsASet, BandIsActive, RowsAreTheBand};

/// Each block of a frame's band is active for the frame, its coordinates are from -18876 to 18875, and 8 voxel sizes times
/// each of them is at most 2^30 either way. The body is empty: the clause is the theorem.
pub fn band_is_active()
    ensures { BandIsActive }
{}

/// The list of the blocks of a band has the blocks of the band and no other.
pub fn band_is_a_set()
    ensures { BandIsASet }
{}

/// The keys of all rows are the blocks of the band and no other.
pub fn rows_are_the_band()
    ensures { RowsAreTheBand }
{}
