//! Theorems on their own. A law is a clause of a public function, since only what a clause states is
//! proved.

ghost use Rattle.raycaster.specs.Laws.{ActiveBlocksDecide, HitIsBetween, HitIsLeast, KnownIsWeighed, NoHitIsNone};

/// A value is known exactly where the block is in the map and the voxel's weight is above 0.
pub fn known_is_weighed()
    ensures { KnownIsWeighed }
{}

/// The hit is the least point at which the value falls from above 0 to at most 0.
pub fn hit_is_least()
    ensures { HitIsLeast }
{}

/// There is none exactly where the value falls at no point.
pub fn no_hit_is_none()
    ensures { NoHitIsNone }
{}

/// The depth of a hit lies between those of its two points.
pub fn hit_is_between()
    ensures { HitIsBetween }
{}

/// A picture depends on the active blocks alone: maps that agree on these have the same picture.
pub fn active_blocks_decide()
    ensures { ActiveBlocksDecide }
{}
