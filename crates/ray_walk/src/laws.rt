//! Theorems on their own. A law is a clause of a public function, since only what a clause states is
//! proved.

ghost use Rattle.ray_walk.specs.Laws.{PointsReachFar, WalkIsActive};

/// A walk has the points from `near` to `far` and no other. The body is empty: the clause is the theorem.
pub fn points_reach_far()
    ensures { PointsReachFar }
{}

/// Each point of a walk reads a voxel of an active block, whose coordinates fit 16 bits.
pub fn walk_is_active()
    ensures { WalkIsActive }
{}
