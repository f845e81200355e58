//! Theorems on their own. A law is a clause of a public function, since only what a clause states is
//! proved.

ghost use Rattle.ray_ranges.specs.Laws.{VoxelIsInPart};

/// Each voxel is in one of the 8 parts of its block. The body is empty: the clause is the theorem.
pub fn voxel_is_in_part()
    ensures { VoxelIsInPart }
{}
