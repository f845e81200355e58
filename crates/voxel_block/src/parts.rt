ghost use Rattle.std.specs.Prelude.{◌≡◌, ◌<◌, ◌≤ℤ◌, ◌↔◌, ◌||◌, ℕ, pos, Some, true, IsTrue, length, slice_get};
ghost use Rattle.voxel_block.specs.Parts.{part_of, HasLow, IsLow, IsRowLow, IsLayerLow, IsCubeLow};
ghost use Rattle.voxel_block.specs.declared.voxel.Voxel.{Voxel as VoxelOf};

use crate::Block;

impl Block {
    /// Which of the eight parts of the block, of 4 by 4 by 4 voxels, have a low voxel, one whose distance is
    /// at most 0. Bit 0 of a part's number is its half on the axis x, bit 1 that on y, bit 2 that on z.
    pub fn low_parts(&self) -> [bool; 8]
        ensures value { (p : ℕ) → (slice_get result p ≡ Some true) ↔ HasLow self.now p }
        ensures low { (i : ℕ) (v : VoxelOf) → slice_get self.now i ≡ Some v → v.f ≤ℤ pos 0
            → slice_get result (part_of i) ≡ Some true }
    {
        [
            self.is_cube_low(0),
            self.is_cube_low(4),
            self.is_cube_low(32),
            self.is_cube_low(36),
            self.is_cube_low(256),
            self.is_cube_low(260),
            self.is_cube_low(288),
            self.is_cube_low(292),
        ]
    }

    // Whether a voxel is low among the 4 by 4 by 4 from this one on.
    fn is_cube_low(&self, i: u16) -> bool
        requires { i < 293 }
        ensures low { IsTrue result ↔ IsCubeLow self.now i }
        ensures count { length self.now ≡ 512 }
    {
        any(
            self.is_layer_low(i),
            self.is_layer_low(i + 64),
            self.is_layer_low(i + 128),
            self.is_layer_low(i + 192),
        )
    }

    // Whether a voxel is low among the 4 by 4 from this one on along x and y.
    fn is_layer_low(&self, i: u16) -> bool
        requires { i < 485 }
        ensures low { IsTrue result ↔ IsLayerLow self.now i }
        ensures count { length self.now ≡ 512 }
    {
        any(
            self.is_row_low(i),
            self.is_row_low(i + 8),
            self.is_row_low(i + 16),
            self.is_row_low(i + 24),
        )
    }

    // Whether a voxel is low among the 4 from this one on along x.
    fn is_row_low(&self, i: u16) -> bool
        requires { i < 509 }
        ensures low { IsTrue result ↔ IsRowLow self.now i }
        ensures count { length self.now ≡ 512 }
    {
        any(
            self.is_low(i),
            self.is_low(i + 1),
            self.is_low(i + 2),
            self.is_low(i + 3),
        )
    }

    // Whether the voxel of this index is low.
    fn is_low(&self, i: u16) -> bool
        requires { i < 512 }
        ensures low { IsTrue result ↔ IsLow self.now i }
        ensures count { length self.now ≡ 512 }
    {
        self.get(i).f <= 0
    }
}

// Whether one of the four is true. All are asked, so that no branch is taken.
fn any(a: bool, b: bool, c: bool, d: bool) -> bool
    ensures { result ≡ (a || (b || (c || d))) }
{
    a | b | c | d
}
