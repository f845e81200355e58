ghost use Rattle.std.specs.Prelude.{◌≡◌};
ghost use Rattle.voxel_block.specs.Voxels.{is_known, known_value as known_value_of};

/// One voxel (Curless and Levoy 1996): the truncated signed distance to the surface, in 1/32767 of
/// the truncation distance and above 0 in front of the surface, and how much the distance weighs.
/// 32767 stands for the truncation distance and beyond. A voxel that was never observed is (32767, 0).
#[derive(Clone, Copy, Debug, PartialEq, Eq)]
pub struct Voxel {
    pub f: i16,
    pub w: u8,
}

impl Voxel {
    /// Whether the voxel was observed.
    pub fn is_known(self) -> bool
        ensures { result ≡ is_known self }
    {
        self.w > 0
    }

    /// The value of the voxel, its distance, if it is known.
    pub fn known_value(self) -> Option<i16>
        ensures { result ≡ known_value_of self }
    {
        if self.is_known() { Some(self.f) } else { None }
    }
}
