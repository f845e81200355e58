ghost use Rattle.std.specs.Prelude.{◌≡◌, ◌^◌, pos, ◌+ℤ◌};
ghost use Rattle.fixed_geom.specs.Division.{floor_div};
ghost use Rattle.fixed_geom.specs.Vectors.{AreWithin, IsWithin};
ghost use Rattle.fixed_geom.specs.Poses.{unit};
ghost use Rattle.fuse_kernel.specs.VoxelSteps.{NearCamQ30Within, point_by, stepped};

use fixed_geom::Vec3;

/// The scaled camera coordinates of a point near the camera, in 64 bits: its camera coordinates in units of `2^-30`
/// micrometres, before the floor.
#[derive(Clone, Copy)]
pub struct NearCamQ30 {
    pub x: i64,
    pub y: i64,
    pub z: i64,
}

impl NearCamQ30 {
    /// The coordinates after one more step.
    pub fn plus(self, step: NearCamQ30) -> NearCamQ30
        requires near_cam_q30 { NearCamQ30Within (pos (2 ^ 56)) self }
        requires step { NearCamQ30Within (pos (2 ^ 56)) step }
        ensures { result ≡ stepped self step }
    {
        NearCamQ30 {
            x: sum(self.x, step.x),
            y: sum(self.y, step.y),
            z: sum(self.z, step.z),
        }
    }

    /// The camera point, each coordinate by floor.
    pub fn point(self) -> Vec3
        requires { NearCamQ30Within (pos (2 ^ 56)) self }
        ensures value { result ≡ point_by self }
        ensures bound { AreWithin (pos (2 ^ 26)) result }
    {
        Vec3 {
            x: whole(self.x),
            y: whole(self.y),
            z: whole(self.z),
        }
    }
}

fn sum(a: i64, b: i64) -> i64
    requires a { IsWithin (pos (2 ^ 56)) a }
    requires b { IsWithin (pos (2 ^ 56)) b }
    ensures { result ≡ a +ℤ b }
{
    a + b
}

/// The floor of a division by `2^30`.
fn whole(cam_q30_axis: i64) -> i64
    requires { IsWithin (pos (2 ^ 56)) cam_q30_axis }
    ensures value { result ≡ floor_div cam_q30_axis unit }
    ensures bound { IsWithin (pos (2 ^ 26)) result }
{
    cam_q30_axis >> 30
}
