ghost use Rattle.std.specs.Prelude.{◌≡◌, ◌^◌, pos};
ghost use Rattle.fixed_geom.specs.PoseTest.{are_within as are_within_of, is_near as is_near_of, is_within as is_within_of};
ghost use Rattle.fixed_geom.specs.Vectors.{IsWithin};

use crate::vector::Vec3;

/// `2^48`: by how much a sum of products may differ from its target.
const NEARNESS: i128 = 1 << 48;

/// Whether `z` is at most `bound` in size.
fn is_within(bound: i64, z: i64) -> bool
    requires { IsWithin (pos (2 ^ 62)) bound }
    ensures { result ≡ is_within_of bound z }
{
    -bound <= z && z <= bound
}

/// Whether each coordinate is.
pub(crate) fn are_within(bound: i64, v: Vec3) -> bool
    requires { IsWithin (pos (2 ^ 62)) bound }
    ensures { result ≡ are_within_of bound v }
{
    is_within(bound, v.x) && is_within(bound, v.y) && is_within(bound, v.z)
}

/// Whether `z` differs from `target` by at most `2^48`.
pub(crate) fn is_near(target: i128, z: i128) -> bool
    requires target { IsWithin (pos (2 ^ 62)) target }
    requires z { IsWithin (pos (2 ^ 95)) z }
    ensures { result ≡ is_near_of target z }
{
    let difference = z - target;
    -NEARNESS <= difference && difference <= NEARNESS
}
