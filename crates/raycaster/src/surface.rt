ghost use Rattle.std.specs.Prelude.{◌≡◌, ◌≤◌, ◌*◌, ◌^◌, IsTrue, pos, ◌≤ℤ◌, ◌<ℤ◌, ◌-ℤ◌, ◌*ℤ◌, Some, None, if◌then◌else◌};
ghost use Rattle.fixed_geom.specs.Division.{floor_div as floor_of};
ghost use Rattle.fixed_geom.specs.Vectors.{IsWithin};
ghost use Rattle.camera.specs.Cameras.{HasRanges};
ghost use Rattle.raycaster.specs.Walk.{falls as falls_of, hit_depth, hit_sample as hit_sample_of};
ghost use Rattle.raycaster.specs.Walk.{sample_of_depth as sample_of_depth_of};

use camera::CameraFields;

/// The sample of the hit between a point at depth `z` and the next one, by their known values. `None` where the value
/// does not fall from above 0 to at most 0.
pub(crate) fn hit_sample(
    camera: &CameraFields,
    z: i64,
    front: Option<i16>,
    behind: Option<i16>,
) -> Option<u16>
    requires ranges { HasRanges camera.now }
    requires near { pos 1 ≤ℤ z }
    requires far { z ≤ℤ camera.now.far }
    ensures { result ≡ (if falls_of front behind then Some (hit_sample_of camera.now z front behind) else None) }
{
    let (f, g) = (front?, behind?);
    if falls(f, g) {
        Some(sample_between(camera, z, i64::from(f), i64::from(g)))
    } else {
        None
    }
}

/// Whether a value falls from above 0 to at most 0.
fn falls(f: i16, g: i16) -> bool
    ensures value { result ≡ falls_of (Some f) (Some g) }
    ensures front { IsTrue result → pos 0 <ℤ f }
    ensures behind { IsTrue result → g ≤ℤ pos 0 }
{
    f > 0 && g <= 0
}

/// The sample of the hit between a point at depth `z` with the value `f` and the next one with the value `g`.
fn sample_between(camera: &CameraFields, z: i64, f: i64, g: i64) -> u16
    requires ranges { HasRanges camera.now }
    requires near { pos 1 ≤ℤ z }
    requires far { z ≤ℤ camera.now.far }
    requires front { pos 0 <ℤ f }
    requires front_high { f ≤ℤ pos 32767 }
    requires behind { g ≤ℤ pos 0 }
    requires behind_low { IsWithin (pos 32768) g }
    ensures { result ≡ sample_of_depth_of camera.now.unit (hit_depth camera.now.voxel z f g) }
{
    let depth = z + offset(camera.voxel, f, g);
    sample_of_depth(camera.unit, depth)
}

/// How far behind the first of two points the line from the value `f` there to the value `g` at the next one, `size`
/// behind it, is 0.
fn offset(size: i64, f: i64, g: i64) -> i64
    requires size { pos 1 ≤ℤ size }
    requires size_high { size ≤ℤ pos 100000 }
    requires front { pos 0 <ℤ f }
    requires front_high { f ≤ℤ pos 32767 }
    requires behind { g ≤ℤ pos 0 }
    requires behind_low { IsWithin (pos 32768) g }
    ensures value { result ≡ floor_of (size *ℤ f) (f -ℤ g) }
    ensures low { pos 0 ≤ℤ result }
    ensures high { result ≤ℤ size }
{
    i64::from(divided(times(whole(size), whole(f)), whole(f - g)))
}

/// The size of a voxel, `n` times.
fn times(size: u32, n: u32) -> u32
    requires size { size ≤ 100000 }
    requires n { n ≤ 32767 }
    ensures { result ≡ size * n }
{
    size * n
}

/// The floor of `a / b`.
fn divided(a: u32, b: u32) -> u32
    requires { 1 ≤ b }
    ensures { pos result ≡ floor_of (pos a) (pos b) }
{
    a / b
}

/// A number from 0 on in 32 bits, in which a division is faster.
fn whole(n: i64) -> u32
    requires least { pos 0 ≤ℤ n }
    requires greatest { n <ℤ pos (2 ^ 32) }
    ensures { pos result ≡ n }
{
    n as u32
}

/// The sample that shows a depth, which is cut off at the greatest one.
fn sample_of_depth(unit: i64, depth: i64) -> u16
    requires unit { pos 1 ≤ℤ unit }
    requires unit_high { unit <ℤ pos (2 ^ 32) }
    requires depth { pos 0 ≤ℤ depth }
    requires depth_high { depth <ℤ pos (2 ^ 32) }
    ensures { result ≡ sample_of_depth_of unit depth }
{
    divided(whole(depth), whole(unit)).min(65535) as u16
}
