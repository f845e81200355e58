//! The coordinates of rays with no division: the reciprocal of a focal length is made once (Granlund and Montgomery
//! 1994).
ghost use Rattle.std.specs.Prelude.{◌≡◌, ◌^◌, ◌*◌, ◌/◌, ◌≤◌, ◌<◌, pos, ◌+ℤ◌, ◌-ℤ◌, ◌*ℤ◌, ◌≤ℤ◌, ◌<ℤ◌, unsigned_abs};
ghost use Rattle.fixed_geom.specs.Vectors.{IsWithin};
ghost use Rattle.camera.specs.Cameras.{ray_axis};
ghost use Rattle.ray_walk.specs.Raising.{ray_raise, reciprocal as reciprocal_of};

/// What a coordinate of a ray is raised by, so that none is below 0: one micrometre more than 17 metres.
pub(crate) const RAISE: i64 = 17_000_001;

/// One axis of the rays of a camera's pixels.
///
/// A coordinate is a product of an offset and a depth, divided by the focal length. Both are multiplied by `unit`
/// first, which brings every focal length near to `2^30`, so that one shift serves them all.
#[derive(Clone, Copy)]
pub(crate) struct RayAxis {
    /// The focal length on this axis and the centre, in 1/65536 pixel.
    pub(crate) focal: i64,
    pub(crate) centre: i64,
    /// How often `2^30` holds the focal length.
    unit: i64,
    /// What a coordinate is raised by, times the focal length and the unit.
    raise: i64,
    /// The reciprocal of the focal length times the unit, in parts of `2^86`, rounded up.
    reciprocal: u64,
    ghost unit_least: { pos 1 ≤ℤ unit },
    ghost unit_most: { unit ≤ℤ pos (2 ^ 30) },
    ghost focal_least: { pos 1 ≤ℤ focal },
    ghost centre_least: { pos 0 ≤ℤ centre },
    ghost centre_most: { centre ≤ℤ pos (2 ^ 27) },
    ghost large: { pos (2 ^ 29) ≤ℤ (focal *ℤ unit) },
    ghost small: { (focal *ℤ unit) ≤ℤ pos (2 ^ 30) },
    ghost raised: { raise ≡ (focal *ℤ unit) *ℤ ray_raise },
    ghost parts: { reciprocal ≡ reciprocal_of (2 ^ 86) (unsigned_abs (focal *ℤ unit)) },
    ghost parts_most: { reciprocal ≤ 2 ^ 58 },
}

impl RayAxis {
    /// The axis of a focal length and a centre.
    pub(crate) fn make(focal: i64, centre: i64) -> RayAxis
        requires focal { pos 1 ≤ℤ focal }
        requires focal_high { focal ≤ℤ pos (2 ^ 30) }
        requires centre { pos 0 ≤ℤ centre }
        requires centre_high { centre ≤ℤ pos (2 ^ 27) }
        ensures focal { result.focal ≡ focal }
        ensures centre { result.centre ≡ centre }
    {
        let unit = unit_of(focal);
        let divisor = divisor_of(focal, unit);
        RayAxis {
            focal,
            centre,
            unit,
            raise: raise_of(divisor),
            reciprocal: reciprocal(divisor as u64),
        }
    }

    /// A coordinate of the point at depth `z` on the ray of pixel `u`, raised.
    pub(crate) fn coordinate(&self, u: u32, z: i64) -> i64
        requires pixel { pos u <ℤ pos 2048 }
        requires front { pos 1 ≤ℤ z }
        requires deep { z ≤ℤ pos 17000000 }
        requires near { IsWithin (pos 17000000) (ray_axis self.now.focal self.now.centre (pos u) z) }
        ensures value { (result -ℤ ray_raise) ≡ ray_axis self.now.focal self.now.centre (pos u) z }
        ensures low { pos 0 ≤ℤ result }
        ensures high { result ≤ℤ pos 34000001 }
    {
        let offset = times(pixel_offset(self.centre, u), self.unit);
        quotient(raised(numerator(offset, z), self.raise), self.reciprocal) as i64
    }
}

/// How often `2^30` holds a focal length.
fn unit_of(focal: i64) -> i64
    requires least { pos 1 ≤ℤ focal }
    requires most { focal ≤ℤ pos (2 ^ 30) }
    ensures least { pos 1 ≤ℤ result }
    ensures high { result ≤ℤ pos (2 ^ 30) }
    ensures product { (focal *ℤ result) ≤ℤ pos (2 ^ 30) }
    ensures large { pos (2 ^ 29) ≤ℤ (focal *ℤ result) }
{
    0x4000_0000i64.div_euclid(focal)
}

/// The product of a focal length and its unit.
fn divisor_of(focal: i64, unit: i64) -> i64
    requires large { pos (2 ^ 29) ≤ℤ (focal *ℤ unit) }
    requires product { (focal *ℤ unit) ≤ℤ pos (2 ^ 30) }
    ensures value { result ≡ focal *ℤ unit }
    ensures large { pos (2 ^ 29) ≤ℤ result }
    ensures most { result ≤ℤ pos (2 ^ 30) }
{
    focal * unit
}

/// What a multiple of the divisor is raised by.
fn raise_of(divisor: i64) -> i64
    requires least { pos 0 ≤ℤ divisor }
    requires most { divisor ≤ℤ pos (2 ^ 30) }
    ensures { result ≡ divisor *ℤ ray_raise }
{
    divisor * RAISE
}

/// The reciprocal of `n`, in parts of `2^86`, rounded up.
fn reciprocal(n: u64) -> u64
    requires { 2 ^ 29 ≤ n }
    ensures value { result ≡ reciprocal_of (2 ^ 86) n }
    ensures bound { result ≤ 2 ^ 58 }
{
    (0x3f_ffff_ffff_ffff_ffff_ffffu128 / u128::from(n)) as u64 + 1
}

/// How far pixel `u` lies from the centre, in 1/65536 pixel.
fn pixel_offset(centre: i64, u: u32) -> i64
    requires centre { pos 0 ≤ℤ centre }
    requires centre_high { centre ≤ℤ pos (2 ^ 27) }
    requires u { pos u <ℤ pos 2048 }
    ensures value { result ≡ pos 65536 *ℤ pos u -ℤ centre }
    ensures bound { IsWithin (pos (2 ^ 27)) result }
{
    65536 * i64::from(u) - centre
}

/// The offset in units.
fn times(offset: i64, unit: i64) -> i64
    requires offset { IsWithin (pos (2 ^ 27)) offset }
    requires unit { IsWithin (pos (2 ^ 30)) unit }
    ensures value { result ≡ offset *ℤ unit }
    ensures bound { IsWithin (pos (2 ^ 57)) result }
{
    offset * unit
}

/// The numerator of a coordinate, whose denominator is the divisor.
fn numerator(offset: i64, z: i64) -> i64
    requires { IsWithin (pos (2 ^ 56)) (offset *ℤ z) }
    ensures { result ≡ offset *ℤ z }
{
    offset * z
}

/// A numerator, raised.
fn raised(n: i64, raise: i64) -> u64
    requires n { IsWithin (pos (2 ^ 56)) n }
    requires raise { IsWithin (pos (2 ^ 56)) raise }
    requires least { pos 0 ≤ℤ (n +ℤ raise) }
    ensures { pos result ≡ n +ℤ raise }
{
    (n + raise) as u64
}

/// The floor of a product by `2^86`.
fn quotient(n: u64, reciprocal: u64) -> u64
    requires n { n < 2 ^ 56 }
    requires reciprocal { reciprocal ≤ 2 ^ 58 }
    ensures { result ≡ n * reciprocal / 2 ^ 86 }
{
    ((u128::from(n) * u128::from(reciprocal)) >> 86) as u64
}
