//! Truncated distances, by the reciprocal of the truncation distance.
ghost use Rattle.std.specs.Prelude.{◌≡◌, ◌≤◌, ◌<◌, ◌+◌, ◌*◌, ◌/◌, ◌^◌, pos, neg_ℤ, ◌+ℤ◌, ◌-ℤ◌, ◌*ℤ◌, ◌≤ℤ◌, unsigned_abs};
ghost use Rattle.std.specs.Int.{int_min};
ghost use Rattle.fixed_geom.specs.Vectors.{IsWithin};
ghost use Rattle.fuse_kernel.specs.Updates.{tsdf as tsdf_of};

/// A truncation distance `mu` of 1 to 1000000 micrometres.
#[derive(Clone, Copy)]
pub(crate) struct Truncation {
    pub(crate) mu: i64,
    /// The reciprocal of `mu`, in units of `1 / (32767 * 2^41)`, and one more than its floor.
    reciprocal: u64,
    ghost least: { pos 1 ≤ℤ mu },
    ghost most: { mu ≤ℤ pos 1000000 },
    ghost made: { reciprocal ≡ 32767 * 2 ^ 41 / unsigned_abs mu + 1 },
}

impl Truncation {
    pub(crate) fn of(mu: i64) -> Truncation
        requires least { pos 1 ≤ℤ mu }
        requires most { mu ≤ℤ pos 1000000 }
        ensures { result.mu ≡ mu }
    {
        Truncation {
            mu,
            reciprocal: 72_055_395_014_672_384 / mu as u64 + 1,
        }
    }

    /// The truncated distance of a signed distance, scaled to 16 bits.
    pub(crate) fn tsdf(self, eta: i64) -> i16
        requires { (neg_ℤ self.mu) ≤ℤ eta }
        ensures value { result ≡ tsdf_of self.mu eta }
        ensures bound { IsWithin (pos 32767) result }
    {
        lowered(scaled(raised(self.mu, eta), self.mu as u64, self.reciprocal))
    }
}

/// A signed distance of at most `mu`, raised by `mu` so that it is not below 0.
fn raised(mu: i64, eta: i64) -> u64
    requires least { pos 1 ≤ℤ mu }
    requires most { mu ≤ℤ pos 1000000 }
    requires eta { (neg_ℤ mu) ≤ℤ eta }
    ensures value { pos result ≡ int_min eta mu +ℤ mu }
    ensures bound { result ≤ 2 * unsigned_abs mu }
{
    (eta.min(mu) + mu) as u64
}

/// The floor of `32767 e / mu`.
fn scaled(e: u64, mu: u64, reciprocal: u64) -> u64
    requires least { 1 ≤ mu }
    requires most { mu ≤ 1000000 }
    requires e { e ≤ 2 * mu }
    requires reciprocal { reciprocal ≡ 32767 * 2 ^ 41 / mu + 1 }
    ensures value { result ≡ 32767 * e / mu }
    ensures bound { result ≤ 65534 }
{
    (e * reciprocal) >> 41
}

/// A truncated distance as it was before it was raised.
fn lowered(distance: u64) -> i16
    requires { distance ≤ 65534 }
    ensures value { result ≡ pos distance -ℤ pos 32767 }
    ensures bound { IsWithin (pos 32767) result }
{
    (distance as i32 - 32767) as i16
}
