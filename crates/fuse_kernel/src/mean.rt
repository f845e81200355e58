//! The mean of signed distances, by the reciprocals of their weights.
ghost use Rattle.std.specs.Prelude.{◌≡◌, ℕ, ◌≤◌, ◌<◌, ◌+◌, ◌-◌, ◌*◌, ◌/◌, ◌^◌, pos, ◌+ℤ◌, ◌-ℤ◌, slice_index};
ghost use Rattle.fixed_geom.specs.Vectors.{IsWithin};
ghost use Rattle.fuse_kernel.specs.Updates.{mean as mean_of};

use fixed_geom::{quotient, reciprocal};

/// The reciprocals of the weights 2 to 256, each at the weight before it.
#[derive(Drop)]
pub(crate) struct Reciprocals {
    reciprocals: [u64; 256],
    ghost made: { (w : ℕ) → w < 256 → 1 ≤ w → slice_index reciprocals w ≡ (2 ^ 64 - 1) / (w + 1) + 1 },
}

impl Reciprocals {
    pub(crate) fn make() -> Reciprocals {
        let mut reciprocals = [0; 256];
        for w in 1..256 {
            reciprocals[w] = reciprocal(w as u64 + 1);
        }
        Reciprocals { reciprocals }
    }

    /// The mean of a distance of weight `w` and a new one, to the nearest whole number.
    pub(crate) fn mean(&self, w: u8, old: i16, new: i16) -> i16
        requires old { IsWithin (pos 32767) old }
        requires new { IsWithin (pos 32767) new }
        ensures value { result ≡ mean_of w old new }
        ensures bound { IsWithin (pos 32767) result }
    {
        if w == 0 {
            return new;
        }
        mean_by(w, old, new, self.reciprocals[usize::from(w)])
    }
}

/// The mean, where the old distance has a weight, by the reciprocal of that weight and one.
fn mean_by(w: u8, old: i16, new: i16, reciprocal: u64) -> i16
    requires weight { 1 ≤ w }
    requires old { IsWithin (pos 32767) old }
    requires new { IsWithin (pos 32767) new }
    requires reciprocal { reciprocal ≡ (2 ^ 64 - 1) / (w + 1) + 1 }
    ensures value { result ≡ mean_of w old new }
    ensures bound { IsWithin (pos 32767) result }
{
    let sum = raised_sum(w, raised(old), raised(new));
    lowered(raised_mean(sum, u64::from(w) + 1, reciprocal))
}

/// A distance, raised so that it is not below 0.
fn raised(distance: i16) -> u64
    requires { IsWithin (pos 32767) distance }
    ensures value { pos result ≡ distance +ℤ pos 32768 }
    ensures bound { result ≤ 65535 }
{
    (i32::from(distance) + 32768) as u64
}

/// A mean as it was before it was raised.
fn lowered(mean: u64) -> i16
    requires { mean ≤ 65535 }
    ensures { result ≡ pos mean -ℤ pos 32768 }
{
    (mean as i32 - 32768) as i16
}

/// The sum of a distance of weight `w` and a new one, both raised, and of half of the weight that both have.
fn raised_sum(w: u8, old: u64, new: u64) -> u64
    requires old { old ≤ 65535 }
    requires new { new ≤ 65535 }
    ensures value { result ≡ w * old + new + (w + 1) / 2 }
    ensures bound { result ≤ 65535 * (w + 1) + (w + 1) / 2 }
{
    weighted(w, old) + new + (u64::from(w) + 1) / 2
}

fn weighted(w: u8, distance: u64) -> u64
    requires { distance ≤ 65535 }
    ensures value { result ≡ w * distance }
    ensures bound { result ≤ 16711425 }
{
    u64::from(w) * distance
}

/// The floor of `sum / w`, by the reciprocal of `w`.
fn raised_mean(sum: u64, w: u64, reciprocal: u64) -> u64
    requires least { 2 ≤ w }
    requires most { w ≤ 256 }
    requires sum { sum ≤ 65535 * w + w / 2 }
    requires reciprocal { reciprocal ≡ (2 ^ 64 - 1) / w + 1 }
    ensures value { result ≡ sum / w }
    ensures bound { result ≤ 65535 }
{
    quotient(sum, w, reciprocal)
}
