//! Equal parts of an offset, by the reciprocals of their numbers.
ghost use Rattle.std.specs.Prelude.{◌≡◌, ℕ, ◌≤◌, ◌<◌, ◌+◌, ◌-◌, ◌*◌, ◌/◌, ◌^◌, pos, ◌+ℤ◌, ◌-ℤ◌, slice_index};
ghost use Rattle.fixed_geom.specs.Division.{floor_div};
ghost use Rattle.fixed_geom.specs.Vectors.{IsWithin};

use fixed_geom::{quotient, reciprocal};

/// The reciprocals of the numbers 2 to 63, each at its number. Few segments have more steps.
#[derive(Drop)]
pub(crate) struct Steps {
    reciprocals: [u64; 64],
    ghost made: { (n : ℕ) → n < 64 → 2 ≤ n → slice_index reciprocals n ≡ (2 ^ 64 - 1) / n + 1 },
}

impl Steps {
    pub(crate) fn make() -> Steps {
        let mut reciprocals = [0; 64];
        for n in 2..64 {
            reciprocals[n] = reciprocal(n as u64);
        }
        Steps { reciprocals }
    }

    /// The reciprocal of `n`. It means nothing where `n` is 1.
    pub(crate) fn reciprocal(&self, n: u32) -> u64
        requires { 1 ≤ n }
        ensures { 2 ≤ n → result ≡ (2 ^ 64 - 1) / n + 1 }
    {
        if n < 64 {
            return self.reciprocals[n as usize];
        }
        reciprocal(u64::from(n))
    }
}

/// One of `n` equal parts of an offset, by the floor.
pub(crate) fn share(offset: i64, n: u32, reciprocal: u64) -> i64
    requires least { 2 ≤ n }
    requires most { n ≤ 75504 }
    requires offset { IsWithin (pos (302012452 * n)) offset }
    requires reciprocal { reciprocal ≡ (2 ^ 64 - 1) / n + 1 }
    ensures { result ≡ floor_div offset (pos n) }
{
    lowered(divided(raised(offset, n), n, reciprocal))
}

/// An offset, raised by `2^29` for each step so that it is not negative.
fn raised(offset: i64, n: u32) -> u64
    requires most { n ≤ 75504 }
    requires offset { IsWithin (pos (302012452 * n)) offset }
    ensures value { pos result ≡ offset +ℤ pos (n * 2 ^ 29) }
    ensures bound { result ≤ 2 ^ 30 * n }
{
    (offset + i64::from(n) * 0x2000_0000) as u64
}

fn divided(offset: u64, n: u32, reciprocal: u64) -> u64
    requires least { 2 ≤ n }
    requires most { n ≤ 75504 }
    requires offset { offset ≤ 2 ^ 30 * n }
    requires reciprocal { reciprocal ≡ (2 ^ 64 - 1) / n + 1 }
    ensures value { result ≡ offset / n }
    ensures bound { result ≤ 2 ^ 30 }
{
    quotient(offset, u64::from(n), reciprocal)
}

/// A share as it was before the offset was raised.
fn lowered(share: u64) -> i64
    requires { share ≤ 2 ^ 30 }
    ensures { result ≡ pos share -ℤ pos (2 ^ 29) }
{
    share as i64 - 0x2000_0000
}
