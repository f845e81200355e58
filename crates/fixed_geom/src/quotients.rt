//! Quotients of numbers from 0 on by a product with the reciprocal of the divisor, with no division (Granlund and
//! Montgomery 1994).
ghost use Rattle.std.specs.Prelude.{◌≡◌, ◌≤◌, ◌<◌, ◌+◌, ◌-◌, ◌*◌, ◌/◌, ◌^◌};

/// The reciprocal of `by`, in parts of `2^64`, rounded up.
pub fn reciprocal(by: u64) -> u64
    requires { 2 ≤ by }
    ensures { result ≡ (2 ^ 64 - 1) / by + 1 }
{
    u64::MAX / by + 1
}

/// The floor of `n / by`, by the reciprocal of `by`.
pub fn quotient(n: u64, by: u64, reciprocal: u64) -> u64
    requires least { 2 ≤ by }
    requires small { n * by < 2 ^ 64 }
    requires reciprocal { reciprocal ≡ (2 ^ 64 - 1) / by + 1 }
    ensures { result ≡ n / by }
{
    ((u128::from(n) * u128::from(reciprocal)) >> 64) as u64
}
