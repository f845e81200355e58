ghost use Rattle.std.specs.Prelude.{◌≡◌, ◌≤◌, ◌<◌, ◌+◌, ◌*◌, IsTrue};
ghost use Rattle.scan_gen.specs.Scene.{root as root_of};

use std::num::{nearest_u64_to_f64, saturating_f64_to_u64};

/// The greatest whole number whose square is at most `n`. It is estimated, and the estimate is tried.
pub(crate) fn root(n: u128) -> u64
    ensures { result ≡ root_of n }
{
    let high = nearest_u64_to_f64((n >> 64) as u64);
    let low = nearest_u64_to_f64((n % (1 << 64)) as u64);
    let estimate = saturating_f64_to_u64((high * 18446744073709551616.0 + low).sqrt());
    if is_root(estimate, n) {
        return estimate;
    }
    let below = estimate.saturating_sub(1);
    if is_root(below, n) {
        return below;
    }
    n.isqrt() as u64
}

/// Whether a number is the root of `n`.
fn is_root(estimate: u64, n: u128) -> bool
    ensures { IsTrue result → (estimate * estimate ≤ n) × (n < (estimate + 1) * (estimate + 1)) }
{
    let low = u128::from(estimate);
    if low == u128::from(u64::MAX) {
        return false;
    }
    let high = low + 1;
    low * low <= n && n < high * high
}
