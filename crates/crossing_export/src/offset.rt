ghost use Rattle.std.specs.Prelude.{◌≡◌, pos, ◌≤ℤ◌, ◌*ℤ◌, Some, IfSome};
ghost use Rattle.fixed_geom.specs.Division.{floor_div};
ghost use Rattle.crossing_export.specs.Crossings.{crossing_offset};

/// How far behind a voxel the crossing between it and the next one along an axis lies, by their known values. `None`
/// where one is not known, or where not exactly one of them is above 0.
pub(crate) fn offset(size: i64, here: Option<i16>, next: Option<i16>) -> Option<i64>
    requires size { pos 1 ≤ℤ size }
    requires size_high { size ≤ℤ pos 100000 }
    ensures value { result ≡ crossing_offset size here next }
    ensures low { IfSome result (λ d. pos 0 ≤ℤ d) }
    ensures high { IfSome result (λ d. d ≤ℤ size) }
{
    between(size, here?, next?)
}

/// The same by the two values.
fn between(size: i64, here: i16, next: i16) -> Option<i64>
    requires size { pos 1 ≤ℤ size }
    requires size_high { size ≤ℤ pos 100000 }
    ensures value { result ≡ crossing_offset size (Some here) (Some next) }
    ensures low { IfSome result (λ d. pos 0 ≤ℤ d) }
    ensures high { IfSome result (λ d. d ≤ℤ size) }
{
    let (f, g) = (i64::from(here), i64::from(next));
    match (f > 0, g > 0) {
        (true, false) => Some(share(size, f, f - g)),
        (false, true) => Some(share(size, -f, g - f)),
        _ => None,
    }
}

/// The floor of `size * part / whole`.
fn share(size: i64, part: i64, whole: i64) -> i64
    requires size { pos 1 ≤ℤ size }
    requires size_high { size ≤ℤ pos 100000 }
    requires part { pos 0 ≤ℤ part }
    requires part_high { part ≤ℤ whole }
    requires whole { pos 1 ≤ℤ whole }
    requires whole_high { whole ≤ℤ pos 65535 }
    ensures value { result ≡ floor_div (size *ℤ part) whole }
    ensures low { pos 0 ≤ℤ result }
    ensures high { result ≤ℤ size }
{
    (size * part).div_euclid(whole)
}
