ghost use Rattle.std.specs.Prelude.{◌≡◌, ◌^◌, pos, ◌≤ℤ◌, ◌*ℤ◌, ◌+ℤ◌};
ghost use Rattle.fixed_geom.specs.Division.{IsFloor, floor_div as floor_of, round_div as nearest_of};
ghost use Rattle.fixed_geom.specs.Vectors.{IsWithin};

/// The floor of `a / b`.
pub fn floor_div(a: i128, b: i128) -> i128
    requires dividend { IsWithin (pos (2 ^ 125)) a }
    requires positive { pos 1 ≤ℤ b }
    requires divisor { b ≤ℤ pos (2 ^ 125) }
    ensures value { result ≡ floor_of a b }
    ensures floor { IsFloor a b result }
{
    a.div_euclid(b)
}

/// The whole number nearest to `a / b`, the greater one where two are equally near.
pub fn round_div(a: i128, b: i128) -> i128
    requires dividend { IsWithin (pos (2 ^ 125)) a }
    requires positive { pos 1 ≤ℤ b }
    requires divisor { b ≤ℤ pos (2 ^ 125) }
    ensures value { result ≡ nearest_of a b }
    ensures floor { IsFloor (pos 2 *ℤ a +ℤ b) (pos 2 *ℤ b) result }
{
    (2 * a + b).div_euclid(2 * b)
}
