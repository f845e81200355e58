ghost use Rattle.std.specs.Prelude.{◌≡◌, ◌^◌, pos, ◌≤ℤ◌, ◌*ℤ◌};
ghost use Rattle.fixed_geom.specs.Division.{floor_div as floor_of};
ghost use Rattle.fixed_geom.specs.Vectors.{IsWithin};

/// The floor of `a / b`.
pub(crate) fn floor_div(a: i64, b: i64) -> i64
    requires dividend { pos 0 ≤ℤ a }
    requires divisor { pos 1 ≤ℤ b }
    ensures { result ≡ floor_of a b }
{
    a.div_euclid(b)
}

/// The size of a voxel, `n` times.
pub(crate) fn times(size: i64, n: i64) -> i64
    requires size { IsWithin (pos 100000) size }
    requires n { IsWithin (pos 32768) n }
    ensures value { result ≡ size *ℤ n }
    ensures bound { IsWithin (pos (2 ^ 32)) result }
{
    size * n
}
