//! One coordinate of the pixel that a point projects to, by an estimate that is tested by products.
ghost use Rattle.std.specs.Prelude.{◌≡◌, ◌^◌, ◌≤◌, ◌<◌, ◌↔◌, IsTrue, IfSome, Some, None, if◌then◌else◌, pos, negsuc, ◌+ℤ◌, ◌-ℤ◌, ◌*ℤ◌, ◌≤ℤ◌, ◌<ℤ◌, unsigned_abs};
ghost use Rattle.fixed_geom.specs.Division.{floor_div};
ghost use Rattle.fixed_geom.specs.Vectors.{IsWithin};
ghost use Rattle.camera.specs.Cameras.{pixel_axis as pixel_of, within};
ghost use Rattle.fuse_kernel.specs.Pixels.{raised_pixel};

/// What one coordinate of a camera's pixels is made of.
#[derive(Clone, Copy)]
pub(crate) struct PixelAxis {
    /// The number of pixels.
    pub(crate) size: usize,
    /// The focal length, in 1/65536 pixel.
    pub(crate) f: i64,
    /// The centre, in 1/65536 pixel.
    pub(crate) c: i64,
    ghost size_most: { size ≤ 2048 },
    ghost f_within: { IsWithin (pos (2 ^ 30)) f },
    ghost c_within: { IsWithin (pos (2 ^ 27)) c },
}

impl PixelAxis {
    pub(crate) fn of(size: usize, f: i64, c: i64) -> PixelAxis
        requires size { size ≤ 2048 }
        requires f { IsWithin (pos (2 ^ 30)) f }
        requires c { IsWithin (pos (2 ^ 27)) c }
        ensures size { result.size ≡ size }
        ensures f { result.f ≡ f }
        ensures c { result.c ≡ c }
    {
        PixelAxis { size, f, c }
    }

    /// The coordinate of the pixel nearest to where the point projects that is `x` from the axis at the depth `z`. `None`
    /// where that pixel is not one of the image's. Where the estimate is right no division is made.
    pub(crate) fn inside(&self, x: i64, z: i64, estimate: i16) -> Option<usize>
        requires x { IsWithin (pos (2 ^ 26)) x }
        requires z { IsWithin (pos (2 ^ 26)) z }
        requires front { pos 1 ≤ℤ z }
        ensures value { result ≡ (if within (pos 0) (pos self.now.size -ℤ pos 1) (pixel_of self.now.f self.now.c x z) then Some (unsigned_abs (pixel_of self.now.f self.now.c x z)) else None) }
        ensures bound { IfSome result (λ u. u < 2048) }
    {
        index_below(self.size, self.pixel(x, z, estimate))
    }

    /// The coordinate of that pixel, of the image or not.
    fn pixel(&self, x: i64, z: i64, estimate: i16) -> i64
        requires x { IsWithin (pos (2 ^ 26)) x }
        requires z { IsWithin (pos (2 ^ 26)) z }
        requires front { pos 1 ≤ℤ z }
        ensures { result ≡ pixel_of self.now.f self.now.c x z }
    {
        pixel(self.f, self.c + 32768, x, z, i64::from(estimate))
    }
}

/// The pixel as an index, where it is one of the first `size` ones.
fn index_below(size: usize, pixel: i64) -> Option<usize>
    requires { size ≤ 2048 }
    ensures value { result ≡ (if within (pos 0) (pos size -ℤ pos 1) pixel then Some (unsigned_abs pixel) else None) }
    ensures bound { IfSome result (λ u. u < 2048) }
{
    if is_below(size, pixel) {
        Some(pixel as usize)
    } else {
        None
    }
}

/// Whether a pixel is one of the first `size` ones, by one comparison without a sign.
fn is_below(size: usize, pixel: i64) -> bool
    requires { size ≤ 2048 }
    ensures { result ≡ within (pos 0) (pos size -ℤ pos 1) pixel }
{
    pixel.cast_unsigned() < size as u64
}

/// The pixel coordinate of a point before the camera, `k` being the centre and a half. No division is made where the
/// estimate is it.
fn pixel(f: i64, k: i64, x: i64, z: i64, estimate: i64) -> i64
    requires f { IsWithin (pos (2 ^ 30)) f }
    requires k { IsWithin (pos (2 ^ 28)) k }
    requires x { IsWithin (pos (2 ^ 26)) x }
    requires z { IsWithin (pos (2 ^ 26)) z }
    requires front { pos 1 ≤ℤ z }
    requires low { (negsuc 32767) ≤ℤ estimate }
    requires high { estimate ≤ℤ pos 32767 }
    ensures { result ≡ raised_pixel f k x z }
{
    if is_pixel(f, k, x, z, estimate) {
        return estimate;
    }
    divided(times(f, x) + times(k, z), z)
}

/// Whether a point is before the camera, and the estimate its pixel.
fn is_pixel(f: i64, k: i64, x: i64, z: i64, estimate: i64) -> bool
    requires f { IsWithin (pos (2 ^ 30)) f }
    requires k { IsWithin (pos (2 ^ 28)) k }
    requires x { IsWithin (pos (2 ^ 26)) x }
    requires z { IsWithin (pos (2 ^ 26)) z }
    requires low { (negsuc 32767) ≤ℤ estimate }
    requires high { estimate ≤ℤ pos 32767 }
    ensures { IsTrue result ↔ ((pos 1 ≤ℤ z) × (estimate ≡ raised_pixel f k x z)) }
{
    is_rest(rest(f, k, x, z, estimate), 65536 * z)
}

/// The rest of the division by which the estimate would be the pixel.
fn rest(f: i64, k: i64, x: i64, z: i64, estimate: i64) -> i64
    requires f { IsWithin (pos (2 ^ 30)) f }
    requires k { IsWithin (pos (2 ^ 28)) k }
    requires x { IsWithin (pos (2 ^ 26)) x }
    requires z { IsWithin (pos (2 ^ 26)) z }
    requires low { (negsuc 32767) ≤ℤ estimate }
    requires high { estimate ≤ℤ pos 32767 }
    ensures value { result ≡ (f *ℤ x) +ℤ ((k -ℤ pos 65536 *ℤ estimate) *ℤ z) }
    ensures bound { IsWithin (pos (2 ^ 59)) result }
{
    times(f, x) + times(offset(k, estimate), z)
}

/// The offset of the centre from the estimate.
fn offset(k: i64, estimate: i64) -> i64
    requires k { IsWithin (pos (2 ^ 28)) k }
    requires low { (negsuc 32767) ≤ℤ estimate }
    requires high { estimate ≤ℤ pos 32767 }
    ensures value { result ≡ k -ℤ pos 65536 *ℤ estimate }
    ensures bound { IsWithin (pos (2 ^ 32)) result }
{
    k - 65536 * estimate
}

fn times(a: i64, b: i64) -> i64
    requires a { IsWithin (pos (2 ^ 32)) a }
    requires b { IsWithin (pos (2 ^ 26)) b }
    ensures value { result ≡ a *ℤ b }
    ensures bound { IsWithin (pos (2 ^ 58)) result }
{
    a * b
}

/// Whether a number can be the rest of a division.
fn is_rest(rest: i64, by: i64) -> bool
    ensures { IsTrue result ↔ ((pos 0 ≤ℤ rest) × (rest <ℤ by)) }
{
    0 <= rest && rest < by
}

/// The floor of `a / 65536 z`, by a division.
#[cold]
#[inline(never)]
fn divided(a: i64, z: i64) -> i64
    requires z { IsWithin (pos (2 ^ 26)) z }
    requires front { pos 1 ≤ℤ z }
    ensures { result ≡ floor_div a (pos 65536 *ℤ z) }
{
    a.div_euclid(65536 * z)
}
