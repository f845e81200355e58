ghost use Rattle.std.specs.Prelude.{◌≡◌, ◌+◌, ◌-◌, ◌*◌, ◌/◌, ◌%◌, ◌^◌, ◌≤◌, pos, ◌-ℤ◌};
ghost use Rattle.fixed_geom.specs.Vectors.{IsWithin};
ghost use Rattle.scan_gen.specs.Scene.{IsInScene, ball_of as ball_of_seed, next_number as next_number_of, number_at};

use fixed_geom::Vec3;

/// The ball of a scene, in micrometres.
#[derive(Clone, Copy)]
pub(crate) struct Ball {
    pub(crate) centre: Vec3,
    pub(crate) radius: u32,
}

/// The ball of a seed.
pub(crate) fn ball_of(seed: u32) -> Ball
    ensures value { result ≡ ball_of_seed seed }
    ensures scene { IsInScene result }
{
    let first = next_number(u64::from(seed));
    let second = next_number(first);
    let third = next_number(second);
    let fourth = next_number(third);
    Ball {
        centre: Vec3 {
            x: centred(drawn(first, 800_001), 400_000),
            y: centred(drawn(second, 400_001), 200_000),
            z: i64::from(1_500_000 + drawn(third, 400_001)),
        },
        radius: 200_000 + drawn(fourth, 200_001),
    }
}

/// The number after `x`.
fn next_number(x: u64) -> u64
    ensures { result ≡ next_number_of x }
{
    ((6_364_136_223_846_793_005 * u128::from(x) + 1_442_695_040_888_963_407) % (1 << 64)) as u64
}

/// A number less than `count`, from the high bits of `x`.
fn drawn(x: u64, count: u32) -> u32
    requires { 1 ≤ count }
    ensures value { result ≡ x / 2 ^ 33 % count }
    ensures bound { result + 1 ≤ count }
{
    ((x >> 33) % u64::from(count)) as u32
}

/// `n` less `half`.
fn centred(n: u32, half: u32) -> i64
    requires n { n ≤ 2 * half }
    requires half { half ≤ 400000 }
    ensures value { result ≡ pos n -ℤ pos half }
    ensures bound { IsWithin (pos half) result }
{
    i64::from(n) - i64::from(half)
}
