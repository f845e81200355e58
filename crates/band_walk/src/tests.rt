ghost use Rattle.std.specs.Prelude.{◌≡◌, ◌<◌, ◌*◌, pos, IfOk, vec_len, length};
ghost use Rattle.band_walk.specs.BandViews.{view_of_band};
ghost use Rattle.band_walk.specs.Bands.{row_keys};

use crate::side::BlockSide;
use crate::steps::{Steps, share};
use crate::{Band, BandWalk, Memo};
use camera::{Camera, CameraFields, Slopes};
use depth_frame::DepthFrame;
use fixed_geom::{Pose, PoseRows, Vec3};
use std::alloc::{AllocError, Global};
use voxel_block::BlockKey;

const ONE: i64 = 1 << 30;

const AHEAD: [i64; 9] = [ONE, 0, 0, 0, ONE, 0, 0, 0, ONE];

// Half a turn round the vertical axis.
const BACK: [i64; 9] = [-ONE, 0, 0, 0, ONE, 0, 0, 0, -ONE];

// One pixel that looks along the axis, voxels of 1 cm and a truncation distance of 4 cm.
const PIXEL: CameraFields = CameraFields {
    width: 1,
    height: 1,
    fx: 65536,
    fy: 65536,
    cx: 0,
    cy: 0,
    unit: 1000,
    near: 500000,
    far: 2000000,
    voxel: 10000,
    mu: 40000,
    radius: 2100000,
    centre: 1020000,
};

// The same pixel, which sees from 1 mm on and has a truncation distance of 10 cm.
const NEAR_PIXEL: CameraFields = CameraFields {
    near: 1000,
    mu: 100000,
    radius: 2300000,
    centre: 1050000,
    ..PIXEL
};

// The same pixel with voxels of 1 millimetre and a truncation distance of 30 cm, so that its segments have many steps.
const FINE: CameraFields = CameraFields {
    voxel: 1000,
    mu: 300000,
    radius: 2600000,
    centre: 1150000,
    ..PIXEL
};

// Two pixels, the second of which looks an eighth of a turn to the side.
const WIDE: CameraFields = CameraFields {
    width: 2,
    radius: 4000000,
    ..PIXEL
};

// Two rows of two pixels whose rays differ by a thousandth, and so pass through the same blocks.
const NARROW: CameraFields = CameraFields {
    width: 2,
    height: 2,
    fx: 65536000,
    fy: 65536000,
    radius: 4000000,
    ..PIXEL
};

// The keys of a row.
fn collected(alloc: Global, band: &Band<'_>, v: u32) -> Result<Vec<BlockKey>, AllocError>
    requires { v < band.now.frame.now.height }
    ensures { IfOk result (λ keys. keys.items ≡ row_keys (view_of_band band.now) v) }
{
    let mut keys = Vec::new(alloc);
    for key in BandWalk::over(band, v) {
        keys.push(key)?;
    }
    Ok(keys)
}

// The keys of row `v` of the samples, taken from the origin, each as often as it comes; and what a memo makes of the row:
// its keys, those that come again with the same memo, and those that come again once it is cleared. `None` where the
// camera or the pose is refused, or out of memory.
fn keys(
    alloc: Global,
    fields: CameraFields,
    r: [i64; 9],
    width: u32,
    height: u32,
    samples: &[u16],
    v: u32,
) -> Option<[Vec<BlockKey>; 4]>
    requires width { fields.width ≡ pos width }
    requires height { fields.height ≡ pos height }
    requires samples { length samples.now ≡ width * height }
    requires row { v < height }
{
    let Ok(camera) = Camera::make(fields) else {
        return None;
    };
    let t = Vec3 { x: 0, y: 0, z: 0 };
    let pose = Pose::accept(&PoseRows { r, t }).ok()?;
    let raw = Vec::from_slice(alloc, samples).ok()?;
    let frame = DepthFrame::make(width, height, raw);
    let Ok(slopes) = Slopes::make(alloc, &camera) else {
        return None;
    };
    let band = Band::of(&camera, &pose, &slopes, &frame);
    let walked = collected(alloc, &band, v).ok()?;
    let mut memo = Memo::make(alloc).ok()?;
    let (mut new, mut again, mut cleared) = (Vec::new(alloc), Vec::new(alloc), Vec::new(alloc));
    band.new_keys(v, &mut memo, &mut new).ok()?;
    band.new_keys(v, &mut memo, &mut again).ok()?;
    memo.clear();
    band.new_keys(v, &mut memo, &mut cleared).ok()?;
    Some([walked, new, again, cleared])
}

// Whether these are the keys of a row, with what a memo makes of it: each key once, none again, and each once again.
fn same(
    keys: Option<[Vec<BlockKey>; 4]>,
    expected: &[(i16, i16, i16)],
    once: &[(i16, i16, i16)],
) -> bool {
    match keys {
        Some([walked, new, again, cleared]) => {
            are(&walked, expected) && are(&new, once) && are(&again, &[]) && are(&cleared, once)
        }
        None => false,
    }
}

fn are(keys: &Vec<BlockKey>, expected: &[(i16, i16, i16)]) -> bool {
    keys.len() == expected.len()
        && keys.iter().zip(expected).all(|(key, (x, y, z))| key.x == *x
            && key.y == *y
            && key.z == *z)
}

#[test]
fn keys_of_rows(rt: HostRuntime) {
    let alloc = rt.alloc();
    for (name, r, sample, expected) in [
        ("ahead", AHEAD, 1000, [(0, 0, 12), (0, 0, 13)].as_slice()),
        ("no depth", AHEAD, 0, &[]),
        ("before the nearest depth", AHEAD, 499, &[]),
        ("the nearest depth", AHEAD, 500, &[(0, 0, 5), (0, 0, 6)]),
        ("the greatest depth", AHEAD, 2000, &[(0, 0, 24), (0, 0, 25)]),
        ("after the greatest depth", AHEAD, 2001, &[]),
        ("half a turn", BACK, 1000, &[(0, 0, -12), (0, 0, -13)]),
    ] {
        let found = keys(alloc, PIXEL, r, 1, 1, &[sample], 0);
        assert!(rt; same(found, expected, expected), "{}", name);
    }
    let found = keys(alloc, NEAR_PIXEL, AHEAD, 1, 1, &[1], 0);
    assert!(rt;
        same(found, &[(0, 0, 0), (0, 0, 1)], &[(0, 0, 0), (0, 0, 1)]),
        "from the camera on"
    );
    for (name, samples, expected) in [
        (
            "the second pixel",
            [0, 1000],
            [(12, 0, 12), (13, 0, 13)].as_slice(),
        ),
        (
            "both pixels",
            [1000, 1000],
            &[(0, 0, 12), (0, 0, 13), (12, 0, 12), (13, 0, 13)],
        ),
    ] {
        let found = keys(alloc, WIDE, AHEAD, 2, 1, &samples, 0);
        assert!(rt; same(found, expected, expected), "{}", name);
    }
    for (name, samples, v, expected, once) in [
        (
            "a repeat left out between two pixels",
            [1000, 1080, 0, 0],
            0,
            [(0, 0, 12), (0, 0, 13), (0, 0, 14)].as_slice(),
            [(0, 0, 12), (0, 0, 13), (0, 0, 14)].as_slice(),
        ),
        (
            "the same keys again",
            [1000, 1000, 0, 0],
            0,
            &[(0, 0, 12), (0, 0, 13), (0, 0, 12), (0, 0, 13)],
            [(0, 0, 12), (0, 0, 13)].as_slice(),
        ),
        (
            "a row begins with the last key of the row before",
            [1000, 0, 1080, 0],
            1,
            &[(0, 0, 13), (0, 0, 14)],
            &[(0, 0, 13), (0, 0, 14)],
        ),
    ] {
        let found = keys(alloc, NARROW, AHEAD, 2, 2, &samples, v);
        assert!(rt; same(found, expected, once), "{}", name);
    }
}

// Whether these keys lie on the axis, one after the other from the first one to the last one.
fn are_in_line(keys: &Vec<BlockKey>, first: i16, step: i16, count: usize) -> bool {
    let mut z = first;
    for key in keys {
        if key.x != 0 || key.y != 0 || key.z != z {
            return false;
        }
        z = z.wrapping_add(step);
    }
    keys.len() == count
}

#[test]
fn long_segments_have_each_block(rt: HostRuntime) {
    // From 70 to 130 cm, by 151 steps over blocks of 8 millimetres.
    for (name, r, first, step) in [("ahead", AHEAD, 87, 1), ("half a turn", BACK, -88, -1)] {
        match keys(rt.alloc(), FINE, r, 1, 1, &[1000], 0) {
            // 16 blocks in line have slots of their own, so each of these has lost its slot when it comes again.
            Some([walked, new, again, cleared]) => {
                for found in [walked, new, again, cleared] {
                    assert!(rt; are_in_line(&found, first, step, 76), "{}", name);
                }
            }
            None => assert!(rt; false, "{}", name),
        }
    }
}

// The block of a point on the first axis.
fn block_on_axis(side: BlockSide, x: i64) -> Option<i16> {
    if x < -151_006_226 || x > 151_006_226 {
        return None;
    }
    let key = side.block_at(Vec3 { x, y: 0, z: 0 }).key();
    Some(key.x)
}

#[test]
fn points_at_the_sides_of_blocks(rt: HostRuntime) {
    let (fine, coarse) = (BlockSide::of(1000), BlockSide::of(100000));
    for (name, side, x, expected) in [
        ("the origin", fine, 0, 0),
        ("before a side", fine, 7999, 0),
        ("at a side", fine, 8000, 1),
        ("below 0", fine, -1, -1),
        ("at a side below 0", fine, -8000, -1),
        ("after a side below 0", fine, -8001, -2),
        ("the farthest point", fine, 151_006_226, 18875),
        ("the farthest point below 0", fine, -151_006_226, -18876),
        ("before a side of a large block", coarse, 799_999, 0),
        ("at a side of a large block", coarse, 800_000, 1),
        ("below 0, in a large block", coarse, -1, -1),
    ] {
        assert_eq!(rt; block_on_axis(side, x), Some(expected), "{}", name);
    }
}

// One of `n` equal parts of an offset.
fn part(steps: &Steps, offset: i64, n: u32) -> Option<i64> {
    if n < 2 || n > 75504 {
        return None;
    }
    let most = 302_012_452 * i64::from(n);
    if offset < -most || offset > most {
        return None;
    }
    Some(share(offset, n, steps.reciprocal(n)))
}

#[test]
fn shares_go_down(rt: HostRuntime) {
    let steps = Steps::make();
    for (name, offset, n, expected) in [
        ("nothing", 0, 2, 0),
        ("a half", 7, 2, 3),
        ("a half below 0", -7, 2, -4),
        ("a whole number below 0", -9, 3, -3),
        ("just less below 0", -10, 3, -4),
        ("63 steps", 62, 63, 0),
        ("64 steps", 64, 64, 1),
        ("64 steps below 0", -1, 64, -1),
        (
            "the longest offset",
            302_012_452 * 75504,
            75504,
            302_012_452,
        ),
        ("one less", 302_012_452 * 75504 - 1, 75504, 302_012_451),
        (
            "the longest offset below 0",
            -302_012_452 * 75504,
            75504,
            -302_012_452,
        ),
    ] {
        assert_eq!(rt; part(&steps, offset, n), Some(expected), "{}", name);
    }
}
