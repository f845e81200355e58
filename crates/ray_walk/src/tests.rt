use super::*;
use camera::{Camera, CameraFields};
use fixed_geom::{Pose, PoseRows, Vec3};
use std::test::Fail;
use voxel_block::BlockKey;

const ONE: i64 = 1 << 30;

const AT_ORIGIN: [i64; 9] = [ONE, 0, 0, 0, ONE, 0, 0, 0, ONE];

// Half a turn about the y axis.
const TURNED: [i64; 9] = [-ONE, 0, 0, 0, ONE, 0, 0, 0, -ONE];

const THIRD: i64 = 357913941;

// The entries are 1 and 2 thirds.
const SKEW: [i64; 9] = [
    THIRD,
    -2 * THIRD - 1,
    2 * THIRD + 1,
    2 * THIRD + 1,
    -THIRD,
    -2 * THIRD - 1,
    2 * THIRD + 1,
    2 * THIRD + 1,
    THIRD,
];

// 640 by 480 pixels of 525 pixels focal length, from 0.4 to 4 metres.
const VGA: CameraFields = CameraFields {
    width: 640,
    height: 480,
    fx: 34406400,
    fy: 34406400,
    cx: 20938752,
    cy: 15695872,
    unit: 1000,
    near: 400000,
    far: 4000000,
    voxel: 5000,
    mu: 20000,
    radius: 8000000,
    centre: 2000000,
};

// One pixel that looks along the z axis.
const AXIS: CameraFields = CameraFields {
    width: 1,
    height: 1,
    fx: 65536,
    fy: 65536,
    cx: 0,
    cy: 0,
    unit: 1000,
    near: 985000,
    far: 2000000,
    voxel: 10000,
    mu: 40000,
    radius: 5000000,
    centre: 1020000,
};

const ODD: CameraFields = CameraFields {
    voxel: 1001,
    far: 2000000,
    ..VGA
};

// What a frame may touch reaches to 17 metres on each axis, and the walks have 16000 points.
const WIDE: CameraFields = CameraFields {
    width: 2048,
    height: 2048,
    fx: 67141635,
    fy: 67141635,
    cx: 67108864,
    cy: 67108864,
    unit: 1000,
    near: 1000,
    far: 16000000,
    voxel: 1000,
    mu: 1000000,
    radius: 40000000,
    centre: 8000000,
};

// The least focal length and the least depth.
const SHORT: CameraFields = CameraFields {
    width: 1,
    height: 1,
    fx: 2,
    fy: 2,
    cx: 1,
    cy: 2,
    unit: 1,
    near: 1,
    far: 1,
    voxel: 1000,
    mu: 1000,
    radius: 100000000,
    centre: 0,
};

// The greatest focal length and voxel size.
const LONG: CameraFields = CameraFields {
    width: 2048,
    height: 2048,
    fx: ONE,
    fy: ONE,
    cx: 67108864,
    cy: 0,
    unit: 1000,
    near: 500000,
    far: 16000000,
    voxel: 100000,
    mu: 100000,
    radius: 40000000,
    centre: 8000000,
};

// Takes what threads can share.
fn is_shared<T: Send + Sync>(_value: &T) {}

// The voxel of a point, by the coordinates of its block and its index. `None` where there is no such point.
fn voxel_at(walks: &Walks, u: u32, v: u32, j: u32) -> Option<([i16; 3], u16)> {
    if i64::from(u) >= walks.fields.width || i64::from(v) >= walks.fields.height {
        return None;
    }
    if j >= point_count(&walks.fields) {
        return None;
    }
    let (BlockKey { x, y, z }, index) = walks.voxel(u, v, j);
    Some(([x, y, z], index))
}

#[test]
fn points_have_their_nearest_voxels(rt: HostRuntime) -> Result<(), Fail> {
    let cases = [
        // Nearest to 985000 is voxel 99, the greater one of two.
        (
            "in the middle of two",
            AXIS,
            AT_ORIGIN,
            [0, 0, 0],
            (0, 0, 0),
            ([0, 0, 12], 192),
        ),
        // And nearest to -985000 is voxel -98.
        (
            "in the middle of two below 0",
            AXIS,
            TURNED,
            [0, 0, 0],
            (0, 0, 0),
            ([0, 0, -13], 384),
        ),
        // The ray's point is (-1, -1, 1), since -1 / 2 is floored.
        (
            "least focal length",
            SHORT,
            AT_ORIGIN,
            [500, 500, 499],
            (0, 0, 0),
            ([0, 0, 0], 64),
        ),
        // By Python, with whole numbers of any size.
        (
            "first point",
            VGA,
            AT_ORIGIN,
            [0, 0, 0],
            (0, 0, 0),
            ([-7, -5, 10], 39),
        ),
        (
            "last point",
            VGA,
            AT_ORIGIN,
            [0, 0, 0],
            (639, 479, 720),
            ([60, 45, 100], 47),
        ),
        (
            "skew",
            VGA,
            SKEW,
            [-123456, 765432, 1],
            (100, 400, 300),
            ([12, -31, 12], 154),
        ),
        (
            "odd voxel size",
            ODD,
            SKEW,
            [-123457, -765432, 2000001],
            (639, 7, 1598),
            ([275, -124, 360], 331),
        ),
        (
            "near the origin",
            ODD,
            TURNED,
            [0, 0, 0],
            (320, 240, 123),
            ([0, 0, -66], 320),
        ),
        (
            "greatest reach",
            WIDE,
            AT_ORIGIN,
            [100000000, 100000000, 100000000],
            (0, 0, 15999),
            ([10501, 10501, 14500], 0),
        ),
        (
            "greatest reach below 0",
            WIDE,
            AT_ORIGIN,
            [-100000000, -100000000, -100000000],
            (2047, 0, 15999),
            ([-10503, -14499, -10500], 1),
        ),
        (
            "greatest reach, skew",
            WIDE,
            SKEW,
            [-100000000, -100000000, 100000000],
            (0, 2047, 15999),
            ([-13165, -15832, 13165], 213),
        ),
        (
            "greatest focal length",
            LONG,
            AT_ORIGIN,
            [0, 0, 0],
            (0, 2047, 155),
            ([-2, 2, 20], 38),
        ),
    ];
    for (name, fields, r, [x, y, z], (u, v, j), voxel) in cases {
        let camera = Camera::make(fields)?;
        let t = Vec3 { x, y, z };
        let pose = Pose::accept(&PoseRows { r, t })?;
        let walks = Walks::make(&camera, &pose);
        is_shared(&walks);
        assert_eq!(rt; voxel_at(&walks, u, v, j), Some(voxel), "{name}");
    }
    Ok(())
}
