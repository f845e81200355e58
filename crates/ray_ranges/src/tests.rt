ghost use Rattle.std.specs.Prelude.{◌≡◌, ◌<◌, ◌^◌, pos, IfOk};

use super::*;
use camera::{Camera, CameraFields};
use fixed_geom::{Pose, PoseRows, Vec3};
use std::alloc::Global;
use std::test::Fail;
use voxel_block::BlockKey;

const ONE: i64 = 1 << 30;

const AHEAD: [i64; 9] = [ONE, 0, 0, 0, ONE, 0, 0, 0, ONE];

// A quarter of a turn to the right.
const RIGHT: [i64; 9] = [0, 0, ONE, 0, ONE, 0, -ONE, 0, 0];

// An image of 16 by 16 pixels, and walks of 151 points from 0.5 to 2 metres through voxels of 1 cm.
const BASE: CameraFields = CameraFields {
    width: 16,
    height: 16,
    fx: 1048576,
    fy: 1048576,
    cx: 491520,
    cy: 491520,
    unit: 1000,
    near: 500000,
    far: 2000000,
    voxel: 10000,
    mu: 40000,
    radius: 2100000,
    centre: 1020000,
};

// A tile of three slabs.
const EMPTY: [PointRange; 3] = [NONE; 3];

const NONE: PointRange = PointRange {
    first: 65535,
    last: 0,
};

const fn range(first: u16, last: u16) -> PointRange {
    PointRange { first, last }
}

const fn key(x: i16, y: i16, z: i16) -> BlockKey {
    BlockKey { x, y, z }
}

fn pose(r: [i64; 9], x: i64, y: i64) -> Result<Pose, Fail> {
    let rows = PoseRows {
        r,
        t: Vec3 { x, y, z: 0 },
    };
    Pose::accept(&rows).map_err(|_| Fail::from("pose"))
}

fn camera(fields: CameraFields) -> Result<Camera, Fail>
    ensures { IfOk result (λ c. c ≡ fields) }
{
    Camera::make(fields).map_err(|_| Fail::from("camera"))
}

// The ranges of one part.
fn ranges_of(alloc: Global, pose: &Pose, key: BlockKey, part: u16) -> Result<Ranges, Fail>
    requires { part < 8 }
    ensures { IfOk result (λ r. (r.camera.width ≡ pos 16) × (r.camera.height ≡ pos 16)) }
{
    let mut ranges = Ranges::make(alloc, &camera(BASE)?, pose)?;
    ranges.add(key, part);
    Ok(ranges)
}

#[test]
fn parts_are_projected(rt: HostRuntime) -> Result<(), Fail> {
    let alloc = rt.alloc();
    let one = [NONE, range(66, 69), NONE];
    let cases = [
        // The lowest part of a block ahead, and the highest one.
        (key(0, 0, 14), 0, 0, 7, [range(62, 63), range(64, 65), NONE]),
        (
            key(0, 0, 14),
            0,
            15,
            8,
            [range(62, 63), range(64, 65), NONE],
        ),
        (key(0, 0, 14), 7, 7, 15, one),
        // A part whose bits differ.
        (key(2, -2, 14), 5, 7, 7, EMPTY),
        (key(2, -2, 14), 5, 8, 0, one),
        (key(2, -2, 14), 5, 8, 8, EMPTY),
        // A block at the left and the bottom.
        (key(-4, 3, 19), 2, 0, 15, [NONE, range(102, 105), NONE]),
        (key(-4, 3, 19), 2, 8, 15, EMPTY),
        // A part at the nearest points: the first one of a walk is in no range.
        (key(0, 0, 6), 0, 8, 8, [range(1, 1), NONE, NONE]),
        // Blocks behind the camera, at its side, and where no walk reads.
        (key(0, 0, -14), 0, 8, 8, EMPTY),
        (key(40, 0, 14), 0, 8, 8, EMPTY),
        (key(32767, 0, 14), 0, 8, 8, EMPTY),
    ];
    let pose = pose(AHEAD, 0, 0)?;
    for (key, part, u, v, want) in cases {
        assert!(rt; part < 8 && u < 16 && v < 16);
        let ranges = ranges_of(alloc, &pose, key, part)?;
        assert_eq!(rt;
            ranges.tile(u, v),
            want.as_slice(),
            "part {part} of {key:?} at {u} {v}"
        );
    }
    Ok(())
}

#[test]
fn parts_are_seen_from_a_turned_pose(rt: HostRuntime) -> Result<(), Fail> {
    let pose = pose(RIGHT, 100000, -50000)?;
    let ranges = ranges_of(rt.alloc(), &pose, key(14, 0, 0), 2)?;
    assert_eq!(rt; ranges.tile(7, 8), [range(52, 55), NONE, NONE].as_slice());
    assert_eq!(rt; ranges.tile(8, 8), EMPTY.as_slice());
    assert_eq!(rt; ranges.tile(7, 7), EMPTY.as_slice());
    Ok(())
}

#[test]
fn ranges_grow(rt: HostRuntime) -> Result<(), Fail> {
    let pose = pose(AHEAD, 0, 0)?;
    let mut ranges = Ranges::make(rt.alloc(), &camera(BASE)?, &pose)?;
    assert_eq!(rt; ranges.tile(0, 0), EMPTY.as_slice());
    ranges.add(key(0, 0, 14), 0);
    ranges.add(key(0, 0, 24), 7);
    ranges.add(key(0, 0, 14), 4);
    let want = [range(62, 63), range(64, 69), range(146, 149)];
    assert_eq!(rt; ranges.tile(0, 0), want.as_slice());
    Ok(())
}

#[test]
fn slabs_grow_with_the_walk(rt: HostRuntime) -> Result<(), Fail> {
    let pose = pose(AHEAD, 0, 0)?;
    let cases = [
        ("151 points", 10000, 2000000, 64),
        ("2048 points", 1000, 2547999, 64),
        ("2049 points", 1000, 2548000, 128),
        ("4097 points", 1000, 4596000, 256),
        ("8192 points", 1000, 8691999, 256),
        ("8193 points", 1000, 8692000, 512),
    ];
    for (name, voxel, far, slab) in cases {
        let fields = CameraFields {
            voxel,
            far,
            radius: 20000000,
            centre: 1020000,
            ..BASE
        };
        let ranges = Ranges::make(rt.alloc(), &camera(fields)?, &pose)?;
        assert_eq!(rt; ranges.slab(), slab, "{name}");
    }
    Ok(())
}
