ghost use Rattle.std.specs.Prelude.{◌<◌};

use super::*;
use camera::{Camera, CameraFields};
use depth_frame::DepthFrame;
use fixed_geom::{Pose, PoseRows, Vec3};
use std::alloc::Global;
use std::test::Fail;
use streamer::Rest;
use voxel_block::{BlockKey, Voxel};

const BASE: CameraFields = CameraFields {
    width: 1,
    height: 1,
    fx: 65536,
    fy: 65536,
    cx: 0,
    cy: 0,
    unit: 1000,
    near: 500000,
    far: 2000000,
    voxel: 10000,
    mu: 40000,
    radius: 5000000,
    centre: 1020000,
};

// The pose whose camera points are the world points.
const AT_ORIGIN: PoseRows = PoseRows {
    r: [1 << 30, 0, 0, 0, 1 << 30, 0, 0, 0, 1 << 30],
    t: Vec3 { x: 0, y: 0, z: 0 },
};

// A voxel by its coordinates in the whole grid, and its distance. Its weight is 1.
type Observed = ((i16, i16, i16), i16);

// The offset of a voxel coordinate in its block.
fn offset(coordinate: i16) -> u16
    ensures { result < 8 }
{
    coordinate.rem_euclid(8) as u16
}

// Observes a voxel. Its block is made, where there is none and a cell is free.
fn observe(rest: &mut Rest, voxel: Observed) {
    let ((x, y, z), f) = voxel;
    let key = BlockKey {
        x: x.div_euclid(8),
        y: y.div_euclid(8),
        z: z.div_euclid(8),
    };
    let i = offset(x) + 8 * offset(y) + 64 * offset(z);
    if !rest.contains(key) && rest.free_count() > 0 {
        rest.make_fresh(key);
    }
    if f == i16::MIN {
        return;
    }
    if let Some(block) = rest.lend_mut(key) {
        block.set(i, Voxel { f, w: 1 });
    }
}

// The picture of these voxels, and of blocks without observed voxels round them.
fn picture_of(
    alloc: Global,
    fields: CameraFields,
    rows: &PoseRows,
    voxels: &[Observed],
) -> Result<DepthFrame, Fail> {
    let camera = Camera::make(fields).map_err(|_| Fail::from("camera"))?;
    let pose = Pose::accept(rows).map_err(|_| Fail::from("pose"))?;
    let mut rest = Rest::make(alloc, 8, 1)?;
    for voxel in voxels {
        observe(&mut rest, *voxel);
    }
    Ok(render(alloc, &camera, &pose, &rest)?)
}

// One pixel that looks along the z axis. Point j of its walk is at depth 500000 + 10000 j, and its voxel is (0, 0, 50 + j).
#[test]
fn a_pixel_shows_the_first_surface(rt: HostRuntime) -> Result<(), Fail> {
    let cases: [(&str, CameraFields, [(i16, i16); 4], u16); 22] = [
        // 990000 + 10000 * 100 / 200.
        (
            "between two voxels",
            BASE,
            [(99, 100), (100, -100), (101, -100), (102, -100)],
            995,
        ),
        // What a frame of one wall at 1000000 leaves: 990000 + 10000.
        (
            "one wall",
            BASE,
            [(98, 16383), (99, 8191), (100, 0), (101, -8192)],
            1000,
        ),
        // What frames of walls at 1000000 and 1010000 leave: 1000000 + 10000 * 4096 / 8192.
        (
            "the mean of two walls",
            BASE,
            [(99, 12287), (100, 4096), (101, -4096), (102, -12288)],
            1005,
        ),
        // 990000 + 10000 / 3, which is 993333 and a third.
        (
            "a part of a micrometre",
            BASE,
            [(98, 2), (99, 1), (100, -2), (101, -2)],
            993,
        ),
        (
            "0 is a surface",
            BASE,
            [(98, 100), (99, 100), (100, 0), (101, -100)],
            1000,
        ),
        (
            "no surface",
            BASE,
            [(98, 100), (99, 100), (100, 1), (101, 1)],
            0,
        ),
        (
            "0 in front is no surface",
            BASE,
            [(98, 0), (99, 0), (100, -1), (101, -100)],
            0,
        ),
        // 500000 + 10000 * 100 / 400.
        (
            "the first step",
            BASE,
            [(50, 100), (51, -300), (52, -300), (53, -300)],
            502,
        ),
        (
            "before the first point",
            BASE,
            [(48, 100), (49, 100), (50, -100), (51, -100)],
            0,
        ),
        (
            "the last step",
            BASE,
            [(198, 1), (199, 1), (200, 0), (201, -100)],
            2000,
        ),
        (
            "after the last point",
            BASE,
            [(198, 1), (199, 1), (200, 1), (201, -100)],
            0,
        ),
        (
            "near is far",
            CameraFields {
                near: 1000000,
                far: 1000000,
                ..BASE
            },
            [(99, 100), (100, 100), (101, -100), (102, -100)],
            0,
        ),
        // The second of two points is at depth 995000, so at voxel 100 and not 99.
        (
            "far is no whole number of steps behind near",
            CameraFields {
                near: 985000,
                far: 1004999,
                ..BASE
            },
            [(98, 100), (99, 100), (100, -100), (101, -100)],
            990,
        ),
        (
            "an unobserved voxel between",
            BASE,
            [(97, 100), (98, 100), (100, -100), (101, -100)],
            0,
        ),
        (
            "an unobserved voxel in front",
            BASE,
            [(100, -100), (101, -100), (102, -100), (103, -100)],
            0,
        ),
        (
            "an absent block behind",
            BASE,
            [(100, 100), (101, 100), (102, 100), (103, 100)],
            0,
        ),
        // 1000000 + 10000 * 100 / 200.
        (
            "the back of a surface",
            BASE,
            [(98, -100), (99, -100), (100, 100), (101, -100)],
            1005,
        ),
        // 800000 + 10000 * 100 / 200.
        (
            "the first of two",
            BASE,
            [(80, 100), (81, -100), (99, 100), (100, -100)],
            805,
        ),
        // 650000 + 10000 * 5349 / 10000.
        (
            "below the greatest sample",
            CameraFields { unit: 10, ..BASE },
            [(64, 5349), (65, 5349), (66, -4651), (67, -1)],
            65534,
        ),
        (
            "the greatest sample",
            CameraFields { unit: 10, ..BASE },
            [(64, 5350), (65, 5350), (66, -4650), (67, -1)],
            65535,
        ),
        (
            "cut off",
            CameraFields { unit: 10, ..BASE },
            [(64, 5360), (65, 5360), (66, -4640), (67, -1)],
            65535,
        ),
        (
            "far past the greatest sample",
            CameraFields { unit: 1, ..BASE },
            [(197, 1), (198, 1), (199, 1), (200, 0)],
            65535,
        ),
    ];
    for (name, camera, values, sample) in cases {
        let voxels = values.map(|(z, f)| ((0, 0, z), f));
        let picture = picture_of(rt.alloc(), camera, &AT_ORIGIN, &voxels)?;
        assert_eq!(rt; picture.samples(), [sample].as_slice(), "{name}");
    }
    Ok(())
}

// The ray of pixel (1, 0) goes through (z, 0, z), and that of (0, 1) through (0, z, z).
#[test]
fn a_picture_has_its_pixels_row_by_row(rt: HostRuntime) -> Result<(), Fail> {
    let camera = CameraFields {
        width: 2,
        height: 2,
        ..BASE
    };
    let voxels = [
        ((0, 0, 99), 100),
        ((0, 0, 100), -100),
        ((99, 0, 99), 100),
        ((100, 0, 100), -300),
        ((0, 79, 79), 100),
        ((0, 80, 80), 0),
    ];
    let picture = picture_of(rt.alloc(), camera, &AT_ORIGIN, &voxels)?;
    assert_eq!(rt; picture.width(), 2);
    assert_eq!(rt; picture.height(), 2);
    assert_eq!(rt; picture.samples(), [995, 992, 800, 0].as_slice());
    Ok(())
}

// The world points of pixel (1, 0) have the x coordinate 7508 where the depth is even, and 7507 where it is odd, since the
// ray is floored to half the depth. So the points lie in block 1 and in block 0 by turns. Point 15 is at depth 515015 in
// voxel (7, 0, 575), and point 16 in voxel (8, 0, 576). Blocks (1, 0, 71) and (0, 0, 72), of which the points round them
// read voxels too, are absent.
#[test]
fn a_ray_leaves_a_block_and_comes_back(rt: HostRuntime) -> Result<(), Fail> {
    let camera = CameraFields {
        width: 2,
        fx: 131072,
        voxel: 1001,
        ..BASE
    };
    let one = 480191942;
    let rows = PoseRows {
        r: [2 * one, 0, -one, 0, 1 << 30, 0, one, 0, 2 * one],
        t: Vec3 {
            x: 7508,
            y: 0,
            z: 0,
        },
    };
    let voxels = [((7, 0, 575), 100), ((8, 0, 576), -100)];
    let picture = picture_of(rt.alloc(), camera, &rows, &voxels)?;
    assert_eq!(rt; picture.samples(), [0, 515].as_slice());
    Ok(())
}

// The pixel looks along the z axis, the other way. The voxel nearest to -985000, in the middle of two, is -98.
#[test]
fn points_read_the_nearest_voxel(rt: HostRuntime) -> Result<(), Fail> {
    let one = 1 << 30;
    let rows = PoseRows {
        r: [-one, 0, 0, 0, one, 0, 0, 0, -one],
        t: Vec3 { x: 0, y: 0, z: 0 },
    };
    let cases = [
        // 990000 + 10000 * 100 / 200.
        ("at a voxel", 500000, [(-99, 100), (-100, -100)], 995),
        // 985000 + 10000 * 100 / 400.
        (
            "in the middle of two",
            985000,
            [(-98, 100), (-99, -300)],
            987,
        ),
    ];
    for (name, near, values, sample) in cases {
        let camera = CameraFields { near, ..BASE };
        let voxels = values.map(|(z, f)| ((0, 0, z), f));
        let picture = picture_of(rt.alloc(), camera, &rows, &voxels)?;
        assert_eq!(rt; picture.samples(), [sample].as_slice(), "{name}");
    }
    Ok(())
}
