ghost use Rattle.std.specs.Prelude.{◌≡◌, ◌^◌, pos};
ghost use Rattle.fixed_geom.specs.Vectors.{AreWithin, IsWithin};
ghost use Rattle.camera.specs.Cameras.{max_depth};

use super::*;
use fixed_geom::{Pose, PoseRows, Vec3};
use std::test::Fail;
use voxel_block::{BlockKey, ChunkKey};

const BASE: CameraFields = CameraFields {
    width: 1,
    height: 1,
    fx: 65536,
    fy: 65536,
    cx: 0,
    cy: 0,
    unit: 1000,
    near: 500000,
    far: 2000000,
    voxel: 10000,
    mu: 40000,
    radius: 2100000,
    centre: 1020000,
};

fn point(x: i64, y: i64, z: i64) -> Vec3
    requires x { IsWithin (pos (2 ^ 40)) x }
    requires y { IsWithin (pos (2 ^ 40)) y }
    requires z { IsWithin (pos (2 ^ 40)) z }
    ensures { AreWithin (pos (2 ^ 40)) result }
{
    Vec3 { x, y, z }
}

// Takes what threads can share.
fn is_shared<T: Send + Sync>(_value: &T) {}

fn key(x: i16, y: i16, z: i16) -> BlockKey {
    BlockKey { x, y, z }
}

// The pose whose camera points are the world points.
fn at_origin() -> Result<Pose, Fail> {
    let one = 1 << 30;
    let rows = PoseRows {
        r: [one, 0, 0, 0, one, 0, 0, 0, one],
        t: point(0, 0, 0),
    };
    Pose::accept(&rows).map_err(|_| Fail::from("pose"))
}

#[test]
fn fields_are_judged(rt: HostRuntime) {
    let cases = [
        ("base", BASE, None),
        (
            "voxel size below 1 millimetre",
            CameraFields { voxel: 999, ..BASE },
            Some(BadCamera::Field(11)),
        ),
        (
            "reach past 17 metres",
            CameraFields { fx: 1, ..BASE },
            Some(BadCamera::Reach),
        ),
        (
            "radius one too small",
            CameraFields {
                radius: 2016108,
                ..BASE
            },
            Some(BadCamera::Sphere),
        ),
        (
            "least radius",
            CameraFields {
                radius: 2016109,
                ..BASE
            },
            None,
        ),
        (
            "no width",
            CameraFields { width: 0, ..BASE },
            Some(BadCamera::Field(2)),
        ),
        (
            "width past 2048",
            CameraFields {
                width: 2049,
                ..BASE
            },
            Some(BadCamera::Field(2)),
        ),
        (
            "least number as width",
            CameraFields {
                width: i64::MIN,
                ..BASE
            },
            Some(BadCamera::Field(2)),
        ),
        (
            "centre past the width",
            CameraFields { cx: 65537, ..BASE },
            Some(BadCamera::Field(6)),
        ),
        (
            "least number as centre",
            CameraFields {
                cx: i64::MIN,
                ..BASE
            },
            Some(BadCamera::Field(6)),
        ),
        (
            "nearest depth 0",
            CameraFields { near: 0, ..BASE },
            Some(BadCamera::Field(9)),
        ),
        (
            "far before near",
            CameraFields {
                far: 499999,
                ..BASE
            },
            Some(BadCamera::Field(10)),
        ),
        (
            "truncation distance below the voxel size",
            CameraFields { mu: 9999, ..BASE },
            Some(BadCamera::Field(12)),
        ),
        (
            "no radius",
            CameraFields { radius: 0, ..BASE },
            Some(BadCamera::Field(13)),
        ),
        (
            "centre past 17 metres",
            CameraFields {
                centre: 17000001,
                ..BASE
            },
            Some(BadCamera::Field(14)),
        ),
        (
            "a field before the reach",
            CameraFields {
                fx: 1,
                voxel: 999,
                ..BASE
            },
            Some(BadCamera::Field(11)),
        ),
    ];
    for (name, fields, refused) in cases {
        assert_eq!(rt; Camera::make(fields).err(), refused, "{name}");
    }
}

#[test]
fn a_camera_takes_depths_and_pixels(rt: HostRuntime) -> Result<(), BadCamera> {
    let camera = Camera::make(BASE)?;
    assert_eq!(rt; camera.fields(), BASE);
    is_shared(&camera);
    is_shared(&BASE);
    for (name, raw, depth) in [
        ("no sample", 0, None),
        ("before near", 499, None),
        ("near", 500, Some(500000)),
        ("far", 2000, Some(2000000)),
        ("past far", 2001, None),
    ] {
        assert_eq!(rt; camera.depth(raw), depth, "{name}");
    }
    let ahead = Vec3 {
        x: 0,
        y: 0,
        z: 1000000,
    };
    let beside = Vec3 {
        x: 1000000,
        y: 0,
        z: 1000000,
    };
    let at_camera = Vec3 { x: 0, y: 0, z: 0 };
    assert_eq!(rt; camera.project(ahead), Some((0, 0)));
    assert_eq!(rt; camera.project(beside), None);
    assert_eq!(rt; camera.project(at_camera), None);
    assert_eq!(rt; camera.ray(0, 0, 1000000), ahead);
    Ok(())
}

// The point that slopes of 4 by 4 pixels give. `None` where there is no such pixel or depth.
fn point_of(slopes: &Slopes, u: u32, v: u32, z: i64) -> Option<Vec3>
    requires width { slopes.now.fields.width ≡ pos 4 }
    requires height { slopes.now.fields.height ≡ pos 4 }
    requires depth { max_depth slopes.now.fields ≡ pos 2040000 }
{
    if u >= 4 || v >= 4 || z < 1 || z > 2040000 {
        return None;
    }
    Some(slopes.point(u, v, z))
}

#[test]
fn samples_have_a_range(rt: HostRuntime) -> Result<(), BadCamera> {
    let even = SampleRange::of(&Camera::make(BASE)?);
    let odd = SampleRange::of(&Camera::make(CameraFields { unit: 997, ..BASE })?);
    is_shared(&even);
    for (name, range, raw, depth) in [
        ("no sample", even, 0, None),
        ("before near", even, 499, None),
        ("near", even, 500, Some(500000)),
        ("far", even, 2000, Some(2000000)),
        ("past far", even, 2001, None),
        ("before near, in another unit", odd, 501, None),
        ("after near", odd, 502, Some(500494)),
        ("before far", odd, 2006, Some(1999982)),
        ("past far, in another unit", odd, 2007, None),
        ("the greatest sample", odd, 65535, None),
    ] {
        assert_eq!(rt; range.depth(raw), depth, "{name}");
    }
    Ok(())
}

#[test]
fn slopes_give_the_points_of_rays(rt: HostRuntime) -> Result<(), Fail> {
    // The centre is in the middle of the image, one and a half pixels from the outer ones; the focal lengths are 3 and
    // 5 pixels.
    let fields = CameraFields {
        width: 4,
        height: 4,
        fx: 3 * 65536,
        fy: 5 * 65536,
        cx: 98304,
        cy: 98304,
        radius: 2600000,
        ..BASE
    };
    let camera = Camera::make(fields).map_err(|_| Fail::from("camera"))?;
    let slopes = Slopes::make(rt.alloc(), &camera)?;
    is_shared(&slopes);
    let corner = Vec3 {
        x: 500000,
        y: 300000,
        z: 1000000,
    };
    assert_eq!(rt; camera.ray(3, 3, 1000000), corner);
    for (name, u, v, z, x, y) in [
        ("the first pixel", 0, 0, 1000000, -500000, -300000),
        ("the last pixel", 3, 3, 1000000, 500000, 300000),
        ("the end of the first row", 3, 0, 1000000, 500000, -300000),
        (
            "the end of the first column",
            0,
            3,
            1000000,
            -500000,
            300000,
        ),
        ("between the pixels' halves", 1, 2, 1000000, -166667, 100000),
        ("next to the camera", 0, 3, 1, -1, 0),
        (
            "a multiple of the focal length",
            2,
            1,
            2040000,
            340000,
            -204000,
        ),
    ] {
        let expected = Some(Vec3 { x, y, z });
        assert_eq!(rt; point_of(&slopes, u, v, z), expected, "{name}");
    }
    Ok(())
}

#[test]
fn points_have_blocks_and_voxels(rt: HostRuntime) -> Result<(), BadCamera> {
    let camera = Camera::make(BASE)?;
    let (low, high) = (key(-1, 0, 0), key(0, 0, 12));
    assert_eq!(rt; camera.block_of(point(0, 0, 1000000)), Some(high));
    assert_eq!(rt; camera.block_of(point(30000000000, 0, 0)), None);
    assert_eq!(rt;
        camera.nearest(point(4999, 5000, 999999)),
        Some((high, 264))
    );
    assert_eq!(rt; camera.nearest(point(-5001, -5000, 0)), Some((low, 7)));
    assert_eq!(rt; camera.nearest(point(30000000000, 0, 0)), None);
    assert_eq!(rt; camera.voxel_point(high, 264), point(0, 10000, 1000000));
    assert_eq!(rt; camera.voxel_point(low, 7), point(-10000, 0, 0));
    assert_eq!(rt; camera.block_centre(low), point(-40000, 40000, 40000));
    Ok(())
}

#[test]
fn blocks_are_active_and_visible(rt: HostRuntime) -> Result<(), Fail> {
    let camera = Camera::make(BASE).map_err(|_| Fail::from("camera"))?;
    let pose = at_origin()?;
    assert!(rt; camera.active(&pose, key(0, 0, 12)));
    assert!(rt; !camera.active(&pose, key(26, 0, 12)));
    assert!(rt; camera.may_see(&pose, key(0, 0, 12)));
    for (name, x, z) in [("behind", 0, -13), ("too far", 0, 400), ("beside", 100, 12)] {
        assert!(rt; !camera.may_see(&pose, key(x, 0, z)), "{name}");
    }
    Ok(())
}

#[test]
fn chunks_may_hold_active_blocks(rt: HostRuntime) -> Result<(), Fail> {
    let camera = Camera::make(BASE).map_err(|_| Fail::from("camera"))?;
    let pose = at_origin()?;
    // Of chunk (3, 1, 2) only the block (24, 8, 16) is active.
    assert!(rt; camera.active(&pose, key(24, 8, 16)));
    for (x, y, z) in [(25, 8, 16), (24, 9, 16), (24, 8, 17)] {
        assert!(rt; !camera.active(&pose, key(x, y, z)));
    }
    for (name, x, y, z, may) in [
        ("round the sphere's centre", 0, 0, 1, true),
        ("one active block, in a corner", 3, 1, 2, true),
        ("beside the sphere", 4, 0, 1, false),
        ("far away", 100, 0, 0, false),
        ("least coordinates", -32768, -32768, -32768, false),
    ] {
        let chunk = ChunkKey { x, y, z };
        assert_eq!(rt; camera.may_hold_active(&pose, chunk), may, "{name}");
    }
    Ok(())
}

#[test]
fn refusals_have_words(rt: HostRuntime) -> Result<(), Fail> {
    let bad = BadCamera::Field(2).to_string(rt.alloc())?;
    assert_eq!(rt; bad.as_str(), "the width is out of its range");
    Ok(())
}

// A part in 4096 of the sum of the three reaches, and 5: 1020001, 1020001 and 2040000 micrometres, and then 1840762,
// 1380572 and 3020000.
#[test]
fn a_point_drifts_by_less_than_a_voxel(rt: HostRuntime) -> Result<(), Fail> {
    let depth_camera = CameraFields {
        width: 640,
        height: 480,
        fx: 34406400,
        fy: 34406400,
        cx: 20938752,
        cy: 15695872,
        far: 3000000,
        mu: 20000,
        radius: 4000000,
        centre: 1510000,
        ..BASE
    };
    for (fields, drift) in [(BASE, 1001), (depth_camera, 1528)] {
        let camera = Camera::make(fields).map_err(|_| Fail::from("camera"))?;
        assert_eq!(rt; camera.drift(), drift);
    }
    Ok(())
}
