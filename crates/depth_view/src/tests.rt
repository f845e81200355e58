use crate::Depths;
use camera::{Camera, CameraFields};
use depth_frame::DepthFrame;
use std::alloc::Global;

// 4 by 2 pixels, and depths from 1 metre to 2 metres.
const FIELDS: CameraFields = CameraFields {
    width: 4,
    height: 2,
    fx: 262144,
    fy: 262144,
    cx: 131072,
    cy: 65536,
    unit: 1000,
    near: 1000000,
    far: 2000000,
    voxel: 10000,
    mu: 40000,
    radius: 2500000,
    centre: 1000000,
};

// The depths of a frame with these samples, where the camera has these fields. They fill depths that had those of
// another frame.
fn depths_of(alloc: Global, unit: i64, near: i64, far: i64, samples: [u16; 8]) -> Option<[i64; 9]> {
    let camera = Camera::make(CameraFields {
        unit,
        near,
        far,
        ..FIELDS
    })
    .ok()?;
    let before = DepthFrame::make(4, 1, vec![in alloc; 1000; 4].ok()?);
    let frame = DepthFrame::make(4, 2, Vec::from_array(alloc, samples).ok()?);
    let mut depths = Depths::make(alloc);
    depths.fill(&camera, &before).ok()?;
    depths.fill(&camera, &frame).ok()?;
    Some([
        depths.at(0),
        depths.at(1),
        depths.at(2),
        depths.at(3),
        depths.at(4),
        depths.at(5),
        depths.at(6),
        depths.at(7),
        depths.at(8),
    ])
}

#[test]
fn depths_are_those_of_valid_samples(rt: HostRuntime) {
    let none = -1073741824;
    let rows = [
        (
            "the bounds are valid",
            (1000, 1000000, 2000000),
            [0, 1, 999, 1000, 1001, 2000, 2001, 65535],
            [
                none, none, none, 1000000, 1001000, 2000000, none, none, none,
            ],
        ),
        (
            "bounds between two samples",
            (999, 1000000, 1000999),
            [0, 1000, 1001, 1002, 1003, 65535, 1001, 0],
            [none, none, none, 1000998, none, none, none, none, none],
        ),
        (
            "no sample between the bounds",
            (1000, 1000001, 1000999),
            [0, 1, 999, 1000, 1001, 1002, 65534, 65535],
            [none; 9],
        ),
        (
            "each sample but 0",
            (1, 1, 65536),
            [0, 1, 2, 3, 65534, 65535, 32767, 32768],
            [none, 1, 2, 3, 65534, 65535, 32767, 32768, none],
        ),
        (
            "a large unit",
            (100000, 1000000, 2000000),
            [0, 1, 9, 10, 20, 21, 42949, 65535],
            [none, none, none, 1000000, 2000000, none, none, none, none],
        ),
    ];
    for (name, (unit, near, far), samples, expected) in rows {
        let found = depths_of(rt.alloc(), unit, near, far, samples);
        assert_eq!(rt; found, Some(expected), "{}", name);
    }
}
