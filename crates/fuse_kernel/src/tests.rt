ghost use Rattle.std.specs.Prelude.{◌≡◌, ◌≤◌, IfSome, vec_len};
ghost use Rattle.depth_view.specs.Views.{FitsImage};

use crate::Kernel;
use crate::estimates::Estimates;
use crate::mean::Reciprocals;
use crate::near_cam_q30::NearCamQ30;
use crate::pixel_axis::PixelAxis;
use crate::truncation::Truncation;
use crate::voxel_steps::VoxelSteps;
use camera::{Camera, CameraFields};
use depth_frame::DepthFrame;
use depth_view::Depths;
use fixed_geom::{Pose, PoseRows, Vec3};
use std::alloc::Global;
use voxel_block::{Block, BlockKey, Voxel};

const ONE: i64 = 1 << 30;

const UPRIGHT: [i64; 9] = [ONE, 0, 0, 0, ONE, 0, 0, 0, ONE];

// A camera that looks along the axis x.
const SIDEWAYS: [i64; 9] = [0, 0, ONE, 0, ONE, 0, -ONE, 0, 0];

// One that is turned round the axis z by the angle of the triangle with the sides 3, 4 and 5.
const TILTED: [i64; 9] = [644245094, -858993459, 0, 858993459, 644245094, 0, 0, 0, ONE];

// 16 by 12 pixels, voxels of 1 cm and a truncation distance of 4 cm.
const WIDE: CameraFields = CameraFields {
    width: 16,
    height: 12,
    fx: 1048576,
    fy: 1048576,
    cx: 524288,
    cy: 393216,
    unit: 1000,
    near: 300000,
    far: 2000000,
    voxel: 10000,
    mu: 40000,
    radius: 2500000,
    centre: 1000000,
};

// One pixel that looks along the axis, and the same voxels.
const NARROW: CameraFields = CameraFields {
    width: 1,
    height: 1,
    fx: 65536,
    fy: 65536,
    cx: 0,
    cy: 0,
    near: 500000,
    radius: 2100000,
    centre: 1020000,
    ..WIDE
};

fn pose(r: [i64; 9], t: Vec3) -> Option<Pose> {
    Pose::accept(&PoseRows { r, t }).ok()
}

fn narrow(alloc: Global, sample: u16) -> Option<(Camera, DepthFrame)>
    ensures { IfSome result (λ p. FitsImage p.0 p.1) }
{
    let camera = Camera::make(NARROW).ok()?;
    let raw = vec![in alloc; sample].ok()?;
    Some((camera, DepthFrame::make(1, 1, raw)))
}

// A rough wall `depth` millimetres away, with pixels that show no depth.
fn wide(alloc: Global, depth: u16) -> Option<(Camera, DepthFrame)>
    requires { depth ≤ 2000 }
    ensures { IfSome result (λ p. FitsImage p.0 p.1) }
{
    let camera = Camera::make(WIDE).ok()?;
    let mut raw = vec![in alloc; depth; 192].ok()?;
    for i in 0..192_usize {
        raw[i] = if i % 7 == 0 {
            0
        } else {
            depth + (i % 5) as u16 * 20
        };
    }
    Some((camera, DepthFrame::make(16, 12, raw)))
}

// The voxels with the coordinates (0, 0, 96) to (0, 0, 105) after frames of these samples.
fn column(alloc: Global, max_weight: u8, samples: &[u16]) -> Option<[Voxel; 10]> {
    if max_weight == 0 {
        return None;
    }
    let mut near = Block::make(alloc).ok()?;
    let mut far = Block::make(alloc).ok()?;
    let pose = pose(UPRIGHT, Vec3 { x: 0, y: 0, z: 0 })?;
    let mut depths = Depths::make(alloc);
    for sample in samples {
        let (camera, frame) = narrow(alloc, *sample)?;
        depths.fill(&camera, &frame).ok()?;
        let kernel = Kernel::of(&camera, &pose, &depths, max_weight);
        let (z12, z13) = (
            BlockKey { x: 0, y: 0, z: 12 },
            BlockKey { x: 0, y: 0, z: 13 },
        );
        kernel.update(&mut near, z12);
        kernel.update(&mut far, z13);
    }
    Some([
        near.get(0),
        near.get(64),
        near.get(128),
        near.get(192),
        near.get(256),
        near.get(320),
        near.get(384),
        near.get(448),
        far.get(0),
        far.get(64),
    ])
}

// Expected by the rule of the update: distances at z 96 to 105, and the weights of the first and of the last two.
#[test]
fn a_wall_by_signed_distances(rt: HostRuntime) {
    let rows: [(&str, u8, &[u16], [i16; 10], [u8; 3]); 4] = [
        (
            "one frame",
            255,
            &[1000],
            [
                32767, 24575, 16383, 8191, 0, -8192, -16384, -24576, -32767, 32767,
            ],
            [1, 1, 0],
        ),
        (
            "two frames",
            255,
            &[1000, 1010],
            [
                32767, 28671, 20479, 12287, 4096, -4096, -12288, -20480, -28671, -32767,
            ],
            [2, 2, 1],
        ),
        (
            "the greatest weight is 1",
            1,
            &[1000, 1010, 1010],
            [
                32767, 30719, 22527, 14335, 6144, -2048, -10240, -18432, -26623, -32767,
            ],
            [1, 1, 1],
        ),
        ("no valid depth", 255, &[0, 65535], [32767; 10], [0; 3]),
    ];
    for (name, max_weight, samples, distances, weights) in rows {
        let voxels = column(rt.alloc(), max_weight, samples);
        assert!(rt; voxels.is_some(), "{}", name);
        if let Some(voxels) = voxels {
            assert_eq!(rt; voxels.map(|v| v.f), distances, "{}", name);
            assert_eq!(rt;
                [voxels[0].w, voxels[8].w, voxels[9].w],
                weights,
                "{}",
                name
            );
        }
    }
}

// The number of known voxels of a block, and the sums over all voxels of (i + 1) times the distance and of (i + 1) times
// the weight.
fn sums(block: &Block) -> (u32, i64, i64) {
    let mut known = 0_u32;
    let (mut distance, mut weight) = (0_i64, 0_i64);
    for i in 0..512 {
        let Voxel { f, w } = block.get(i);
        if w > 0 {
            known = known.wrapping_add(1);
        }
        distance = distance.wrapping_add(i64::from(i + 1).wrapping_mul(i64::from(f)));
        weight = weight.wrapping_add(i64::from(i + 1).wrapping_mul(i64::from(w)));
    }
    (known, distance, weight)
}

// The sums of a block after three frames of a rough wall.
fn after_walls(alloc: Global, r: [i64; 9], t: Vec3, key: BlockKey) -> Option<(u32, i64, i64)> {
    let pose = pose(r, t)?;
    let mut block = Block::make(alloc).ok()?;
    let mut depths = Depths::make(alloc);
    for (depth, max_weight) in [(1000_u16, 255_u8), (950, 255), (990, 2)] {
        let (camera, frame) = wide(alloc, depth)?;
        depths.fill(&camera, &frame).ok()?;
        if max_weight == 0 {
            return None;
        }
        Kernel::of(&camera, &pose, &depths, max_weight).update(&mut block, key);
    }
    Some(sums(&block))
}

// Expected by an evaluator that shares nothing with this crate, `block_sums` of examples/expected.py.
#[test]
fn whole_blocks(rt: HostRuntime) {
    let home = Vec3 { x: 0, y: 0, z: 0 };
    let away = Vec3 {
        x: 12345,
        y: -6789,
        z: 101,
    };
    let unmet = (0, 4303224576, 0);
    let rows = [
        (
            "in front of the wall",
            UPRIGHT,
            home,
            (0, 0, 12),
            (385, 1341390086, 200748),
        ),
        (
            "at the camera",
            UPRIGHT,
            home,
            (-1, -1, 0),
            (17, 4303224576, 14322),
        ),
        (
            "at the right edge of the image",
            UPRIGHT,
            home,
            (6, 0, 12),
            (8, 4139372008, 7632),
        ),
        (
            "at the upper edge of the image",
            UPRIGHT,
            home,
            (0, -5, 11),
            (296, 4303224576, 177256),
        ),
        ("behind the camera", UPRIGHT, home, (0, 0, -5), unmet),
        (
            "to the right of the image",
            UPRIGHT,
            home,
            (9, 0, 12),
            unmet,
        ),
        (
            "at the ends of the keys",
            UPRIGHT,
            home,
            (32767, -32768, 5),
            unmet,
        ),
        (
            "along x",
            SIDEWAYS,
            away,
            (12, 0, 0),
            (347, 3420779882, 133446),
        ),
        (
            "beside the image, along x",
            SIDEWAYS,
            away,
            (0, 0, 12),
            unmet,
        ),
        (
            "tilted",
            TILTED,
            away,
            (2, -3, 12),
            (512, 2054442300, 262656),
        ),
        (
            "at the ends of the keys, tilted",
            TILTED,
            away,
            (-32768, 32767, -32768),
            unmet,
        ),
    ];
    for (name, r, t, (x, y, z), expected) in rows {
        let found = after_walls(rt.alloc(), r, t, BlockKey { x, y, z });
        assert_eq!(rt; found, Some(expected), "{}", name);
    }
}

// Expected by the rule: half of the sum of the two, and so on, and a half goes up.
#[test]
fn means_are_rounded(rt: HostRuntime) {
    let reciprocals = Reciprocals::make();
    for (w, old, new, expected) in [
        (0, 32767, -5, -5),
        (1, 1, 2, 2),
        (1, -1, -2, -1),
        (1, -32767, 32767, 0),
        (2, 0, -1, 0),
        (3, -32767, 32767, -16383),
        (254, 0, 127, 0),
        (254, 0, 128, 1),
        (254, 32767, -32767, 32510),
        (255, 32767, 32767, 32767),
        (255, -32767, -32767, -32767),
        (255, 0, 128, 1),
        (255, 0, 127, 0),
        (255, 0, -128, 0),
        (255, 0, -129, -1),
    ] {
        assert_eq!(rt; reciprocals.mean(w, old, new), expected);
    }
}

// Expected by the rule: the floor of 32767 eta / mu, and 32767 from mu on.
#[test]
fn distances_are_truncated(rt: HostRuntime) {
    for (mu, eta, expected) in [
        (1, -1, -32767),
        (1, 0, 0),
        (1, 1, 32767),
        (1000, -1000, -32767),
        (1000, -1, -33),
        (1000, 0, 0),
        (1000, 1, 32),
        (1000, 999, 32734),
        (1000, 1000, 32767),
        (1000, i64::MAX, 32767),
        (65536, -65536, -32767),
        (65536, -65535, -32767),
        (65536, -2, -1),
        (65536, 2, 0),
        (65536, 3, 1),
        (65536, 65535, 32766),
        (65536, 65536, 32767),
        (1000000, -1000000, -32767),
        (1000000, -999999, -32767),
        (1000000, -1, -1),
        (1000000, 30, 0),
        (1000000, 31, 1),
        (1000000, 999999, 32766),
        (1000000, 1000001, 32767),
    ] {
        assert_eq!(rt; Truncation::of(mu).tsdf(eta), expected);
    }
}

// Expected by the rule: the floor of 500 x / z + 320.5, with x and z in micrometres.
#[test]
fn pixels_are_exact_at_their_edges(rt: HostRuntime) {
    let axis = PixelAxis::of(640, 500 * 65536, 320 * 65536);
    for (x, z, expected) in [
        (0, 1000000, Some(320)),
        (999, 1000000, Some(320)),
        (1000, 1000000, Some(321)),
        (-1000, 1000000, Some(320)),
        (-1001, 1000000, Some(319)),
        (-641000, 1000000, Some(0)),
        (-641001, 1000000, None),
        (638999, 1000000, Some(639)),
        (639000, 1000000, None),
        (67108864, 1, None),
        (-67108864, 1, None),
    ] {
        // No estimate makes a difference, be it right or wrong.
        for estimate in [-32768, -1, 0, 1, 319, 320, 321, 639, 640, 32767] {
            assert_eq!(rt; axis.inside(x, z, estimate), expected);
        }
    }
}

// Expected by the rule: the floors of 500 x / z + 320.5 and of 500 y / z + 240.5, of the voxels of a block of 1 cm voxels
// whose corner is 1 metre before the camera.
#[test]
fn estimates_are_the_pixels(rt: HostRuntime) {
    let step = 10000 * ONE;
    let steps = VoxelSteps {
        corner: NearCamQ30 {
            x: 0,
            y: 0,
            z: 1000000 * ONE,
        },
        x: NearCamQ30 {
            x: step,
            y: 0,
            z: 0,
        },
        y: NearCamQ30 {
            x: 0,
            y: step,
            z: 0,
        },
        z: NearCamQ30 {
            x: 0,
            y: 0,
            z: step,
        },
    };
    let columns = PixelAxis::of(640, 500 * 65536, 320 * 65536);
    let rows = PixelAxis::of(480, 500 * 65536, 240 * 65536);
    let estimates = Estimates::of(&steps, &columns, &rows);
    for (row, u, v) in [
        (0, [320, 325, 330, 335, 340, 345, 350, 355], 240),
        (7, [320, 325, 330, 335, 340, 345, 350, 355], 275),
        (9, [320, 325, 330, 335, 340, 345, 350, 355], 245),
        (63, [320, 325, 329, 334, 339, 343, 348, 353], 273),
    ] {
        let found = estimates.row(row);
        for x in 0..8 {
            assert_eq!(rt; found.at(x), (u[usize::from(x)], v));
        }
    }
}
