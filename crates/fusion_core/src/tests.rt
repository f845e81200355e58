use super::*;
use band_walk::BandWalk;
use camera::{Camera, CameraFields, Slopes};
use depth_frame::DepthFrame;
use depth_view::Depths;
use fixed_geom::{BadPose, PoseRows, Vec3};
use std::alloc::Global;
use std::test::Fail;
use voxel_block::{Block, BlockKey, Voxel};

const ONE: i64 = 1 << 30;

pub(crate) const AHEAD: [i64; 9] = [ONE, 0, 0, 0, ONE, 0, 0, 0, ONE];

// The second axis is turned round, and so is no rotation.
const MIRRORED: [i64; 9] = [ONE, 0, 0, 0, -ONE, 0, 0, 0, ONE];

// One pixel that looks along the axis, voxels of 1 cm and a truncation distance of 4 cm.
pub(crate) const PIXEL: CameraFields = CameraFields {
    width: 1,
    height: 1,
    fx: 65536,
    fy: 65536,
    cx: 0,
    cy: 0,
    unit: 1000,
    near: 500000,
    far: 2000000,
    voxel: 10000,
    mu: 40000,
    radius: 2100000,
    centre: 1020000,
};

fn is_shared<T: Send + Sync>(_value: &T) {}

// The frame of a depth map of these sides whose samples all show a wall one metre away.
fn offered(
    alloc: Global,
    r: [i64; 9],
    x: i64,
    width: u32,
    height: u32,
) -> Result<Result<Frame, Refusal>, Fail> {
    let settings = Settings {
        version: 1,
        camera: Camera::make(PIXEL)?,
        max_weight: 1,
        heap_blocks: 1,
    };
    let raw = vec![in alloc; 1000_u16; width as usize * height as usize]?;
    let rows = PoseRows {
        r,
        t: Vec3 { x, y: 0, z: 0 },
    };
    let depths = DepthFrame::make(width, height, raw);
    Ok(Frame::offered(&settings, &rows, depths))
}

#[test]
fn frames_are_offered_or_refused(rt: HostRuntime) -> Result<(), Fail> {
    let size = |width, height| Some(Refusal::Size { width, height });
    for (name, r, x, width, height, refusal) in [
        ("a wall", AHEAD, 0, 1, 1, None),
        ("too wide", AHEAD, 0, 2, 1, size(2, 1)),
        ("too high", AHEAD, 0, 1, 2, size(1, 2)),
        ("too wide, and no pose", MIRRORED, 0, 2, 1, size(2, 1)),
        (
            "no rotation",
            MIRRORED,
            0,
            1,
            1,
            Some(Refusal::BadPose(BadPose::NotRotation)),
        ),
        (
            "too far",
            AHEAD,
            100_000_001,
            1,
            1,
            Some(Refusal::BadPose(BadPose::Range)),
        ),
    ] {
        let frame = offered(rt.alloc(), r, x, width, height)?;
        assert_eq!(rt; frame.err(), refusal, "{}", name);
    }
    Ok(())
}

// A wall one metre away is in the blocks 12 and 13 ahead. Voxel 256 of block 12 lies on the axis, in the wall.
#[test]
fn a_wall_is_fused(rt: HostRuntime) -> Result<(), Fail> {
    let alloc = rt.alloc();
    if let Ok(frame) = offered(alloc, AHEAD, 0, 1, 1)? {
        is_shared(&frame);
        assert_eq!(rt; frame.height(), 1);
        assert_eq!(rt; frame.pose().rows().r, AHEAD);
        let mut ahead = 12;
        let slopes = Slopes::make(alloc, frame.camera())?;
        let band = frame.band(&slopes);
        for key in BandWalk::over(&band, 0) {
            assert_eq!(rt;
                key,
                BlockKey {
                    x: 0,
                    y: 0,
                    z: ahead
                }
            );
            assert!(rt; frame.is_active(key));
            ahead = ahead.saturating_add(1);
        }
        assert_eq!(rt; ahead, 14);
        let mut block = Block::make(alloc)?;
        let key = BlockKey { x: 0, y: 0, z: 12 };
        let mut depths = Depths::make(alloc);
        frame.fill(&mut depths)?;
        frame.update(&frame.kernel(&depths), &mut block, key);
        assert_eq!(rt; block.get(256), Voxel { f: 0, w: 1 });
        assert!(rt;
            !frame.is_active(BlockKey {
                x: 100,
                y: 0,
                z: 12
            })
        );
    }
    Ok(())
}
