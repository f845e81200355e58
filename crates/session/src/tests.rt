ghost use Rattle.std.specs.Prelude.{◌≡◌, IfSome};
ghost use Rattle.scan_lang.specs.declared.entry.Entry.TheVariants as entries;
ghost use Rattle.session.specs.Answers.{state_of};
ghost use Rattle.session.specs.Fold.{after, known_voxels};

use super::*;
use crossing_export::Crossing;
use depth_frame::DepthFrame;
use fixed_geom::{BadPose, PoseRows, Vec3};
use fusion_core::NoGate;
use scan_lang::{FrameDone, KnownVoxel, Place, Totals, read_config};
use std::alloc::Global;
use std::test::Fail;
use std::thread::Threads;
use voxel_block::BlockKey;

const ONE: i64 = 1 << 30;

const AHEAD: [i64; 9] = [ONE, 0, 0, 0, ONE, 0, 0, 0, ONE];

// The second axis is turned round, and so is no rotation.
const MIRRORED: [i64; 9] = [ONE, 0, 0, 0, -ONE, 0, 0, 0, ONE];

// One pixel that looks along the axis, voxels of 1 cm and a truncation distance of 4 cm.
fn session(alloc: Global, heap_blocks: u32) -> Option<Session> {
    let line = format!(in alloc;
        "{{\"version\":1,\"width\":1,\"height\":1,\"fx\":65536,\"fy\":65536,\"cx\":0,\"cy\":0,\"unit\":1000,\"near\":500000,\"far\":2000000,\"voxel\":10000,\"mu\":40000,\"radius\":2100000,\"centre\":1020000,\"max_weight\":255,\"heap_blocks\":{heap_blocks},\"buckets\":16,\"empty_f\":30000}}"
    ).ok()?;
    let config = read_config(alloc, line.as_bytes()).ok()?;
    Session::start(alloc, config).ok()
}

// A row of pixels that all show one sample: the rotation of its pose, its place on the first axis, its width, and the sample.
type Shot = ([i64; 9], i64, u32, u16);

const WALL: Shot = (AHEAD, 0, 1, 1000);

// A frame without valid depths, which tells nothing but its pose.
const NOTHING: Shot = (AHEAD, 0, 1, 0);

const NOTHING_FAR_AWAY: Shot = (AHEAD, 50_000_000, 1, 0);

// The answer to a row of pixels.
fn fuse<R: Threads + Sync>(
    rt: &R,
    alloc: Global,
    session: &mut Session,
    (r, x, width, sample): Shot,
) -> Option<Result<FrameDone, FrameError>> {
    let raw = vec![in alloc; sample; width as usize].ok()?;
    let t = Vec3 { x, y: 0, z: 0 };
    let depths = DepthFrame::make(width, 1, raw);
    Some(session.frame(rt, alloc, &PoseRows { r, t }, depths, 1, &NoGate))
}

/// Fuses a frame, and lists the known voxels of the map then; nothing where the frame is refused or it is out of memory.
fn fuse_and_list<R: Threads + Sync>(
    rt: &R,
    alloc: Global,
    session: &mut Session,
    rows: &PoseRows,
    depths: DepthFrame,
) -> Option<Vec<KnownVoxel>>
    ensures { IfSome result (λ voxels. voxels.items ≡ known_voxels (after session.old.config (state_of session.old) (entries.Frame rows.now depths)).blocks) }
{
    match session.frame(rt, alloc, rows, depths, 4, &NoGate) {
        Ok(_) => match session.voxels(alloc) {
            Ok((_, voxels)) => Some(voxels),
            Err(_) => None,
        },
        Err(_) => None,
    }
}

fn done(frame: u64, blocks: u64, resident: u32) -> Result<FrameDone, FrameError> {
    Ok(FrameDone {
        frame,
        blocks,
        resident,
    })
}

// A wall one metre away, then another frame, and the totals after both.
#[test]
fn frames_are_fused_or_refused(rt: HostRuntime) {
    let alloc = rt.alloc();
    let fused = done(1, 2, 2);
    let once = (2, 576, 576, -192);
    for (name, heap_blocks, first, second, answer, sums) in [
        (
            "the same wall",
            64,
            fused,
            WALL,
            done(2, 2, 2),
            (2, 576, 1152, -192),
        ),
        (
            "a wall 1 cm behind it",
            64,
            fused,
            (AHEAD, 0, 1, 1010),
            done(2, 2, 2),
            (2, 640, 1216, -128),
        ),
        (
            "a wall far away",
            2,
            fused,
            (AHEAD, 50000000, 1, 1000),
            done(2, 4, 2),
            (4, 1152, 1152, -384),
        ),
        (
            "no room",
            1,
            Err(FrameError::HeapSpent { limit: 1 }),
            WALL,
            Err(FrameError::HeapSpent { limit: 1 }),
            (0, 0, 0, 0),
        ),
        (
            "too wide",
            64,
            fused,
            (AHEAD, 0, 2, 1000),
            Err(FrameError::Size {
                width: 2,
                height: 1,
            }),
            once,
        ),
        (
            "too wide, and no pose",
            64,
            fused,
            (MIRRORED, 0, 2, 1000),
            Err(FrameError::Size {
                width: 2,
                height: 1,
            }),
            once,
        ),
        (
            "no rotation",
            64,
            fused,
            (MIRRORED, 0, 1, 1000),
            Err(FrameError::BadPose(BadPose::NotRotation)),
            once,
        ),
        (
            "too far from the origin",
            64,
            fused,
            (AHEAD, 1000000000, 1, 1000),
            Err(FrameError::BadPose(BadPose::Range)),
            once,
        ),
    ] {
        let session = session(alloc, heap_blocks);
        assert!(rt; session.is_some());
        if let Some(mut session) = session {
            let (blocks, known, weight, distance) = sums;
            assert_eq!(rt; fuse(&rt, alloc, &mut session, WALL), Some(first));
            assert_eq!(rt;
                fuse(&rt, alloc, &mut session, second),
                Some(answer),
                "{}",
                name
            );
            assert_eq!(rt;
                session.totals(),
                Ok(Totals {
                    blocks,
                    known,
                    weight,
                    distance
                })
            );
            let listed = session
                .voxels(alloc)
                .ok()
                .map(|(blocks, voxels)| (blocks, voxels.len() as u64));
            assert_eq!(rt; listed, Some((blocks, known)));
        }
    }
}

// The heap has room for two blocks, which leave it for others and come back.
#[test]
fn blocks_leave_the_heap_and_come_back(rt: HostRuntime) {
    let alloc = rt.alloc();
    let session = session(alloc, 2);
    assert!(rt; session.is_some());
    if let Some(mut session) = session {
        let near = BlockKey { x: 0, y: 0, z: 12 };
        let beside = BlockKey { x: 1, y: 0, z: 12 };
        for (x, answer, place) in [
            (0, done(1, 2, 2), Place::Heap),
            (50000000, done(2, 4, 2), Place::Store),
            (0, done(3, 4, 2), Place::Heap),
        ] {
            let fused = fuse(&rt, alloc, &mut session, (AHEAD, x, 1, 1000));
            assert_eq!(rt; fused, Some(answer));
            assert_eq!(rt; session.place_of(near), place);
            assert_eq!(rt; session.place_of(beside), Place::Nowhere);
        }
        let depths = vec![in alloc; 1000; 1]
            .ok()
            .map(|raw| DepthFrame::make(1, 1, raw));
        assert!(rt; depths.is_some());
        if let Some(depths) = depths {
            let t = Vec3 { x: 0, y: 0, z: 0 };
            let listed = fuse_and_list(&rt, alloc, &mut session, &PoseRows { r: AHEAD, t }, depths);
            assert_eq!(rt; listed.map(|voxels| voxels.len()), Some(1152));
        }
        assert_eq!(rt;
            session.totals(),
            Ok(Totals {
                blocks: 4,
                known: 1152,
                weight: 2304,
                distance: -384
            })
        );
    }
}

// Fuses or refuses frames one after the other, and says whether the memory sufficed.
fn fuse_all<R: Threads + Sync>(
    rt: &R,
    alloc: Global,
    session: &mut Session,
    shots: &[Shot],
) -> bool {
    for shot in shots {
        if fuse(rt, alloc, session, *shot).is_none() {
            return false;
        }
    }
    true
}

// The number of accepted frames, and the sides and the first sample of the picture.
fn picture(
    alloc: Global,
    session: &Session,
) -> Result<(u64, (u32, u32), Option<u16>), RenderError> {
    let Picture { frame, image } = session.render(alloc)?;
    let sides = (image.width(), image.height());
    Ok((frame, sides, image.samples().first().copied()))
}

// The distances of the wall along the axis, from the voxel at 97 cm on, are 24575, 16383, 8191, 0 and -8192. After a wall 1 cm
// behind it the means are 28671, 20479, 12287, 4096 and -4096.
#[test]
fn a_picture_is_taken_from_the_last_accepted_pose(rt: HostRuntime) {
    let alloc = rt.alloc();
    let none = Err(RenderError::NoFrame);
    let cases: [(&str, u32, &[Shot], Result<(u64, u16), RenderError>); 9] = [
        ("before the first frame", 64, &[], none),
        ("after a frame too wide", 64, &[(AHEAD, 0, 2, 1000)], none),
        ("after no rotation", 64, &[(MIRRORED, 0, 1, 1000)], none),
        ("after a frame without room", 1, &[WALL], none),
        // 990000 + 10000 * 8191 / 8191.
        ("the wall", 64, &[WALL], Ok((1, 1000))),
        // 1000000 + 10000 * 4096 / 8192.
        (
            "both walls",
            64,
            &[WALL, (AHEAD, 0, 1, 1010)],
            Ok((2, 1005)),
        ),
        (
            "after a refused frame",
            64,
            &[WALL, (MIRRORED, 0, 1, 1010)],
            Ok((1, 1000)),
        ),
        ("from far away", 2, &[WALL, NOTHING_FAR_AWAY], Ok((2, 0))),
        (
            "back from far away",
            2,
            &[WALL, NOTHING_FAR_AWAY, NOTHING],
            Ok((3, 1000)),
        ),
    ];
    for (name, heap_blocks, shots, answer) in cases {
        let session = session(alloc, heap_blocks);
        assert!(rt; session.is_some());
        if let Some(mut session) = session {
            assert!(rt; fuse_all(&rt, alloc, &mut session, shots));
            let wanted = answer.map(|(frame, sample)| (frame, (1, 1), Some(sample)));
            assert_eq!(rt; picture(alloc, &session), wanted, "{}", name);
        }
    }
}

// Of a wall's two blocks the one behind it has the distance -32767 at 64 voxels, and no other known voxel.
#[test]
fn empty_active_blocks_are_collected(rt: HostRuntime) {
    let alloc = rt.alloc();
    let far: Shot = (AHEAD, 50_000_000, 1, 1000);
    let cases: [(&str, &[Shot], u64, (u64, u64, u64, i64)); 5] = [
        ("before the first frame", &[], 0, (0, 0, 0, 0)),
        ("a wall", &[WALL], 1, (1, 512, 512, 2096896)),
        ("a wall twice", &[WALL, WALL], 1, (1, 512, 1024, 2096896)),
        (
            "from far away",
            &[WALL, NOTHING_FAR_AWAY],
            0,
            (2, 576, 576, -192),
        ),
        ("a wall far away", &[WALL, far], 1, (3, 1088, 1088, 2096704)),
    ];
    for (name, shots, removed, (blocks, known, weight, distance)) in cases {
        let session = session(alloc, 2);
        assert!(rt; session.is_some());
        if let Some(mut session) = session {
            assert!(rt; fuse_all(&rt, alloc, &mut session, shots));
            let totals = Totals {
                blocks,
                known,
                weight,
                distance,
            };
            assert_eq!(rt; session.collect(), Ok(removed), "{}", name);
            assert_eq!(rt; session.totals(), Ok(totals), "{}", name);
            assert_eq!(rt; session.collect(), Ok(0), "{}", name);
        }
    }
}

// How many points the surface has, and the first and the last of them.
fn ends_of_points(
    alloc: Global,
    session: &mut Session,
) -> Option<(usize, Option<Crossing>, Option<Crossing>)> {
    let points = session.points(alloc).ok()?;
    Some((
        points.len(),
        points.first().copied(),
        points.last().copied(),
    ))
}

// A wall has a point for each of the 64 voxels of a block that lie side by side.
#[test]
fn a_wall_has_points_wherever_its_blocks_lie(rt: HostRuntime) {
    let alloc = rt.alloc();
    let cases: [(&str, &[Shot], Option<i32>); 5] = [
        ("before the first frame", &[], None),
        ("between two values", &[WALL], Some(1_000_000)),
        // 10000 * 4095 / 8191 behind the voxel at 1 m.
        ("rounded down", &[(AHEAD, 0, 1, 1005)], Some(1_004_999)),
        // From the last voxels of a block to the first ones of the next.
        (
            "between two blocks",
            &[(AHEAD, 0, 1, 1035)],
            Some(1_034_999),
        ),
        (
            "in the store",
            &[(AHEAD, 0, 1, 1035), NOTHING_FAR_AWAY],
            Some(1_034_999),
        ),
    ];
    for (name, shots, depth) in cases {
        let session = session(alloc, 64);
        assert!(rt; session.is_some());
        if let Some(mut session) = session {
            assert!(rt; fuse_all(&rt, alloc, &mut session, shots));
            let wanted = match depth {
                Some(z) => (
                    64,
                    Some(Crossing { x: 0, y: 0, z }),
                    Some(Crossing {
                        x: 70000,
                        y: 70000,
                        z,
                    }),
                ),
                None => (0, None, None),
            };
            assert_eq!(rt;
                ends_of_points(alloc, &mut session),
                Some(wanted),
                "{}",
                name
            );
        }
    }
}

// The same wall 300 times: each known voxel has the greatest weight.
#[test]
fn weights_stop_at_the_greatest(rt: HostRuntime) {
    let alloc = rt.alloc();
    let session = session(alloc, 64);
    assert!(rt; session.is_some());
    if let Some(mut session) = session {
        for frame in 1..=300 {
            let fused = fuse(&rt, alloc, &mut session, WALL);
            assert_eq!(rt; fused, Some(done(frame, 2, 2)));
        }
        assert_eq!(rt;
            session.totals(),
            Ok(Totals {
                blocks: 2,
                known: 576,
                weight: 146880,
                distance: -192
            })
        );
    }
}

#[test]
fn errors_are_told_in_words(rt: HostRuntime) -> Result<(), Fail> {
    let size = FrameError::Size {
        width: 2,
        height: 1,
    };
    for (error, text) in [
        (size, "the depth map has 2 by 1 pixels"),
        (
            FrameError::BadPose(BadPose::Range),
            "the pose passes its bounds",
        ),
        (
            FrameError::BadPose(BadPose::NotRotation),
            "the pose has no rotation",
        ),
        (
            FrameError::HeapSpent { limit: 4 },
            "more than 4 blocks would be active",
        ),
        (FrameError::NoMemory, "out of memory"),
    ] {
        assert_eq!(rt; format!(in rt.alloc(); "{error}")?.as_str(), text);
    }
    Ok(())
}
