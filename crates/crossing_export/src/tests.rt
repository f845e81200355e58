use super::*;
use std::alloc::Global;
use std::test::Fail;
use voxel_block::{Block, BlockKey, Voxel};

// Its corner is the point (-80000, 0, 160000).
const KEY: BlockKey = BlockKey { x: -1, y: 0, z: 2 };

const SIZE: i64 = 10000;

// A block of a case.
#[derive(Clone, Copy, PartialEq, Eq)]
enum At {
    Here,
    OnX,
    OnY,
    OnZ,
}

use At::{Here, OnX, OnY, OnZ};

// A voxel by its block and index, and its distance. Its weight is 1.
type Observed = (At, u16, i16);

// The block of these voxels. `None` where it has none.
fn block_of(alloc: Global, at: At, voxels: &[Observed]) -> Result<Option<Block>, Fail> {
    let mut block = Block::make(alloc)?;
    let mut any = false;
    for (lies_in, i, f) in voxels {
        if *lies_in == at && *i < 512 && *f != i16::MIN {
            block.set(*i, Voxel { f: *f, w: 1 });
            any = true;
        }
    }
    Ok(if any { Some(block) } else { None })
}

// The crossings of these voxels, behind one that stood there before.
fn crossings_of(alloc: Global, voxels: &[Observed]) -> Result<Vec<Crossing>, Fail> {
    let Some(here) = block_of(alloc, Here, voxels)? else {
        return Err(Fail::from("no block"));
    };
    let x = block_of(alloc, OnX, voxels)?;
    let y = block_of(alloc, OnY, voxels)?;
    let z = block_of(alloc, OnZ, voxels)?;
    let mut out = Vec::from_array(alloc, [Crossing { x: 1, y: 2, z: 3 }])?;
    block_crossings(
        KEY,
        &here,
        x.as_ref(),
        y.as_ref(),
        z.as_ref(),
        SIZE,
        &mut out,
    )?;
    Ok(out)
}

// The points of a list, without the first one.
fn points(alloc: Global, list: &[Crossing]) -> Result<Vec<(i32, i32, i32)>, Fail> {
    let mut points = Vec::new(alloc);
    for c in list.iter().skip(1) {
        points.push((c.x, c.y, c.z))?;
    }
    Ok(points)
}

#[test]
fn a_block_has_these_crossings(rt: HostRuntime) -> Result<(), Fail> {
    let cases: [(&str, &[Observed], &[(i32, i32, i32)]); 19] = [
        // 10000 * 100 / 200 behind the voxel at -50000.
        (
            "downward",
            &[(Here, 3, 100), (Here, 4, -100)],
            &[(-45000, 0, 160000)],
        ),
        // 10000 * -100 / -400.
        (
            "upward",
            &[(Here, 3, -100), (Here, 4, 300)],
            &[(-47500, 0, 160000)],
        ),
        // 3333 and a third.
        (
            "downward, rounded",
            &[(Here, 3, 1), (Here, 4, -2)],
            &[(-46667, 0, 160000)],
        ),
        // 6666 and two thirds.
        (
            "upward, rounded",
            &[(Here, 3, -2), (Here, 4, 1)],
            &[(-43334, 0, 160000)],
        ),
        (
            "the greatest values",
            &[(Here, 3, 32767), (Here, 4, -32767)],
            &[(-45000, 0, 160000)],
        ),
        ("both above 0", &[(Here, 3, 100), (Here, 4, 1)], &[]),
        ("both below 0", &[(Here, 3, -100), (Here, 4, -1)], &[]),
        ("0 and below", &[(Here, 3, 0), (Here, 4, -100)], &[]),
        // At the voxel itself.
        (
            "0 and above",
            &[(Here, 3, 0), (Here, 4, 100)],
            &[(-50000, 0, 160000)],
        ),
        // At the next one.
        (
            "above and 0",
            &[(Here, 3, 100), (Here, 4, 0)],
            &[(-40000, 0, 160000)],
        ),
        // A voxel that was not observed has the distance 32767.
        ("round it none is known", &[(Here, 292, -100)], &[]),
        (
            "on y",
            &[(Here, 83, 100), (Here, 91, -300)],
            &[(-50000, 22500, 170000)],
        ),
        (
            "on z",
            &[(Here, 83, 100), (Here, 147, -100)],
            &[(-50000, 20000, 175000)],
        ),
        (
            "into the next block on x",
            &[
                (Here, 7, 100),
                (OnX, 0, -100),
                (OnY, 0, -300),
                (OnZ, 0, -300),
            ],
            &[(-5000, 0, 160000)],
        ),
        (
            "into the next block on y",
            &[
                (Here, 56, 100),
                (OnX, 0, -300),
                (OnY, 0, -100),
                (OnZ, 0, -300),
            ],
            &[(-80000, 75000, 160000)],
        ),
        (
            "into the next block on z",
            &[
                (Here, 448, 100),
                (OnX, 0, -300),
                (OnY, 0, -300),
                (OnZ, 0, -100),
            ],
            &[(-80000, 0, 235000)],
        ),
        ("no next blocks", &[(Here, 511, -100)], &[]),
        (
            "three axes",
            &[
                (Here, 64, -100),
                (Here, 8, -100),
                (Here, 1, -100),
                (Here, 0, 100),
            ],
            &[
                (-75000, 0, 160000),
                (-80000, 5000, 160000),
                (-80000, 0, 165000),
            ],
        ),
        // The voxels are 1 on x and on y, and then 8 on x.
        (
            "in order of index",
            &[
                (Here, 8, 100),
                (Here, 9, -100),
                (Here, 1, 100),
                (Here, 2, -100),
            ],
            &[
                (-65000, 0, 160000),
                (-70000, 5000, 160000),
                (-75000, 10000, 160000),
            ],
        ),
    ];
    for (name, voxels, expected) in cases {
        let list = crossings_of(rt.alloc(), voxels)?;
        assert_eq!(rt;
            list.as_slice().first().copied(),
            Some(Crossing { x: 1, y: 2, z: 3 }),
            "{name}"
        );
        assert_eq!(rt;
            points(rt.alloc(), list.as_slice())?.as_slice(),
            expected,
            "{name}"
        );
    }
    Ok(())
}

#[test]
fn points_are_written_as_ply(rt: HostRuntime) -> Result<(), Fail> {
    let two = [
        Crossing {
            x: -45000,
            y: 0,
            z: 160000,
        },
        Crossing {
            x: 2147483647,
            y: -2147483648,
            z: 7,
        },
    ];
    let none = ply_text(rt.alloc(), &[])?;
    let some = ply_text(rt.alloc(), &two)?;
    assert_eq!(rt;
        none.as_slice(),
        b"ply\nformat ascii 1.0\nelement vertex 0\n\
          property int x\nproperty int y\nproperty int z\nend_header\n"
            .as_slice()
    );
    assert_eq!(rt;
        some.as_slice(),
        b"ply\nformat ascii 1.0\nelement vertex 2\n\
          property int x\nproperty int y\nproperty int z\nend_header\n\
          -45000 0 160000\n2147483647 -2147483648 7\n"
            .as_slice()
    );
    Ok(())
}
