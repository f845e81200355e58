use super::{END, Shot, WALL, config, run_on, scan};
use crate::status::Status;
use std::test::Fail;

// The block behind the wall has no distance nearer to 0 than 32767. Each run ends with the totals.
#[test]
fn collections_are_answered(rt: HostRuntime) -> Result<(), Fail> {
    let alloc = rt.alloc();
    let table: [(&str, &str, &[Shot], &str, &[Shot], &str); 3] = [
        (
            "before the first frame",
            "\"empty_f\":30000",
            &[],
            "render\npoints\ncollect\n",
            &[],
            "render refused no frame\npoints 0\nply\nformat ascii 1.0\nelement vertex 0\nproperty int x\nproperty int y\nproperty int z\nend_header\ncollect 0\nsum blocks 0 known 0 weight 0 distance 0\nend\n",
        ),
        (
            "between two frames",
            "\"empty_f\":30000",
            &[WALL],
            "collect\n",
            &[WALL],
            "frame 1 blocks 2 resident 2\ncollect 1\nframe 2 blocks 2 resident 2\nsum blocks 2 known 576 weight 1088 distance -192\nend\n",
        ),
        (
            "of every block",
            "\"empty_f\":0",
            &[WALL],
            "collect\n",
            &[],
            "frame 1 blocks 2 resident 2\ncollect 2\nsum blocks 0 known 0 weight 0 distance 0\nend\n",
        ),
    ];
    for (name, empty_f, before, asked, after, wanted) in table {
        let begun = scan(config(alloc, "\"empty_f\":30000", empty_f)?, before, asked)?;
        let text = scan(begun, after, "sum\nend\n")?;
        let (status, sink) = run_on(&rt, alloc, text, 7, Vec::new(alloc), Vec::new(alloc))?;
        assert_eq!(rt; status, Status::Done, "{name}");
        assert_eq!(rt; sink.bytes(), wanted.as_bytes(), "{name}");
    }
    Ok(())
}

// Each view of a wall, ahead or behind, by the last entry of its rotation and its sample; the totals, the sample of its picture, and
// the depth of each of its 64 points.
#[test]
fn the_points_of_a_wall_are_a_file(rt: HostRuntime) -> Result<(), Fail> {
    let alloc = rt.alloc();
    let table: [(i32, &[u8], &str, &[u8], i32); 4] = [
        (
            1,
            b"\x03\xe8",
            "576 weight 576 distance -192",
            b"\x03\xe8",
            1_000_000,
        ),
        // 10000 * 4095 / 8191 behind the voxel at 1 m.
        (
            1,
            b"\x03\xed",
            "576 weight 576 distance 2096832",
            b"\x03\xec",
            1_004_999,
        ),
        (
            -1,
            b"\x03\xe8",
            "1024 weight 1024 distance 14679424",
            b"\x03\xe8",
            -1_000_000,
        ),
        (
            -1,
            b"\x03\xed",
            "512 weight 512 distance -256",
            b"\x03\xec",
            -1_005_000,
        ),
    ];
    for (axis, sample, sums, seen, z) in table {
        let line = format!(in alloc; "frame {axis} 0 0 0 0 1 0 0 0 0 {axis} 0\nP5\n1 1\n65535\n")?;
        let mut text = scan(config(alloc, "", "")?, &[], line.as_str())?;
        text.extend_from_slice(sample)?;
        text.extend_from_slice(b"sum\nrender\npoints\nend\n")?;
        let head = format!(in alloc;
            "frame 1 blocks 2 resident 2\nsum blocks 2 known {sums}\nrender 1\nP5\n1 1\n65535\n"
        )?;
        let mut wanted = head.into_bytes();
        wanted.extend_from_slice(seen)?;
        wanted.extend_from_slice(
            b"points 64\nply\nformat ascii 1.0\nelement vertex 64\nproperty int x\nproperty int y\nproperty int z\nend_header\n",
        )?;
        for i in 0..64_u32 {
            let point = format!(in alloc; "{} {} {z}\n", i % 8 * 10_000, i / 8 % 8 * 10_000)?;
            wanted.extend_from_slice(point.as_bytes())?;
        }
        wanted.extend_from_slice(END.as_bytes())?;
        let (status, sink) = run_on(&rt, alloc, text, 7, Vec::new(alloc), Vec::new(alloc))?;
        assert_eq!(rt; status, Status::Done);
        assert_eq!(rt; sink.bytes(), wanted.as_slice());
    }
    Ok(())
}

#[test]
fn an_8_bit_depth_map_is_scaled_by_the_unit(rt: HostRuntime) -> Result<(), Fail> {
    let alloc = rt.alloc();
    let line = "frame 1 0 0 0 0 1 0 0 0 0 1 0\n";
    let mut text = scan(config(alloc, "\"unit\":1000", "\"unit\":5000")?, &[], line)?;
    text.extend_from_slice(b"P5\n# depth\n1 1\n255\n\xc8")?;
    text.extend_from_slice(line.as_bytes())?;
    text.extend_from_slice(b"P5 2 1 255 \xc8\xc8end\n")?;
    let (status, sink) = run_on(&rt, alloc, text, 7, Vec::new(alloc), Vec::new(alloc))?;
    assert_eq!(rt; status, Status::Done);
    assert_eq!(rt;
        sink.bytes(),
        b"frame 1 blocks 2 resident 2\nframe refused size\nend\n".as_slice()
    );
    Ok(())
}

// Three turned views of a corner by 8 by 6 pixels; what they give was computed by examples/expected.py.
#[test]
fn turned_views_are_fused(rt: HostRuntime) -> Result<(), Fail> {
    let alloc = rt.alloc();
    let text =
        b"{\"version\":1,\"width\":8,\"height\":6,\"fx\":20971520,\"fy\":19922944,\"cx\":229376,\"cy\":163840,\"unit\":10000,\"near\":500000,\"far\":1300000,\"voxel\":10000,\"mu\":25000,\"max_weight\":2,\"radius\":833626,\"centre\":662500,\"heap_blocks\":24,\"buckets\":4,\"empty_f\":30000}
frame 0.939692621 -0.059391175 0.336824089 -0.293824  0.000000000 0.984807753 0.173648178 -0.137648  -0.342020143 -0.163175911 0.925416578 0.044583
P5 8 6 255
ddddeeeeddddeeefccdddeeecccddd.ecccdddeebccdddee
sum
frame 0.000000000 -0.906307787 -0.422618262 0.461392  1.000000000 0.000000000 0.000000000 0.036000  0.000000000 -0.422618262 0.906307787 0.072755
P5 8 6 255
ddddddddddcccddddcccccddddcccddddd.dd.dddddddddd
sum
frame 0.862729916 0.498097349 0.087155743 -0.045899  -0.366282996 0.734401720 -0.571393805 0.618822  -0.348617067 0.461034862 0.816034923 0.137644
P5 8 6 255
cdcdcdcddcdcdcdccdcdcdcddcdAdcdccdcdcdcdeeeeeeee
sum
voxels
end
"
            .to_vec(alloc)?;
    let begins = b"frame 1 blocks 2 resident 2
sum blocks 2 known 59 weight 59 distance 1047871
frame 2 blocks 2 resident 2
sum blocks 2 known 84 weight 95 distance 1508130
frame 3 blocks 4 resident 4
sum blocks 4 known 128 weight 143 distance 2539558
voxels 4 128
0 1 88 32767 1
"
        .as_slice();
    let ends = b"
1 24 68 32767 1
2 24 68 32767 1
1 24 69 32767 1
end
"
        .as_slice();
    let (status, sink) = run_on(&rt, alloc, text, 7, Vec::new(alloc), Vec::new(alloc))?;
    assert_eq!(rt; status, Status::Done);
    assert_eq!(rt; sink.bytes().len(), 2196);
    assert!(rt; sink.bytes().starts_with(begins));
    assert!(rt; sink.bytes().ends_with(ends));
    Ok(())
}
