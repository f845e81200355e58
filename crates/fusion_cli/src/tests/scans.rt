use super::{END, FAR_WALL, ONE_FRAME, Shot, WALL, config, refused, run_on, scan};
use crate::status::Status;
use depth_frame::PgmKind;
use scan_lang::{BadConfig, BadWhat};
use std::test::Fail;

#[test]
fn scans_are_answered(rt: HostRuntime) -> Result<(), Fail> {
    let alloc = rt.alloc();
    let table: [(&str, &str, &str, &[Shot], &str, &str, Status); 26] = [
        (
            "a scan without records",
            "",
            "",
            &[],
            END,
            END,
            Status::Done,
        ),
        (
            "bytes after the end",
            "",
            "",
            &[],
            "end\nwhat stands behind it",
            END,
            Status::Done,
        ),
        (
            "depths that are not valid",
            "",
            "",
            &[(false, [0, 0]), (false, [0xff, 0xff])],
            END,
            "frame 1 blocks 0 resident 0\nframe 2 blocks 0 resident 0\nend\n",
            Status::Done,
        ),
        (
            "the same wall twice",
            "",
            "",
            &[WALL, WALL],
            "sum\nend\n",
            "frame 1 blocks 2 resident 2\nframe 2 blocks 2 resident 2\nsum blocks 2 known 576 weight 1152 distance -192\nend\n",
            Status::Done,
        ),
        (
            "a wall one step further",
            "",
            "",
            &[WALL, (false, [0x03, 0xf2])],
            "sum\nend\n",
            "frame 1 blocks 2 resident 2\nframe 2 blocks 2 resident 2\nsum blocks 2 known 640 weight 1216 distance -128\nend\n",
            Status::Done,
        ),
        // Depths of 499, 500, 2000 and 2001 millimetres, where 500 to 2000 are valid.
        (
            "the ends of the valid depths",
            "",
            "",
            &[
                (false, [0x01, 0xf3]),
                (false, [0x01, 0xf4]),
                (false, [0x07, 0xd0]),
                (false, [0x07, 0xd1]),
            ],
            END,
            "frame 1 blocks 0 resident 0\nframe 2 blocks 2 resident 2\nframe 3 blocks 4 resident 4\nframe 4 blocks 4 resident 4\nend\n",
            Status::Done,
        ),
        (
            "no frame",
            "",
            "",
            &[],
            "sum\nvoxels\nend\n",
            "sum blocks 0 known 0 weight 0 distance 0\nvoxels 0 0\nend\n",
            Status::Done,
        ),
        (
            "one block too many for the heap",
            "\"heap_blocks\":64",
            "\"heap_blocks\":1",
            &[WALL],
            "voxels\nend\n",
            "frame refused heap 1\nvoxels 0 0\nend\n",
            Status::Done,
        ),
        (
            "just enough cells",
            "\"heap_blocks\":64",
            "\"heap_blocks\":2",
            &[WALL],
            END,
            "frame 1 blocks 2 resident 2\nend\n",
            Status::Done,
        ),
        // The heap has room for two blocks; those of the far wall take the cells, and give them back.
        (
            "blocks that leave the heap and come back",
            "\"heap_blocks\":64",
            "\"heap_blocks\":2",
            &[WALL, FAR_WALL, WALL],
            "sum\nend\n",
            "frame 1 blocks 2 resident 2\nframe 2 blocks 4 resident 2\nframe 3 blocks 4 resident 2\nsum blocks 4 known 1152 weight 1728 distance -384\nend\n",
            Status::Done,
        ),
        (
            "the place of a block that leaves the heap and comes back",
            "\"unit\":1000",
            "\"unit\":10000",
            &[],
            "frame 1 0 0 0 0 1 0 0 0 0 1 0\nP5 1 1 255\ndplace 0 0 12\nplace 1 0 12\nframe 1 0 0 50 0 1 0 0 0 0 1 0\nP5 1 1 255\ndplace 0 0 12\nframe 1 0 0 0 0 1 0 0 0 0 1 0\nP5 1 1 255\ndplace 0 0 12\nend\n",
            "frame 1 blocks 2 resident 2\nplace heap\nplace none\nframe 2 blocks 4 resident 2\nplace store\nframe 3 blocks 4 resident 2\nplace heap\nend\n",
            Status::Done,
        ),
        // A sample of 100, in two bytes, is one metre.
        (
            "pictures before and after a frame",
            "\"unit\":1000",
            "\"unit\":10000",
            &[],
            "render\nframe 1 0 0 0 0 1 0 0 0 0 1 0\nP5 1 1 255\ndrender\nend\n",
            "render refused no frame\nframe 1 blocks 2 resident 2\nrender 1\nP5\n1 1\n65535\n\0dend\n",
            Status::Done,
        ),
        // A mirrored camera that looks back.
        (
            "a mirrored camera that looks back",
            "\"unit\":1000",
            "\"unit\":10000",
            &[],
            "frame -1 0 0 0 0 1 0 0 0 0 -1 0\nP5 1 1 255\nd\nsum\nrender\nend\n",
            "frame 1 blocks 2 resident 2\nsum blocks 2 known 1024 weight 1024 distance 14679424\nrender 1\nP5\n1 1\n65535\n\0dend\n",
            Status::Done,
        ),
        // Poses: nearly a rotation, mirrored, too great, too far, just not too far; and another size.
        (
            "a pose that is nearly a rotation",
            "",
            "",
            &[],
            "frame 9.99800e-01 -1.9999e-02 0 0 1.9999e-02 9.99800e-01 0 0 0 0 1 0\nP5 1 1 1\n\0\nend\n",
            "frame 1 blocks 0 resident 0\nend\n",
            Status::Done,
        ),
        (
            "poses that are refused",
            "",
            "",
            &[],
            "frame -1 0 0 0 0 1 0 0 0 0 1 0\nP5 1 1 1\n\0frame 1.001 0 0 0 0 1 0 0 0 0 1 0\nP5 1 1 1\n\0end\n",
            "frame refused pose rotation\nframe refused pose range\nend\n",
            Status::Done,
        ),
        (
            "a translation at its bound",
            "",
            "",
            &[],
            "frame 1 0 0 1e3 0 1 0 0 0 0 1 0\nP5 1 1 1\n\0frame 1 0 0 100 0 1 0 0 0 0 1 0\nP5 1 1 1\n\0end\n",
            "frame refused pose range\nframe 1 blocks 0 resident 0\nend\n",
            Status::Done,
        ),
        (
            "an 8-bit depth map, then another size",
            "\"unit\":1000",
            "\"unit\":10000",
            &[],
            "frame 1 0 0 0 0 1 0 0 0 0 1 0\nP5\n# depth\n1 1\n255\ndframe 2 0 0 0 0 1 0 0 0 0 1 0\nP5 2 1 255 ddend\n",
            "frame 1 blocks 2 resident 2\nframe refused size\nend\n",
            Status::Done,
        ),
        // Refusals.
        ("no end", "", "", &[], "", "", refused(233, BadWhat::Short)),
        (
            "an end without a line feed",
            "",
            "",
            &[WALL],
            "end",
            ONE_FRAME,
            refused(281, BadWhat::Short),
        ),
        (
            "a word that is no record's",
            "",
            "",
            &[],
            "frames 1\n",
            "",
            refused(233, BadWhat::Line),
        ),
        (
            "a word that is no number",
            "",
            "",
            &[WALL],
            "frame 1 0 x 0 0 1 0 0 0 0 1 0\n",
            ONE_FRAME,
            refused(288, BadWhat::Number),
        ),
        (
            "a sample above the maxval",
            "",
            "",
            &[WALL],
            "frame 1 0 0 0 0 1 0 0 0 0 1 0\nP5\n1 1\n9\n:",
            ONE_FRAME,
            refused(317, BadWhat::Pgm(PgmKind::Sample)),
        ),
        (
            "a voxel that is too small",
            "\"voxel\":10000",
            "\"voxel\":999",
            &[],
            END,
            "",
            refused(0, BadWhat::Config(BadConfig::Field(11))),
        ),
        (
            "a focal length that reaches too far",
            "\"fx\":65536",
            "\"fx\":1",
            &[],
            END,
            "",
            refused(0, BadWhat::Config(BadConfig::Reach)),
        ),
        (
            "a radius that is just too small",
            "\"radius\":2100000",
            "\"radius\":2016108",
            &[],
            END,
            "",
            refused(0, BadWhat::Config(BadConfig::Sphere)),
        ),
        (
            "a radius that is just enough",
            "\"radius\":2100000",
            "\"radius\":2016109",
            &[],
            END,
            END,
            Status::Done,
        ),
    ];
    for (name, field, value, samples, more, wanted, end) in table {
        for piece in [1, 7, 4096] {
            let text = scan(config(alloc, field, value)?, samples, more)?;
            let (status, sink) = run_on(&rt, alloc, text, piece, Vec::new(alloc), Vec::new(alloc))?;
            assert_eq!(rt; status, end, "{name} by {piece}");
            assert_eq!(rt; sink.bytes(), wanted.as_bytes(), "{name} by {piece}");
        }
    }
    Ok(())
}
