ghost use Rattle.std.specs.Prelude.{◌≤◌};

use super::*;
use scan_io::{Feed, MemSource};
use std::alloc::Global;
use std::test::Fail;

fn is_shared<T: Send + Sync>(_value: &T) {}

#[test]
fn samples_stand_row_by_row(rt: HostRuntime) -> Result<(), Fail> {
    let raw = vec![in rt.alloc(); 10_u16, 20, 30, 40, 50, 60]?;
    let frame = DepthFrame::make(3, 2, raw);
    is_shared(&frame);
    assert_eq!(rt; frame.width(), 3);
    assert_eq!(rt; frame.height(), 2);
    assert_eq!(rt; frame.samples(), [10, 20, 30, 40, 50, 60].as_slice());
    for (u, v, raw) in [(0, 0, 10), (2, 0, 30), (0, 1, 40), (2, 1, 60)] {
        assert_eq!(rt; frame.at(u, v), raw, "at ({u}, {v})");
    }
    Ok(())
}

// What is read of the bytes, in pieces, after the feed gave the first few, and the next byte to come then.
fn read(
    alloc: Global,
    bytes: &[u8],
    piece: usize,
    before: usize,
) -> Result<(Result<DepthFrame, PgmError>, Option<u8>), Fail>
    requires { 1 ≤ piece }
{
    let mut feed = Feed::make(alloc).map_err(|_| Fail::from("memory"))?;
    let mut source = MemSource::make(bytes.to_vec(alloc)?, piece, Vec::new(alloc));
    for _ in 0..before {
        feed.next(&mut source).map_err(|_| Fail::from("fault"))?;
    }
    let result = read_pgm(alloc, &mut feed, &mut source);
    let next = feed.next(&mut source).map_err(|_| Fail::from("fault"))?;
    Ok((result, next))
}

fn refusal(answer: &Result<DepthFrame, PgmError>) -> Option<BadPgm> {
    match answer {
        Err(PgmError::Bad(why)) => Some(*why),
        _ => None,
    }
}

#[test]
fn bad_files_are_refused_at_their_byte(rt: HostRuntime) -> Result<(), Fail> {
    let alloc = rt.alloc();
    let cases: [(&str, &[u8], u64, PgmKind); 20] = [
        ("one byte", b"P", 1, PgmKind::Short),
        ("P6", b"P6 ", 0, PgmKind::Magic),
        ("no gap after P5", b"P5x", 2, PgmKind::Header),
        ("ends in a comment", b"P5\n#", 4, PgmKind::Short),
        ("width 0", b"P5\n0 1\n9\n", 3, PgmKind::Header),
        ("height 4097", b"P5\n1 4097\n", 5, PgmKind::Header),
        ("width 0 after a comment", b"P5\n#1\r0 ", 6, PgmKind::Header),
        ("form before range", b"P5\n99999x", 8, PgmKind::Header),
        ("ten digits", b"P5\n1234567890", 12, PgmKind::Header),
        ("maxval 0", b"P5\n1 1\n0\n", 7, PgmKind::Maxval),
        ("maxval 65536", b"P5\n1 1\n65536\n", 7, PgmKind::Maxval),
        (
            "comment after the maxval",
            b"P5\n1 1\n65536#",
            12,
            PgmKind::Header,
        ),
        (
            "ends after the maxval",
            b"P5\n1 1\n65536",
            12,
            PgmKind::Short,
        ),
        (
            "narrow sample above 9",
            b"P5\n1 1\n9\n\n",
            9,
            PgmKind::Sample,
        ),
        ("no sample", b"P5\n1 1\n9\n", 9, PgmKind::Short),
        ("one of two samples", b"P5\n2 1\n9\n\t", 10, PgmKind::Short),
        (
            "wide sample above 300",
            b"P5\n1 1\n300\n\x01\x2d",
            11,
            PgmKind::Sample,
        ),
        (
            "half of a wide sample",
            b"P5\n1 1\n300\n\x02",
            12,
            PgmKind::Short,
        ),
        (
            "third narrow sample",
            b"P5\n3 1\n9\n\x01\x09\x0a",
            11,
            PgmKind::Sample,
        ),
        (
            "third wide sample",
            b"P5\n3 1\n300\n\x00\xff\x01\x2c\x01\x2d",
            15,
            PgmKind::Sample,
        ),
    ];
    for (name, bytes, at, kind) in cases {
        for piece in [1, 2, 7, 4096] {
            let (result, _) = read(alloc, bytes, piece, 0)?;
            assert_eq!(rt;
                refusal(&result),
                Some(BadPgm { at, kind }),
                "{name}, in pieces of {piece}"
            );
        }
    }
    Ok(())
}

#[test]
fn offsets_count_from_the_first_byte_given(rt: HostRuntime) -> Result<(), Fail> {
    let alloc = rt.alloc();
    let (result, _) = read(alloc, b"end\nP5\n0 1\n9\n", 7, 4)?;
    let kind = PgmKind::Header;
    assert_eq!(rt; refusal(&result), Some(BadPgm { at: 7, kind }));
    Ok(())
}

#[test]
fn good_files_are_read_to_their_last_byte(rt: HostRuntime) -> Result<(), Fail> {
    let alloc = rt.alloc();
    let cases: [(&str, &[u8], u32, u32, &[u16]); 5] = [
        ("a comment", b"P5\n# depth\n1 1\n255\n\xc8=", 1, 1, &[200]),
        ("nine digits", b"P5\n000000001 1\n9\n\x09=", 1, 1, &[9]),
        (
            "maxval 256",
            b"P5\n1 2\n256\n\x01\x00\x00\xff=",
            1,
            2,
            &[256, 255],
        ),
        (
            "maxval 65535",
            b"P5\n2 2\n65535\n\x00\x01\x01\x2c\xff\xff\x00\x00=",
            2,
            2,
            &[1, 300, 65535, 0],
        ),
        (
            "every kind of gap",
            b"P5#one\n\x0b2 # two\r#three\n\t1\x0c\n255\r\xff\x00=",
            2,
            1,
            &[255, 0],
        ),
    ];
    for (name, bytes, width, height, samples) in cases {
        for piece in [1, 2, 7, 4096] {
            let (result, next) = read(alloc, bytes, piece, 0)?;
            let Ok(frame) = result else {
                return Err(Fail::from("refused"));
            };
            assert_eq!(rt; frame.width(), width, "{name}");
            assert_eq!(rt; frame.height(), height, "{name}");
            assert_eq!(rt; frame.samples(), samples, "{name}, in pieces of {piece}");
            assert_eq!(rt; next, Some(b'='), "{name}");
        }
    }
    Ok(())
}

#[test]
fn a_header_has_at_most_4096_bytes(rt: HostRuntime) -> Result<(), Fail> {
    let alloc = rt.alloc();
    // At byte number 4096 the range of a side is judged first, and that of the maxval is not.
    let cases: [(&str, usize, &[u8], Option<u64>); 4] = [
        ("4096 bytes", 4088, b"1 1 9\n\x05", None),
        ("4097 bytes", 4089, b"1 1 9\n\x05", Some(4096)),
        ("width 0 before the limit", 4093, b"0 1 9\n\x05", Some(4095)),
        ("maxval 0 at the limit", 4089, b"1 1 0\n\x05", Some(4096)),
    ];
    for (name, gap, numbers, at) in cases {
        let mut bytes = b"P5".to_vec(alloc)?;
        for _ in 0..gap {
            bytes.push(b' ')?;
        }
        bytes.extend_from_slice(numbers)?;
        let (result, _) = read(alloc, bytes.as_slice(), 4096, 0)?;
        let kind = PgmKind::Header;
        assert_eq!(rt;
            refusal(&result),
            at.map(|at| BadPgm { at, kind }),
            "{name}"
        );
        assert_eq!(rt; result.is_ok(), at.is_none(), "{name}");
    }
    Ok(())
}

#[test]
fn a_failing_source_is_a_counted_read_fault(rt: HostRuntime) -> Result<(), Fail> {
    let alloc = rt.alloc();
    let mut bytes = b"P5\n65 65\n9\n".to_vec(alloc)?;
    for _ in 0..65 * 65 {
        bytes.push(5)?;
    }
    let cases: [(&str, usize, u64); 6] = [
        ("in the header, in pieces of 1", 1, 5),
        ("in the raster, in pieces of 1", 1, 20),
        ("in the header, in pieces of 7", 7, 1),
        ("in the raster, in pieces of 7", 7, 2),
        ("before the header, in pieces of 4096", 4096, 0),
        ("in the raster, in pieces of 4096", 4096, 1),
    ];
    for (name, piece, call) in cases {
        let mut feed = Feed::make(alloc).map_err(|_| Fail::from("memory"))?;
        let mut source = MemSource::make(bytes.clone()?, piece, vec![in alloc; call]?);
        let result = read_pgm(alloc, &mut feed, &mut source);
        assert_eq!(rt; result.err(), Some(PgmError::ReadFault), "{name}");
        assert_eq!(rt; source.faults(), 1, "{name}");
    }
    Ok(())
}

#[test]
fn a_frame_is_written_with_two_bytes_a_sample(rt: HostRuntime) -> Result<(), Fail> {
    let alloc = rt.alloc();
    let frame = DepthFrame::make(3, 1, vec![in alloc; 1, 300, 65535]?);
    let bytes = pgm_bytes(alloc, &frame).map_err(|_| Fail::from("memory"))?;
    let want: &[u8] = b"P5\n3 1\n65535\n\x00\x01\x01\x2c\xff\xff";
    assert_eq!(rt; bytes.as_slice(), want);
    Ok(())
}

#[test]
fn errors_are_told_in_words(rt: HostRuntime) -> Result<(), Fail> {
    let alloc = rt.alloc();
    let kind = PgmKind::Sample;
    let cases = [
        (
            PgmError::Bad(BadPgm { at: 9, kind }),
            "a sample is above the maxval, at byte 9",
        ),
        (PgmError::ReadFault, "the input could not be read"),
        (PgmError::NoMemory, "out of memory"),
    ];
    for (error, want) in cases {
        assert_eq!(rt; format!(in alloc; "{error}")?.as_str(), want);
    }
    Ok(())
}
