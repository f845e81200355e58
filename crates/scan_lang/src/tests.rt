use super::*;
use crate::BadConfig::{Field, Json, Names, Reach, Sphere};
use crate::BadWhat::{Line, Lines, Long, Number, Short};
use camera::CameraFields;
use crossing_export::Crossing;
use depth_frame::{DepthFrame, PgmKind};
use fixed_geom::Vec3;
use scan_io::MemSource;
use std::alloc::Global;
use std::test::Fail;
use voxel_block::BlockKey;

const BASE: &str =
    "{\"version\":1,\"width\":1,\"height\":1,\"fx\":65536,\"fy\":65536,\"cx\":0,\"cy\":0,\"unit\":1000,\"near\":500000,\"far\":2000000,\"voxel\":10000,\"mu\":40000,\"max_weight\":255,\"radius\":2100000,\"centre\":1020000,\"heap_blocks\":64,\"buckets\":16,\"empty_f\":30000}";

// The line of a frame, after the first line.
const FRAME: &[u8] = b"\nframe 1 0 0 0 0 1 0 0 0 0 1 0\n";

// What a test compares of a record: of a frame its rows and its first sample.
#[derive(Clone, Copy, Debug, PartialEq, Eq)]
enum Seen {
    Frame([i64; 9], Vec3, Option<u16>),
    Collect,
    Render,
    Voxels,
    Points,
    Sum,
    Place(BlockKey),
    End,
}

fn is_sent<T: Send>(_value: &T) {}

fn summary(entry: Entry) -> Seen {
    is_sent(&entry);
    match entry {
        Entry::Frame(rows, depths) => {
            Seen::Frame(rows.r, rows.t, depths.samples().first().copied())
        }
        Entry::Collect => Seen::Collect,
        Entry::Render => Seen::Render,
        Entry::Voxels => Seen::Voxels,
        Entry::Points => Seen::Points,
        Entry::Sum => Seen::Sum,
        Entry::Place(key) => Seen::Place(key),
        Entry::End => Seen::End,
    }
}

// The records of a text that a source gives in pieces of `piece` bytes, or why there are none. The call of the number
// `failing` fails.
fn records(
    alloc: Global,
    text: &[u8],
    piece: usize,
    failing: u64,
) -> Result<Result<Vec<Seen>, ScanError>, Fail> {
    if piece == 0 {
        return Err(Fail::from("pieces of no bytes"));
    }
    let fails = Vec::from_array(alloc, [failing])?;
    let mut source = MemSource::make(text.to_vec(alloc)?, piece, fails);
    let mut reader = match ScanReader::begin(alloc, &mut source) {
        Ok((_, reader)) => reader,
        Err(why) => return Ok(Err(why)),
    };
    is_sent(&reader);
    let mut all = Vec::new(alloc);
    for _ in 0..9 {
        match reader.next(alloc, &mut source) {
            Ok(entry) => all.push(summary(entry))?,
            Err(why) => return Ok(Err(why)),
        }
        if all.last().copied() == Some(Seen::End) {
            return Ok(Ok(all));
        }
    }
    Err(Fail::from("too many records"))
}

// The base line with one text in place of another, then `rest`, then the byte `fill` up to `len` bytes.
fn scan(
    alloc: Global,
    change: (&str, &str),
    rest: &[u8],
    len: usize,
    fill: u8,
) -> Result<Vec<u8>, Fail> {
    let line = BASE.replace(alloc, change.0, change.1)?;
    let mut text = line.as_str().as_bytes().to_vec(alloc)?;
    text.extend_from_slice(rest)?;
    if text.len() < len {
        text.resize(len, fill)?;
    }
    Ok(text)
}

#[test]
fn records_are_read_in_pieces(rt: HostRuntime) -> Result<(), Fail> {
    let alloc = rt.alloc();
    let one = 1_073_741_824;
    let rows = [one, 0, 0, 0, one, 0, 0, 0, one];
    let place = Vec3 {
        x: 500_000,
        y: 1,
        z: 0,
    };
    let rest =
        b"\nframe 1.0000000000000000000e+00 0 0 .5 0 1 0 0.0000005 0 0 1 -0.0000005\nP5\n1 1\n65535\n\x03\xE8\n\n \t\r\n\t sum\r\nvoxels\t \ncollect\n render\r\n points \nplace -32768 32767 -0\nend\nend now\n";
    let text = scan(alloc, ("{", "{"), rest, 0, b' ')?;
    let all = vec![in alloc;
        Seen::Frame(rows, place, Some(1000)),
        Seen::Sum,
        Seen::Voxels,
        Seen::Collect,
        Seen::Render,
        Seen::Points,
        Seen::Place(BlockKey {
            x: i16::MIN,
            y: i16::MAX,
            z: 0
        }),
        Seen::End,
    ]?;
    for piece in [1, 4096] {
        let found = records(alloc, &text, piece, 9999)?;
        assert_eq!(rt; found.ok(), Some(all.clone()?), "by {piece}");
    }
    Ok(())
}

// Whether the text, in pieces of any size, is refused so.
fn is_refused(alloc: Global, text: &[u8], at: u64, what: BadWhat) -> Result<bool, Fail> {
    let bad = Some(ScanError::Bad(BadScan { at, what }));
    Ok(
        records(alloc, text, 1, 9_999_999)?.err() == bad
            && records(alloc, text, 4096, 9_999_999)?.err() == bad,
    )
}

#[test]
fn a_bad_first_line_is_refused_at_its_offset(rt: HostRuntime) -> Result<(), Fail> {
    let alloc = rt.alloc();
    let json = BadWhat::Config(Json);
    let cases: [(&str, (&str, &str), &[u8], u64, BadWhat); 5] = [
        ("no byte", (BASE, ""), b"", 0, Short),
        ("no line feed", ("{", "{"), b"", 232, Short),
        ("no record", ("{", "{"), b"\n", 233, Short),
        ("an array", (BASE, "[]"), b"\n", 0, json),
        ("an empty line", (BASE, ""), b"\nend\n", 0, json),
    ];
    for (name, change, rest, at, what) in cases {
        let text = scan(alloc, change, rest, 0, b' ')?;
        assert!(rt; is_refused(alloc, &text, at, what)?, "{name}");
    }
    Ok(())
}

#[test]
fn a_bad_record_is_refused_at_its_offset(rt: HostRuntime) -> Result<(), Fail> {
    let alloc = rt.alloc();
    let (magic, header) = (BadWhat::Pgm(PgmKind::Magic), BadWhat::Pgm(PgmKind::Header));
    let cases: [(&str, &[u8], u64, BadWhat); 20] = [
        ("an unknown word", b"frames 1\n", 233, Line),
        ("after blank lines", b"\n \n\rsums\n", 236, Line),
        ("a word after end", b"end now\n", 233, Line),
        ("a word after sum", b"sum 1\n", 233, Line),
        ("a word after render", b"render x\n", 233, Line),
        ("a word after collect", b"collect 1\n", 233, Line),
        ("a word after points", b"points 1\n", 233, Line),
        ("a capital", b"Render\n", 233, Line),
        ("a capital", b"Collect\n", 233, Line),
        ("a sign alone", b"+\n", 233, Line),
        ("no line feed", b"voxels", 239, Short),
        ("eleven words", b"frame 1 0 x 0 0 1 0 0 0 0 1\n", 233, Line),
        ("thirteen", b"frame 1 0 x 0 0 1 0 0 0 0 1 0 0\n", 233, Line),
        ("no number", b"frame 1 0 x 0 0 1 0 0 0 0 1 0\n", 243, Number),
        (
            "range",
            b"frame  1 0 0 0 0 1 0 0 0 0 1 1e4\t\n",
            262,
            Number,
        ),
        ("two coordinates", b"place 0 0\n", 233, Line),
        ("four", b"place 0 0 x 0\n", 233, Line),
        ("a coordinate's range", b"place 0 0 40000\n", 243, Number),
        ("a plus", b"place 0 +1 0\n", 241, Number),
        ("six digits", b"place 000001 0 x\n", 239, Number),
    ];
    for (name, rest, at, what) in cases {
        let mut text = scan(alloc, ("{", "{"), b"\n", 0, b' ')?;
        text.extend_from_slice(rest)?;
        assert!(rt; is_refused(alloc, &text, at, what)?, "{name}");
    }
    let cases: [(&str, &[u8], u64, BadWhat); 5] = [
        ("the other form", b"P6\n", 263, magic),
        ("no gap", b"P5x", 265, header),
        ("half a sample", b"P5\n1 1\n65535\n\x03", 277, Short),
        (
            "no record after it",
            b"P5\n1 1\n65535\n\x03\xE8",
            278,
            Short,
        ),
        (
            "an unknown word",
            b"P5\n1 1\n65535\n\x03\xE8no\n",
            278,
            Line,
        ),
    ];
    for (name, rest, at, what) in cases {
        let mut text = scan(alloc, ("{", "{"), FRAME, 0, b' ')?;
        text.extend_from_slice(rest)?;
        assert!(rt; is_refused(alloc, &text, at, what)?, "{name} in a frame");
    }
    Ok(())
}

#[test]
fn a_source_that_fails_inside_a_depth_map_is_a_read_fault(rt: HostRuntime) -> Result<(), Fail> {
    let alloc = rt.alloc();
    let mut text = scan(alloc, ("{", "{"), FRAME, 0, b' ')?;
    text.extend_from_slice(b"P5\n48 48\n65535\n")?;
    text.resize(4886, 3)?;
    text.extend_from_slice(b"end\n")?;
    let cases = [
        ("before its first byte", 1, 263),
        ("in its header", 1, 270),
        ("in its samples", 1, 1000),
        ("before its last byte", 1, 4885),
        ("in its header", 7, 39),
        ("in its samples", 7, 142),
        ("in its last samples", 7, 697),
        ("in its samples", 4096, 1),
    ];
    for (name, piece, failing) in cases {
        let found = records(alloc, &text, piece, failing)?;
        let fault = Some(ScanError::ReadFault);
        assert_eq!(rt; found.err(), fault, "{name} by {piece}");
        let whole = records(alloc, &text, piece, 9999)?;
        assert_eq!(rt; whole.ok().map(|all| all.len()), Some(2));
    }
    Ok(())
}

#[test]
fn lines_have_their_limits(rt: HostRuntime) -> Result<(), Fail> {
    let alloc = rt.alloc();
    let same = ("{", "{");
    let cases: [(&str, &[u8], usize, u8, u64, BadWhat); 5] = [
        ("a configuration", b"", 4097, b' ', 4096, Long),
        ("no configuration", b"", 4096, b' ', 4096, Short),
        ("a line", b"\nvoxels", 1258, b'x', 1257, Long),
        ("no line", b"\n", 1257, b'\r', 1257, Short),
        ("the lines", b"", 1_000_232, b'\n', 1_000_232, Lines),
    ];
    for (name, rest, len, fill, at, what) in cases {
        let mut text = scan(alloc, same, rest, len, fill)?;
        if fill == b'\n' {
            text.extend_from_slice(b"end\n")?;
        }
        assert!(rt; is_refused(alloc, &text, at, what)?, "{name}");
    }
    let mut text = scan(alloc, same, b"", 1_000_231, b'\n')?;
    text.extend_from_slice(b"end\n")?;
    assert!(rt; records(alloc, &text, 4096, 9999)?.is_ok(), "1000000 lines");
    let mut text = scan(alloc, same, b"", 4096, b' ')?;
    text.extend_from_slice(b"\nvoxels")?;
    text.resize(4097 + 1024, b' ')?;
    text.extend_from_slice(b"\nend\n")?;
    let found = records(alloc, &text, 1, 9999)?;
    assert_eq!(rt; found.ok(), Some(vec![in alloc; Seen::Voxels, Seen::End]?));
    Ok(())
}

// The configuration that the base line is with two texts in place of two others.
fn changed(
    alloc: Global,
    first: (&str, &str),
    second: (&str, &str),
) -> Result<Result<Config, ConfigError>, Fail> {
    let once = BASE.replace(alloc, first.0, first.1)?;
    let line = once.as_str().replace(alloc, second.0, second.1)?;
    Ok(read_config(alloc, line.as_str().as_bytes()))
}

#[test]
fn a_configuration_is_accepted_or_refused(rt: HostRuntime) -> Result<(), Fail> {
    let alloc = rt.alloc();
    let same = ("{", "{");
    let sphere = ("2100000", "2016108");
    let reach = ("\"fx\":65536", "\"fx\":1");
    let weight = ("255", "0");
    let version = ("\"version\":1", "\"version\":2");
    let twice = ("\"version\":1", "\"version\":2,\"version\":1");
    let long = ("30000", "9223372036854775808");
    let column = ("\"cx\":0", "\"cx\":65537");
    let buckets = ("\"buckets\":16", "\"buckets\":12");
    let cases = [
        ("the least radius", ("2100000", "2016109"), same, None),
        ("a name twice", twice, same, None),
        ("no JSON", (BASE, "{"), same, Some(Json)),
        ("an empty object", (BASE, "{}"), same, Some(Names)),
        ("a missing name", ("\"cx\":0,", ""), same, Some(Names)),
        ("an unknown name", ("{", "{\"cz\":0,"), same, Some(Names)),
        ("a text", ("1000,", "\"1000\","), same, Some(Field(8))),
        ("a fraction", ("10000,", "1.0,"), same, Some(Field(11))),
        ("form before range", long, version, Some(Field(18))),
        ("version before width", version, column, Some(Field(1))),
        ("column before weight", column, weight, Some(Field(6))),
        ("a small voxel", ("10000,", "999,"), same, Some(Field(11))),
        ("reach before sphere", reach, sphere, Some(Reach)),
        ("reach before weight", reach, weight, Some(Reach)),
        ("sphere before weight", sphere, weight, Some(Sphere)),
        (
            "weight before blocks",
            weight,
            ("64,", "0,"),
            Some(Field(15)),
        ),
        ("a great weight", ("255", "256"), same, Some(Field(15))),
        ("many blocks", ("64,", "65537,"), same, Some(Field(16))),
        ("no power of two", buckets, ("30000", "-1"), Some(Field(17))),
        (
            "a great distance",
            ("30000", "32768"),
            same,
            Some(Field(18)),
        ),
    ];
    for (name, first, second, refused) in cases {
        let found = changed(alloc, first, second)?;
        assert_eq!(rt; found.err(), refused.map(ConfigError::Bad), "{name}");
    }
    Ok(())
}

#[test]
fn the_base_line_is_a_configuration(rt: HostRuntime) -> Result<(), Fail> {
    let camera = CameraFields {
        width: 1,
        height: 1,
        fx: 65536,
        fy: 65536,
        cx: 0,
        cy: 0,
        unit: 1000,
        near: 500000,
        far: 2000000,
        voxel: 10000,
        mu: 40000,
        radius: 2100000,
        centre: 1020000,
    };
    let fields = ConfigFields {
        version: 1,
        camera,
        max_weight: 255,
        heap_blocks: 64,
        buckets: 16,
        empty_f: 30000,
    };
    for config in [
        read_config(rt.alloc(), BASE.as_bytes()).ok(),
        Config::make(fields).ok(),
    ] {
        let Some(config) = config else {
            return Err(Fail::from("refused"));
        };
        assert_eq!(rt; config.version(), 1);
        assert_eq!(rt; config.camera().fields(), camera);
        assert_eq!(rt; config.max_weight(), 255);
        assert_eq!(rt; config.heap_blocks(), 64);
        assert_eq!(rt; config.buckets(), 16);
        assert_eq!(rt; config.empty_f(), 30000);
    }
    Ok(())
}

// The picture has two rows, whose samples are written with the most significant byte first.
#[test]
fn replies_have_these_bytes(rt: HostRuntime) -> Result<(), Fail> {
    let alloc = rt.alloc();
    let raw = vec![in alloc; 1000, 65535, 0, 10]?;
    let none = Vec::new(alloc);
    let one = Vec::from_array(alloc, [Crossing { x: 1, y: -2, z: 3 }])?;
    let cases: [(Reply, &[u8]); 5] = [
        (
            Reply::Picture(12, DepthFrame::make(2, 2, raw)),
            b"render 12\nP5\n2 2\n65535\n\x03\xE8\xFF\xFF\0\0\0\n",
        ),
        (Reply::NoFrame, b"render refused no frame\n"),
        (Reply::Collected(3), b"collect 3\n"),
        (
            Reply::Points(PointList::make(one)),
            b"points 1\nply\nformat ascii 1.0\nelement vertex 1\nproperty int x\nproperty int y\nproperty int z\nend_header\n1 -2 3\n",
        ),
        (
            Reply::Points(PointList::make(none)),
            b"points 0\nply\nformat ascii 1.0\nelement vertex 0\nproperty int x\nproperty int y\nproperty int z\nend_header\n",
        ),
    ];
    for (reply, bytes) in cases {
        let written = reply_bytes(alloc, &reply)?;
        assert_eq!(rt; written.as_slice(), bytes);
    }
    Ok(())
}

#[test]
fn refusals_have_words(rt: HostRuntime) -> Result<(), Fail> {
    let config = BadWhat::Config(Field(13));
    let bad = ScanError::Bad(BadScan {
        at: 0,
        what: config,
    });
    let text = format!(in rt.alloc(); "{bad}")?;
    assert_eq!(rt;
        text.as_str(),
        "at byte 0: bad configuration: field 13 is out of its range"
    );
    Ok(())
}
