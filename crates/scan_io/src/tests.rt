use super::*;
use std::alloc::Global;
use std::io::{Error, ErrorKind, Read, Write};
use std::test::Fail;

const TEXT_LEN: usize = 5000;

// A text that is longer than a feed's buffer.
fn long_text(alloc: Global) -> Result<Vec<u8>, Fail> {
    let mut text = Vec::new(alloc);
    for i in 0..TEXT_LEN {
        text.push((i % 251) as u8)?;
    }
    Ok(text)
}

// What a feed gives until the end of input, how many of its calls failed, and how many bytes it has given then.
fn drained<S: Source>(alloc: Global, source: &mut S) -> Result<(Vec<u8>, u32, u64), Fail> {
    let mut feed = Feed::make(alloc).map_err(|_| Fail::from("memory"))?;
    let mut bytes = Vec::new(alloc);
    let mut failures = 0u32;
    for _ in 0..TEXT_LEN + 10 {
        match feed.next(source) {
            Ok(Some(byte)) => bytes.push(byte)?,
            Ok(None) => break,
            Err(Failed) => failures = failures.saturating_add(1),
        }
    }
    Ok((bytes, failures, feed.place()))
}

#[test]
fn a_feed_gives_every_byte_past_failures(rt: HostRuntime) -> Result<(), Fail> {
    let alloc = rt.alloc();
    let text = long_text(alloc)?;
    for piece in [1, 2, 7, 4096] {
        for (fails, want) in [([9999, 9999], 0), ([1, 9999], 1), ([0, 3], 2)] {
            let fails = Vec::from_array(alloc, fails)?;
            let mut source = MemSource::make(text.clone()?, piece, fails);
            let (bytes, failures, place) = drained(alloc, &mut source)?;
            assert_eq!(rt; bytes.as_slice(), text.as_slice(), "by {piece}");
            assert_eq!(rt; failures, want, "by {piece}");
            assert_eq!(rt; place, 5000, "by {piece}");
        }
    }
    Ok(())
}

#[test]
fn a_feed_gives_kept_bytes_at_once(rt: HostRuntime) -> Result<(), Fail> {
    let alloc = rt.alloc();
    let mut source = MemSource::make(b"depth".to_vec(alloc)?, 4, Vec::new(alloc));
    let mut feed = Feed::make(alloc).map_err(|_| Fail::from("memory"))?;
    assert_eq!(rt; feed.kept(), b"".as_slice());
    assert_eq!(rt; feed.next(&mut source), Ok(Some(b'd')));
    assert_eq!(rt; feed.kept(), b"ept".as_slice());
    if feed.kept().len() >= 2 {
        feed.skip(2);
    }
    assert_eq!(rt; feed.kept(), b"t".as_slice());
    assert_eq!(rt; feed.place(), 3);
    assert_eq!(rt; feed.next(&mut source), Ok(Some(b't')));
    assert_eq!(rt; feed.next(&mut source), Ok(Some(b'h')));
    Ok(())
}

#[test]
fn a_memory_source_fails_its_calls_only(rt: HostRuntime) -> Result<(), Fail> {
    let alloc = rt.alloc();
    for (piece, want) in [
        (1, [Ok(1), Err(Failed), Ok(1), Ok(1), Err(Failed), Ok(1)]),
        (2, [Ok(2), Err(Failed), Ok(2), Ok(1), Err(Failed), Ok(0)]),
        (7, [Ok(3), Err(Failed), Ok(2), Ok(0), Err(Failed), Ok(0)]),
        (4096, [Ok(3), Err(Failed), Ok(2), Ok(0), Err(Failed), Ok(0)]),
    ] {
        let fails = Vec::from_array(alloc, [4, 1])?;
        let mut source = MemSource::make(b"depth".to_vec(alloc)?, piece, fails);
        for answer in want {
            let mut buf = [0; 3];
            assert_eq!(rt; source.read(&mut buf), answer, "by {piece}");
        }
    }
    Ok(())
}

#[test]
fn all_bytes_are_put_in_pieces_up_to_a_failure(rt: HostRuntime) -> Result<(), Fail> {
    let alloc = rt.alloc();
    for (room, piece, fail, answer, want) in [
        (64, 1, 99, Ok(()), b"render 1\n".as_slice()),
        (64, 2, 99, Ok(()), b"render 1\n".as_slice()),
        (64, 7, 99, Ok(()), b"render 1\n".as_slice()),
        (9, 4096, 99, Ok(()), b"render 1\n".as_slice()),
        (64, 1, 3, Err(Failed), b"ren".as_slice()),
        (64, 2, 3, Err(Failed), b"render".as_slice()),
        (64, 7, 1, Err(Failed), b"render ".as_slice()),
        (64, 4096, 0, Err(Failed), b"".as_slice()),
        (6, 4, 99, Err(Failed), b"render".as_slice()),
        (0, 4, 99, Err(Failed), b"".as_slice()),
    ] {
        let fails = Vec::from_array(alloc, [fail])?;
        let mut sink = MemSink::make(alloc, room, piece, fails).map_err(|_| Fail::from("memory"))?;
        assert_eq!(rt; put_all(&mut sink, b"render 1\n"), answer, "by {piece}");
        assert_eq!(rt; sink.bytes(), want, "by {piece}");
    }
    Ok(())
}

// A reader whose first call fails, and which then gives one byte a call; a writer whose first call fails, whose
// second takes nothing, and which then takes one byte a call.
#[derive(Drop)]
struct Faulty {
    calls: u32,
    bytes: Vec<u8>,
}

impl Faulty {
    fn next_call(&mut self) -> u32 {
        let call = self.calls;
        self.calls = call.saturating_add(1);
        call
    }
}

impl Read for Faulty {
    fn read(&mut self, buf: &mut [u8]) -> std::io::Result<usize> {
        let call = self.next_call();
        if call == 0 {
            return Err(Error::from(ErrorKind::Other));
        }
        match self.bytes.get(call as usize - 1) {
            Some(byte) if !buf.is_empty() => {
                buf[0] = *byte;
                Ok(1)
            }
            _ => Ok(0),
        }
    }
}

impl Write for Faulty {
    fn write(&mut self, piece: &[u8]) -> std::io::Result<usize> {
        let call = self.next_call();
        if call == 0 {
            return Err(Error::from(ErrorKind::Other));
        }
        if call == 1 || piece.is_empty() {
            return Ok(0);
        }
        match self.bytes.push(piece[0]) {
            Ok(()) => Ok(1),
            Err(_) => Ok(0),
        }
    }

    fn flush(&mut self) -> std::io::Result<()> {
        Ok(())
    }
}

#[test]
fn a_source_over_a_reader_fails_where_the_reader_does(rt: HostRuntime) -> Result<(), Fail> {
    let alloc = rt.alloc();
    let bytes = b"voxels".to_vec(alloc)?;
    let mut source = StdSource::make(Faulty { calls: 0, bytes });
    let (bytes, failures, place) = drained(alloc, &mut source)?;
    assert_eq!(rt; bytes.as_slice(), b"voxels".as_slice());
    assert_eq!(rt; failures, 1);
    assert_eq!(rt; place, 6);
    Ok(())
}

#[test]
fn a_sink_over_a_writer_holds_no_byte_back(rt: HostRuntime) -> Result<(), Fail> {
    let alloc = rt.alloc();
    let bytes = Vec::new(alloc);
    let mut writer = Faulty { calls: 0, bytes };
    let mut sink = StdSink::make(&mut writer);
    assert_eq!(rt; sink.write(b"no line end"), Err(Failed));
    assert_eq!(rt; sink.write(b"no line end"), Err(Failed));
    assert_eq!(rt; sink.write(b""), Ok(0));
    assert_eq!(rt; put_all(&mut sink, b"no line end"), Ok(()));
    assert_eq!(rt; writer.bytes.as_slice(), b"no line end".as_slice());
    Ok(())
}

// Takes what can go to another thread.
fn sent<T: Send + Drop>(_: T) {}

#[test]
fn a_feed_can_be_sent(rt: HostRuntime) -> Result<(), Fail> {
    let feed = Feed::make(rt.alloc()).map_err(|_| Fail::from("memory"))?;
    sent(feed);
    Ok(())
}

#[test]
fn a_path_has_its_text(rt: HostRuntime) -> Result<(), Fail> {
    let alloc = rt.alloc();
    for text in ["", "maps/chunks", "a folder/ä"] {
        let path = PathText::make(String::from_str(alloc, text)?);
        assert_eq!(rt; path.into_text().as_str(), text);
    }
    Ok(())
}
