ghost use Rattle.std.specs.Prelude.{◌≡◌, ◌<◌, ◌≤◌, ◌+◌, ◌^◌, IfOk, OnOk, length, vec_len};
ghost use Rattle.scan_io.specs.Reading.{Reads, stream, byte_at, saturated};
ghost use Rattle.scan_lang.specs.Readers.{scan_errors};
ghost use Rattle.scan_lang.specs.Lines.{first_line};
ghost use Rattle.scan_lang.specs.Offsets.{offset_after, short};

use crate::error::{BadScan, BadWhat, ScanError};
use scan_io::{Feed, Source};
use std::alloc::Global;

/// The next byte, which has to be there: the end of input is refused as `Short` at the offset that the feed has reached.
pub fn next_byte<S: Source>(feed: &mut Feed, source: &mut S) -> Result<u8, ScanError>
    ensures byte { Reads scan_errors (λ b. b) (byte_at short feed.old.given) (stream feed.old (S.left source.old) (S.faults source.old))
        (stream feed.new (S.left source.new) (S.faults source.new)) result }
    ensures offset { OnOk result (feed.new.given ≡ saturated (feed.old.given + 1)) }
{
    match feed.next(source)? {
        Some(byte) => Ok(byte),
        None => Err(ScanError::Bad(BadScan {
            at: feed.place(),
            what: BadWhat::Short,
        })),
    }
}

/// The next line without its line feed, of at most `limit` bytes. After an error, the bytes that were read are lost.
pub fn read_line<S: Source>(
    alloc: Global,
    feed: &mut Feed,
    source: &mut S,
    limit: usize,
) -> Result<Vec<u8>, ScanError>
    requires { limit < 2 ^ 32 }
    ensures line { Reads scan_errors (λ v. v.items) (first_line limit feed.old.given) (stream feed.old (S.left source.old) (S.faults source.old))
        (stream feed.new (S.left source.new) (S.faults source.new)) result }
    ensures size { IfOk result (λ v. vec_len v ≤ limit) }
    ensures offset { IfOk result (λ v. feed.new.given ≡ offset_after feed.old.given (length v.items + 1)) }
{
    let start = feed.place();
    let mut line = Vec::new(alloc);
    for _ in 0..limit + 1 {
        let byte = next_byte(feed, source)?;
        if byte == b'\n' {
            return Ok(line);
        }
        line.push(byte)?;
    }
    Err(ScanError::Bad(BadScan {
        at: start.saturating_add(limit as u64),
        what: BadWhat::Long,
    }))
}
