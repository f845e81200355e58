ghost use Rattle.std.specs.Prelude.{◌≡◌, ◌<◌, ◌≤◌, ◌+◌, ◌-◌, ◌*◌, ℕ, List, Option, IfOk, vec_len, vec_capacity, nat_le, Ok, Err, if◌then◌else◌, ◌^◌};
ghost use Rattle.depth_frame.specs.declared.error.PgmKind.TheVariants.{Sample};
ghost use Rattle.depth_frame.specs.Pgm.{one_sample, raster_at, fault, sample_len};
ghost use Rattle.depth_frame.specs.Runs.{HasNoSample, raster_further};
ghost use Rattle.depth_frame.specs.Errors.{pgm_errors};
ghost use Rattle.scan_io.specs.Reading.{Came, Reads, stream};
ghost use Rattle.depth_frame.specs.declared.error.PgmError.TheVariants.{Bad};

use crate::error::{BadPgm, PgmError, PgmKind};
use crate::header::next_byte;
use crate::samples::push_samples;
use scan_io::{Feed, Source};
use std::alloc::Global;

/// The next `count` samples, the first at the offset `start`.
pub fn read_raster<S: Source>(
    alloc: Global,
    feed: &mut Feed,
    source: &mut S,
    maxval: u32,
    count: usize,
    start: u64,
) -> Result<Vec<u16>, PgmError>
    requires maxval { maxval ≤ 65535 }
    requires count { count ≤ 4096 * 4096 }
    requires start { start ≤ 4096 }
    ensures raster { Reads pgm_errors (λ v. v.items) (raster_at maxval count start)
        (stream feed.old (S.left source.old) (S.faults source.old))
        (stream feed.new (S.left source.new) (S.faults source.new)) result }
    ensures len { IfOk result (λ v. vec_len v ≡ count) }
{
    let mut raw = Vec::with_capacity(alloc, count)?;
    while raw.len() < count {
        let at = start + byte_len(maxval, raw.len()) as u64;
        let sample = read_sample(feed, source, maxval, at)?;
        raw.push_reserved(sample);
        take_kept(feed, &mut raw, maxval, count);
    }
    Ok(raw)
}

// The length of `count` samples, in bytes.
fn byte_len(maxval: u32, count: usize) -> usize
    requires { count ≤ 4096 * 4096 }
    ensures value { result ≡ count * sample_len maxval }
    ensures bound { result ≤ 2 * count }
{
    if maxval < 256 { count } else { 2 * count }
}

// Takes the samples that the feed keeps whole, up to `count` in all, and stops before one that is above the maxval.
fn take_kept(feed: &mut Feed, raw: &mut Vec<u16>, maxval: u32, count: usize)
    requires len { vec_len raw.old ≤ count }
    requires room { count ≤ vec_capacity raw.old }
    ensures came { (at faults : ℕ) (left : Option (List ℕ)) → Came (raster_further raw.old.items maxval (count - vec_len raw.old) at)
        (raster_further raw.new.items maxval (count - vec_len raw.new) (at + (vec_len raw.new - vec_len raw.old) * sample_len maxval))
        (stream feed.old left faults) (stream feed.new left faults) }
    ensures all { vec_len raw.new < count → HasNoSample maxval feed.new.bytes }
    ensures least { vec_len raw.old ≤ vec_len raw.new }
    ensures greatest { vec_len raw.new ≤ count }
    ensures room { vec_capacity raw.new ≡ vec_capacity raw.old }
{
    let wanted = count - raw.len();
    let used = push_samples(raw, feed.kept(), maxval, wanted);
    feed.skip(used);
}

// The sample at the offset `at`, its most significant byte first.
fn read_sample<S: Source>(
    feed: &mut Feed,
    source: &mut S,
    maxval: u32,
    at: u64,
) -> Result<u16, PgmError>
    requires maxval { maxval ≤ 65535 }
    requires at { at < 2 ^ 32 }
    ensures { Reads pgm_errors (λ v. v) (one_sample maxval at)
        (stream feed.old (S.left source.old) (S.faults source.old))
        (stream feed.new (S.left source.new) (S.faults source.new)) result }
{
    let high = next_byte(feed, source, at)?;
    if maxval < 256 {
        return judge_sample(maxval, at, high as u16);
    }
    let low = next_byte(feed, source, at + 1)?;
    judge_sample(maxval, at, 256 * high as u16 + low as u16)
}

// The sample, whose first byte is at the offset `at`, where it is at most the maxval.
fn judge_sample(maxval: u32, at: u64, sample: u16) -> Result<u16, PgmError>
    ensures { result ≡ (if nat_le sample maxval then Ok sample else Err (Bad (fault Sample at))) }
{
    if sample as u32 > maxval {
        return Err(PgmError::Bad(BadPgm {
            at,
            kind: PgmKind::Sample,
        }));
    }
    Ok(sample)
}
