ghost use Rattle.std.specs.Prelude.{◌≡◌, ◌<◌, ◌≤◌, ℕ, IfOk, OnOk};
ghost use Rattle.scan_io.specs.Reading.{Reads, UnlessOutOfMemory, stream, turned, unread};
ghost use Rattle.scan_lang.specs.Config.{IsConfig};
ghost use Rattle.depth_frame.specs.Pgm.{pgm_of};
ghost use Rattle.scan_lang.specs.Offsets.{bad_pgm};
ghost use Rattle.scan_lang.specs.Readers.{scan_cause, scan_errors, begun};
ghost use Rattle.scan_lang.specs.Scan.{config_at_start, begin_of, entry_at, entry_with, lines_after_config};
ghost use Rattle.scan_lang.specs.declared.head.Head.TheVariants.{Frame};

use crate::config::{Config, ConfigError, read_config};
use crate::entry::Entry;
use crate::error::{BadScan, BadWhat, ScanError};
use crate::head::Head;
use crate::line::{next_byte, read_line};
use crate::words::read_head;
use depth_frame::{BadPgm, DepthFrame, PgmError, PgmKind, read_pgm};
use fixed_geom::PoseRows;
use scan_io::{Feed, Source};
use std::alloc::Global;
use std::marker::Model;

const CONFIG_LINE_LIMIT: usize = 4096;

const LINE_LIMIT: usize = 1024;

const LINES_AFTER_CONFIG: u32 = 999_999;

/// Reads a scan record by record. It holds no source: each call borrows it.
#[derive(Drop)]
pub struct ScanReader {
    feed: Feed,
    left: u32,
}

impl Model for ScanReader {
    ghost use Rattle.scan_lang.specs.Readers.{Reader};

    ghost Value = { Reader };

    ghost view = { λ r. record { kept = r.feed; left = r.left } };
}

impl ScanReader {
    /// Reads the configuration, the first line of a scan, and gives the reader of the records after it. After an
    /// error, the bytes that were read are lost.
    pub fn begin<S: Source>(
        alloc: Global,
        source: &mut S,
    ) -> Result<(Config, ScanReader), ScanError>
        ensures begin { Reads scan_errors (λ p. record { config = p.0; offset = p.1.kept.given }) begin_of (unread (S.left source.old) (S.faults source.old))
            (begun result (S.left source.new) (S.faults source.new)) result }
        ensures lines { IfOk result (λ p. p.1.left ≡ lines_after_config) }
        ensures config { IfOk result (λ p. IsConfig p.0) }
    {
        let mut feed = match Feed::make(alloc) {
            Ok(feed) => feed,
            Err(_) => return Err(ScanError::NoMemory),
        };
        let config = read_begin(alloc, &mut feed, source)?;
        Ok((
            config,
            ScanReader {
                feed,
                left: LINES_AFTER_CONFIG,
            },
        ))
    }

    /// Reads the next record. Lines without words are skipped, and a frame goes on with its depth map. After an error,
    /// the bytes that were read are lost, and the reader is of no further use.
    pub fn next<S: Source>(&mut self, alloc: Global, source: &mut S) -> Result<Entry, ScanError>
        ensures entry { Reads scan_errors (λ e. record { entry = e; left = self.new.left; offset = self.new.kept.given }) (entry_at self.old.left self.old.kept.given)
            (stream self.old.kept (S.left source.old) (S.faults source.old)) (stream self.new.kept (S.left source.new) (S.faults source.new)) result }
        ensures fewer { OnOk result (self.new.left < self.old.left) }
    {
        for _ in 0..self.left {
            let offset = self.feed.place();
            let line = read_line(alloc, &mut self.feed, source, LINE_LIMIT)?;
            self.left -= 1;
            if let Some(head) = read_head(offset, &line)? {
                return read_entry(alloc, &mut self.feed, source, head);
            }
        }
        let offset = self.feed.place();
        next_byte(&mut self.feed, source)?;
        Err(ScanError::Bad(BadScan {
            at: offset,
            what: BadWhat::Lines,
        }))
    }
}

// The configuration, which is the first line of a scan.
fn read_begin<S: Source>(
    alloc: Global,
    feed: &mut Feed,
    source: &mut S,
) -> Result<Config, ScanError>
    requires { feed.old.given ≡ 0 }
    ensures begin { Reads scan_errors (λ c. record { config = c; offset = feed.new.given }) begin_of (stream feed.old (S.left source.old) (S.faults source.old))
        (stream feed.new (S.left source.new) (S.faults source.new)) result }
    ensures config { IfOk result IsConfig }
{
    let line = read_line(alloc, feed, source, CONFIG_LINE_LIMIT)?;
    first_config(alloc, &line)
}

// The configuration that the first line of a scan is.
fn first_config(alloc: Global, line: &[u8]) -> Result<Config, ScanError>
    ensures value { UnlessOutOfMemory scan_cause (λ c. c) result (config_at_start line.now) }
    ensures config { IfOk result IsConfig }
{
    match read_config(alloc, line) {
        Ok(config) => Ok(config),
        Err(ConfigError::Bad(why)) => Err(ScanError::Bad(BadScan {
            at: 0,
            what: BadWhat::Config(why),
        })),
        Err(ConfigError::NoMemory) => Err(ScanError::NoMemory),
    }
}

// The record that a line begins, read from the bytes after the line.
fn read_entry<S: Source>(
    alloc: Global,
    feed: &mut Feed,
    source: &mut S,
    head: Head,
) -> Result<Entry, ScanError>
    ensures { (left : ℕ) → Reads scan_errors (λ e. record { entry = e; left = left; offset = feed.new.given }) (entry_with left feed.old.given head)
        (stream feed.old (S.left source.old) (S.faults source.old)) (stream feed.new (S.left source.new) (S.faults source.new)) result }
{
    match head {
        Head::Frame(rows) => read_frame(alloc, feed, source, rows),
        Head::Whole(entry) => Ok(entry),
    }
}

// A frame, whose depth map follows the line.
fn read_frame<S: Source>(
    alloc: Global,
    feed: &mut Feed,
    source: &mut S,
    rows: PoseRows,
) -> Result<Entry, ScanError>
    ensures { (left : ℕ) → Reads scan_errors (λ e. record { entry = e; left = left; offset = feed.new.given }) (entry_with left feed.old.given (Frame rows))
        (stream feed.old (S.left source.old) (S.faults source.old)) (stream feed.new (S.left source.new) (S.faults source.new)) result }
{
    let depths = read_depths(alloc, feed, source)?;
    // The offset after the depth map is a number of 64 bits.
    prove!(feed.place() <= u64::MAX);
    Ok(Entry::Frame(rows, depths))
}

// A depth map, whose refusals become those of the scan.
fn read_depths<S: Source>(
    alloc: Global,
    feed: &mut Feed,
    source: &mut S,
) -> Result<DepthFrame, ScanError>
    ensures { Reads scan_errors (λ f. f) (λ text. turned bad_pgm (pgm_of feed.old.given text)) (stream feed.old (S.left source.old) (S.faults source.old))
        (stream feed.new (S.left source.new) (S.faults source.new)) result }
{
    match read_pgm(alloc, feed, source) {
        Ok(depths) => Ok(depths),
        Err(PgmError::Bad(why)) => Err(ScanError::Bad(scan_fault(why))),
        Err(PgmError::ReadFault) => Err(ScanError::ReadFault),
        Err(PgmError::NoMemory) => Err(ScanError::NoMemory),
    }
}

// A depth map's refusal as one of the scan: a depth map that ends too early is a scan that does.
fn scan_fault(why: BadPgm) -> BadScan
    ensures { result ≡ bad_pgm why }
{
    let what = match why.kind {
        PgmKind::Short => BadWhat::Short,
        kind => BadWhat::Pgm(kind),
    };
    BadScan { at: why.at, what }
}
