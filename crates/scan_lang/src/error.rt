ghost use Rattle.std.specs.Prelude.{◌≡◌};
ghost use Rattle.scan_lang.specs.declared.error.ScanError.TheVariants.{Bad, ReadFault, NoMemory as no_memory};

use crate::config::BadConfig;
use depth_frame::PgmKind;
use scan_io::Failed;
use std::alloc::AllocFailed;
use std::error::Error;
use std::fmt;

/// What is bad in a scan.
#[derive(Clone, Copy, Debug, PartialEq, Eq)]
pub enum BadWhat {
    /// The first line is no configuration; the offset is that of the line, 0.
    Config(BadConfig),
    /// The first word of a line names no record, or the record has another number of words; the offset is that of the
    /// line's first byte.
    Line,
    /// A word that has to be a number is none, or is out of range; the offset is that of the word's first byte.
    Number,
    /// A depth map is bad, and does not end too early; `PgmKind` says at which offset.
    Pgm(PgmKind),
    /// The input ends before a line's line feed, before the record `end`, or inside a depth map; the offset is that end.
    Short,
    /// A line has more bytes before its line feed than it may; the offset is that of the first byte too many.
    Long,
    /// A line follows the last one that a scan may have; the offset is that of its first byte.
    Lines,
}

/// Where and why a scan is refused.
#[derive(Clone, Copy, Debug, PartialEq, Eq)]
pub struct BadScan {
    /// The offset, in bytes from the start of the scan; it saturates at `u64::MAX`.
    pub at: u64,
    /// What is bad there.
    pub what: BadWhat,
}

/// Why a reader of scans gave nothing.
#[derive(Clone, Copy, Debug, PartialEq, Eq)]
pub enum ScanError {
    /// The scan is refused.
    Bad(BadScan),
    /// The source failed, and counted the failure.
    ReadFault,
    /// Out of memory.
    NoMemory,
}

impl fmt::Display for BadWhat {
    fn fmt<W: fmt::Write>(&self, f: &mut fmt::Formatter<W>) -> fmt::Result {
        match self {
            BadWhat::Config(why) => write!(f, "bad configuration: {why}"),
            BadWhat::Line => write!(f, "the line is not a record"),
            BadWhat::Number => write!(f, "the word is not a number, or is out of range"),
            BadWhat::Pgm(kind) => write!(f, "{kind}"),
            BadWhat::Short => write!(f, "the scan ends too early"),
            BadWhat::Long => write!(f, "the line is too long"),
            BadWhat::Lines => write!(f, "the scan has too many lines"),
        }
    }
}

impl fmt::Display for BadScan {
    fn fmt<W: fmt::Write>(&self, f: &mut fmt::Formatter<W>) -> fmt::Result {
        let (at, what) = (self.at, self.what);
        write!(f, "at byte {at}: {what}")
    }
}

impl fmt::Display for ScanError {
    fn fmt<W: fmt::Write>(&self, f: &mut fmt::Formatter<W>) -> fmt::Result {
        match self {
            ScanError::Bad(why) => write!(f, "{why}"),
            ScanError::ReadFault => write!(f, "the source failed"),
            ScanError::NoMemory => write!(f, "out of memory"),
        }
    }
}

impl Error for ScanError {}

impl From<BadScan> for ScanError {
    ghost from_gives = { λ why e. e ≡ Bad why };

    fn from(why: BadScan) -> Self {
        ScanError::Bad(why)
    }
}

impl From<Failed> for ScanError {
    ghost from_gives = { λ _ e. e ≡ ReadFault };

    fn from(_: Failed) -> Self {
        ScanError::ReadFault
    }
}

impl<T: Drop> From<AllocFailed<T>> for ScanError {
    ghost from_gives = { λ _ e. e ≡ no_memory };

    fn from(_: AllocFailed<T>) -> Self {
        ScanError::NoMemory
    }
}
