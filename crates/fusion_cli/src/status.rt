ghost use Rattle.std.specs.Prelude.{◌≡◌, string_bytes, IfOk};
ghost use Rattle.fusion_cli.specs.Status.{text_of, refused_text, offset_text as text_at, what_text as text_of_what, config_text as text_of_config, pgm_text as text_of_pgm};

use depth_frame::PgmKind;
use scan_lang::{BadConfig, BadScan, BadWhat};
use std::alloc::{AllocError, Global};
use std::fmt;
use voxel_block::NoMemory;

/// How a run ended.
#[derive(Clone, Copy, Debug, PartialEq, Eq)]
pub enum Status {
    /// The whole scan was read and answered, up to its record `end`.
    Done,
    /// Out of memory.
    NoMemory,
    /// The words are no command.
    Usage,
    /// The scan is refused; the records before the refused one were answered.
    BadScan(BadScan),
    /// The source failed.
    ReadFault,
    /// The sink failed.
    WriteFault,
}

impl Status {
    ghost use Rattle.fusion_cli.specs.Status.{exit_code_of, text_of};

    /// The exit status of the program.
    pub fn code(&self) -> u8
        ensures { result ≡ exit_code_of self.now }
    {
        match self {
            Status::Done => 0,
            Status::NoMemory => 1,
            Status::Usage => 2,
            Status::BadScan(_) => 3,
            Status::ReadFault => 4,
            Status::WriteFault => 5,
        }
    }

    /// What the program prints to standard error, without a line feed; nothing for `Done`.
    pub fn line(&self, alloc: Global) -> Result<String, NoMemory>
        ensures { IfOk result (λ s. string_bytes s ≡ text_of self.now) }
    {
        match written(alloc, self) {
            Ok(line) => Ok(line),
            Err(_) => Err(NoMemory),
        }
    }
}

impl fmt::Display for Status {
    fn fmt<W: fmt::Write>(&self, f: &mut fmt::Formatter<W>) -> fmt::Result {
        match self {
            Status::Done => write!(f, "done"),
            Status::NoMemory => write!(f, "out of memory"),
            Status::Usage => write!(f, "the words are no command"),
            Status::BadScan(why) => write!(f, "the scan is refused: {why}"),
            Status::ReadFault => write!(f, "a read failed"),
            Status::WriteFault => write!(f, "a write failed"),
        }
    }
}

fn written(alloc: Global, status: &Status) -> Result<String, AllocError>
    ensures { IfOk result (λ s. string_bytes s ≡ text_of status.now) }
{
    match status {
        Status::Done => String::from_str(alloc, ""),
        Status::NoMemory => String::from_str(alloc, "fusion: no memory"),
        Status::Usage => String::from_str(
            alloc,
            "fusion: usage: fuse [--workers N] | demo SEED FRAMES [--workers N]",
        ),
        Status::BadScan(why) => refused_line(alloc, *why),
        Status::ReadFault => String::from_str(alloc, "fusion: read fault"),
        Status::WriteFault => String::from_str(alloc, "fusion: write fault"),
    }
}

fn refused_line(alloc: Global, why: BadScan) -> Result<String, AllocError>
    ensures { IfOk result (λ s. string_bytes s ≡ refused_text why) }
{
    let mut line = offset_text(alloc, why.at)?;
    line.push_str(what_text(alloc, why.what)?.as_str())?;
    Ok(line)
}

fn offset_text(alloc: Global, at: u64) -> Result<String, AllocError>
    ensures { IfOk result (λ s. string_bytes s ≡ text_at at) }
{
    format!(in alloc; "fusion: scan refused at byte {at}: ")
}

fn what_text(alloc: Global, what: BadWhat) -> Result<String, AllocError>
    ensures { IfOk result (λ s. string_bytes s ≡ text_of_what what) }
{
    match what {
        BadWhat::Config(why) => config_text(alloc, why),
        BadWhat::Line => String::from_str(alloc, "line"),
        BadWhat::Number => String::from_str(alloc, "number"),
        BadWhat::Pgm(kind) => String::from_str(alloc, pgm_text(kind)),
        BadWhat::Short => String::from_str(alloc, "short"),
        BadWhat::Long => String::from_str(alloc, "long"),
        BadWhat::Lines => String::from_str(alloc, "lines"),
    }
}

fn config_text(alloc: Global, why: BadConfig) -> Result<String, AllocError>
    ensures { IfOk result (λ s. string_bytes s ≡ text_of_config why) }
{
    match why {
        BadConfig::Json => String::from_str(alloc, "config json"),
        BadConfig::Names => String::from_str(alloc, "config names"),
        BadConfig::Field(number) => format!(in alloc; "config field {number}"),
        BadConfig::Reach => String::from_str(alloc, "config reach"),
        BadConfig::Sphere => String::from_str(alloc, "config sphere"),
    }
}

fn pgm_text(kind: PgmKind) -> &'static str
    ensures { result.now ≡ text_of_pgm kind }
{
    match kind {
        PgmKind::Magic => "pgm magic",
        PgmKind::Header => "pgm header",
        PgmKind::Maxval => "pgm maxval",
        PgmKind::Sample => "pgm sample",
        PgmKind::Short => "short",
    }
}
