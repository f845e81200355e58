use super::{BASE, refused, words_of};
use crate::program::run_program;
use crate::run::run_fusion;
use crate::status::Status;
use depth_frame::PgmKind;
use fusion_core::NoGate;
use scan_io::{MemSink, MemSource};
use scan_lang::{BadConfig, BadWhat};
use std::alloc::Global;
use std::env::Args;
use std::io::{Error, ErrorKind};
use std::test::Fail;

const USAGE: &str = "fusion: usage: fuse [--workers N] | demo SEED FRAMES [--workers N]\n";

// The arguments of a command line.
fn args(alloc: Global, words: &[&str]) -> Result<Args, Fail> {
    let mut list = Vec::new(alloc);
    for word in words {
        list.push(String::from_str(alloc, word)?)?;
    }
    Ok(list.into_iter())
}

#[test]
fn the_program_reports_its_status(rt: HostRuntime) -> Result<(), Fail> {
    let alloc = rt.alloc();
    let not_text = Err(Error::from(ErrorKind::InvalidData));
    let no_room = Err(Error::from(ErrorKind::OutOfMemory));
    for (name, given, text, code, line) in [
        (
            "fuse",
            Ok(args(alloc, &["fusion", "fuse"])?),
            BASE,
            3,
            "fusion: scan refused at byte 233: short\n",
        ),
        ("no words", Ok(args(alloc, &["fusion"])?), BASE, 2, USAGE),
        ("not even a name", Ok(args(alloc, &[])?), BASE, 2, USAGE),
        (
            "another word",
            Ok(args(alloc, &["fuse", "fusion"])?),
            BASE,
            2,
            USAGE,
        ),
        (
            "no worker",
            Ok(args(alloc, &["fusion", "fuse", "--workers", "0"])?),
            BASE,
            2,
            USAGE,
        ),
        (
            "a worker too many",
            Ok(args(alloc, &["fusion", "fuse", "--workers", "65"])?),
            BASE,
            2,
            USAGE,
        ),
        (
            "as many workers as there may be",
            Ok(args(alloc, &["fusion", "fuse", "--workers", "64"])?),
            BASE,
            3,
            "fusion: scan refused at byte 233: short\n",
        ),
        (
            "a demo without frames",
            Ok(args(alloc, &["fusion", "demo", "7", "0"])?),
            BASE,
            2,
            USAGE,
        ),
        (
            "a word too many",
            Ok(args(alloc, &["fusion", "fuse", "fuse"])?),
            BASE,
            2,
            USAGE,
        ),
        ("a word that is no UTF-8", not_text, BASE, 2, USAGE),
        (
            "words that don't fit the memory",
            no_room,
            BASE,
            1,
            "fusion: no memory\n",
        ),
    ] {
        let mut source = MemSource::make(text.as_bytes().to_vec(alloc)?, 7, Vec::new(alloc));
        let mut sink = MemSink::make(alloc, 64, 7, Vec::new(alloc))?;
        let mut errors = MemSink::make(alloc, 128, 7, Vec::new(alloc))?;
        let exit = run_program(&rt, alloc, given, &mut source, &mut sink, &mut errors);
        assert_eq!(rt; exit.code, code, "{name}");
        assert_eq!(rt; sink.bytes(), b"".as_slice(), "{name}");
        assert_eq!(rt; errors.bytes(), line.as_bytes(), "{name}");
    }
    Ok(())
}

// Nothing is read: the source fails at its first call.
#[test]
fn words_that_are_no_command_read_nothing(rt: HostRuntime) -> Result<(), Fail> {
    let alloc = rt.alloc();
    for line in [
        "",
        "frobnicate",
        "fuse --workers 0",
        "fuse --workers 65",
        "demo 7",
        "demo 7 0",
    ] {
        let words = words_of(alloc, line)?;
        let text = BASE.as_bytes().to_vec(alloc)?;
        let mut source = MemSource::make(text, 1, vec![in alloc; 0]?);
        let mut sink = MemSink::make(alloc, 64, 64, Vec::new(alloc))?;
        let status = run_fusion(&rt, alloc, &words, &mut source, &mut sink, &NoGate);
        assert_eq!(rt; status, Status::Usage, "{line}");
        assert_eq!(rt; sink.bytes(), b"".as_slice(), "{line}");
        assert_eq!(rt; source.faults(), 0, "{line}");
    }
    Ok(())
}

#[test]
fn statuses_have_lines(rt: HostRuntime) -> Result<(), Fail> {
    let alloc = rt.alloc();
    for (status, line) in [
        (Status::Done, ""),
        (
            Status::Usage,
            "fusion: usage: fuse [--workers N] | demo SEED FRAMES [--workers N]",
        ),
        (
            refused(0, BadWhat::Short),
            "fusion: scan refused at byte 0: short",
        ),
        (
            refused(0, BadWhat::Config(BadConfig::Field(11))),
            "fusion: scan refused at byte 0: config field 11",
        ),
        (
            refused(1_000_232, BadWhat::Lines),
            "fusion: scan refused at byte 1000232: lines",
        ),
        (
            refused(317, BadWhat::Pgm(PgmKind::Sample)),
            "fusion: scan refused at byte 317: pgm sample",
        ),
    ] {
        assert_eq!(rt; status.line(alloc)?.as_str(), line);
    }
    Ok(())
}
