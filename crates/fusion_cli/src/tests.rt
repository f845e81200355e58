use crate::run::run_fusion;
use crate::status::Status;
use fusion_core::NoGate;
use scan_io::{MemSink, MemSource};
use scan_lang::{BadScan, BadWhat};
use std::alloc::Global;
use std::test::Fail;
use std::thread::Threads;

mod ends;
mod maps;
mod program;
mod scans;
mod workers;

const BASE: &str =
    "{\"version\":1,\"width\":1,\"height\":1,\"fx\":65536,\"fy\":65536,\"cx\":0,\"cy\":0,\"unit\":1000,\"near\":500000,\"far\":2000000,\"voxel\":10000,\"mu\":40000,\"max_weight\":255,\"radius\":2100000,\"centre\":1020000,\"heap_blocks\":64,\"buckets\":16,\"empty_f\":30000}\n";

// A frame: whether it is taken 50 metres beside the origin, and the two bytes of its sample.
type Shot = (bool, [u8; 2]);

// A wall one metre away.
const WALL: Shot = (false, [0x03, 0xe8]);

const FAR_WALL: Shot = (true, [0x03, 0xe8]);

const ONE_FRAME: &str = "frame 1 blocks 2 resident 2\n";

const END: &str = "end\n";

// The base configuration with another value of one field.
fn config(alloc: Global, field: &str, value: &str) -> Result<Vec<u8>, Fail> {
    let mut text = Vec::new(alloc);
    match BASE.split_once(field) {
        Some((front, behind)) => {
            text.extend_from_slice(front.as_bytes())?;
            text.extend_from_slice(value.as_bytes())?;
            text.extend_from_slice(behind.as_bytes())?;
        }
        None => text.extend_from_slice(BASE.as_bytes())?,
    }
    Ok(text)
}

// A configuration, frames of one pixel, and then more.
fn scan(config: Vec<u8>, shots: &[Shot], more: &str) -> Result<Vec<u8>, Fail> {
    let mut text = config;
    for (far, sample) in shots {
        text.extend_from_slice(b"frame 1 0 0 ")?;
        text.extend_from_slice(if *far {
            b"50".as_slice()
        } else {
            b"0".as_slice()
        })?;
        text.extend_from_slice(b" 0 1 0 0 0 0 1 0\nP5\n1 1\n65535\n")?;
        text.extend_from_slice(sample)?;
    }
    text.extend_from_slice(more.as_bytes())?;
    Ok(text)
}

// The words of a line.
fn words_of(alloc: Global, line: &str) -> Result<Vec<String>, Fail> {
    let mut words = Vec::new(alloc);
    for word in line.split(' ') {
        if !word.is_empty() {
            words.push(String::from_str(alloc, word)?)?;
        }
    }
    Ok(words)
}

// Runs over a text that comes in pieces, with the calls of the source and of the sink that fail.
fn run_on<R: Threads + Sync>(
    rt: &R,
    alloc: Global,
    text: Vec<u8>,
    piece: usize,
    read_fails: Vec<u64>,
    write_fails: Vec<u64>,
) -> Result<(Status, MemSink), Fail> {
    let words = words_of(alloc, "fuse")?;
    let mut source = MemSource::make(text, piece.max(1), read_fails);
    let mut sink = MemSink::make(alloc, 1 << 20, 4096, write_fails)?;
    let status = run_fusion(rt, alloc, &words, &mut source, &mut sink, &NoGate);
    Ok((status, sink))
}

fn refused(at: u64, what: BadWhat) -> Status {
    Status::BadScan(BadScan { at, what })
}
