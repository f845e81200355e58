use super::words_of;
use crate::run::run_fusion;
use crate::status::Status;
use fusion_core::Gate;
use scan_io::{MemSink, MemSource};
use std::alloc::Global;
use std::sync::atomic::{AtomicU64, Ordering};
use std::test::Fail;

// Counts the workers that come to it.
#[derive(Drop)]
struct Counter {
    // A bit for each worker that came.
    workers: AtomicU64,
    // How often one came.
    entries: AtomicU64,
}

impl Counter {
    fn make() -> Counter {
        Counter {
            workers: AtomicU64::new(0),
            entries: AtomicU64::new(0),
        }
    }

    fn counts(&self) -> (u64, u64) {
        (
            self.workers.load(Ordering::SeqCst),
            self.entries.load(Ordering::SeqCst),
        )
    }
}

impl Gate for Counter {
    fn enter(&self, worker: u32, _piece: u32) {
        self.workers
            .fetch_or(1_u64.wrapping_shl(worker), Ordering::SeqCst);
        self.entries.fetch_add(1, Ordering::SeqCst);
    }
}

// How often a held worker looks whether the other has come.
const TURNS: u32 = 200_000_000;

// Holds each of two workers at its first entry until the other has come to its own, or for a number of turns.
#[derive(Drop)]
struct Meeting {
    first: AtomicU64,
    second: AtomicU64,
    // How many of them were released before the last turn.
    released: AtomicU64,
}

impl Meeting {
    fn hold(&self, own: &AtomicU64, other: &AtomicU64) {
        if own.fetch_add(1, Ordering::SeqCst) > 0 {
            return;
        }
        for _ in 1..TURNS {
            if other.load(Ordering::SeqCst) > 0 {
                self.released.fetch_add(1, Ordering::SeqCst);
                return;
            }
        }
    }
}

impl Gate for Meeting {
    fn enter(&self, worker: u32, _piece: u32) {
        match worker {
            0 => self.hold(&self.first, &self.second),
            1 => self.hold(&self.second, &self.first),
            _ => {}
        }
    }
}

// A frame of one column of pixels that all show one metre, under a configuration with these fields.
fn column(alloc: Global, height: usize, fields: &str, more: &str) -> Result<Vec<u8>, Fail> {
    let line = format!(in alloc;
        "{{\"version\":1,\"width\":1,\"height\":{height},\"fx\":65536,\"cx\":0,{fields},\"unit\":1000,\"near\":500000,\"far\":2000000,\"voxel\":10000,\"mu\":40000,\"max_weight\":255,\"centre\":1020000,\"heap_blocks\":64,\"empty_f\":30000}}\nframe 1 0 0 0 0 1 0 0 0 0 1 0\nP5\n1 {height}\n65535\n"
    )?;
    let mut text = line.into_bytes();
    for _ in 0..height {
        text.extend_from_slice(b"\x03\xe8")?;
    }
    text.extend_from_slice(more.as_bytes())?;
    Ok(text)
}

#[test]
fn a_column_is_the_same_for_each_number_of_workers(rt: HostRuntime) -> Result<(), Fail> {
    let alloc = rt.alloc();
    let fields = "\"fy\":262144,\"cy\":262144,\"radius\":3000000,\"buckets\":1";
    let mut alone = Vec::new(alloc);
    for (line, workers) in [
        ("fuse --workers 1", 1),
        ("fuse", 0xf),
        ("fuse --workers 8", 0xff),
        ("fuse --workers 64", 0xff),
    ] {
        let words = words_of(alloc, line)?;
        let text = column(alloc, 8, fields, "voxels\nend\n")?;
        let mut source = MemSource::make(text, 4096, Vec::new(alloc));
        let mut sink = MemSink::make(alloc, 1 << 20, 4096, Vec::new(alloc))?;
        let gate = Counter::make();
        let status = run_fusion(&rt, alloc, &words, &mut source, &mut sink, &gate);
        assert_eq!(rt; status, Status::Done, "{line}");
        assert_eq!(rt; gate.counts(), (workers, 8), "{line}");
        if alone.is_empty() {
            let begins = b"frame 1 blocks 20 resident 20\nvoxels 20 ".as_slice();
            assert!(rt; sink.bytes().starts_with(begins));
            alone.extend_from_slice(sink.bytes())?;
        }
        assert_eq!(rt; sink.bytes(), alone.as_slice(), "{line}");
    }
    Ok(())
}

#[test]
fn two_workers_work_at_once(rt: HostRuntime) -> Result<(), Fail> {
    let alloc = rt.alloc();
    let words = words_of(alloc, "fuse --workers 2")?;
    let fields = "\"fy\":65536,\"cy\":0,\"radius\":4000000,\"buckets\":16";
    let text = column(alloc, 2, fields, "end\n")?;
    let mut source = MemSource::make(text, 4096, Vec::new(alloc));
    let mut sink = MemSink::make(alloc, 4096, 4096, Vec::new(alloc))?;
    let gate = Meeting {
        first: AtomicU64::new(0),
        second: AtomicU64::new(0),
        released: AtomicU64::new(0),
    };
    let status = run_fusion(&rt, alloc, &words, &mut source, &mut sink, &gate);
    assert_eq!(rt; status, Status::Done);
    assert_eq!(rt; gate.released.load(Ordering::SeqCst), 2);
    Ok(())
}

// The replies to three frames of a generated scan and to its sum, computed by two evaluators that share nothing with the
// program.
const DEMO: &str =
    "frame 1 blocks 9736 resident 9736\nframe 2 blocks 9817 resident 9817\nframe 3 blocks 9934 resident 9934\nsum blocks 9934 known 2849268 weight 8281776 distance 19061253821\nend\n";

#[test]
fn a_demo_is_the_same_for_each_number_of_workers(rt: HostRuntime) -> Result<(), Fail> {
    let alloc = rt.alloc();
    for (line, workers) in [("demo 7 3 --workers 4", 0xf), ("demo 7 3 --workers 1", 1)] {
        let words = words_of(alloc, line)?;
        // A source that fails if it is read.
        let mut source = MemSource::make(Vec::new(alloc), 1, vec![in alloc; 0]?);
        let mut sink = MemSink::make(alloc, 4096, 4096, Vec::new(alloc))?;
        let gate = Counter::make();
        let status = run_fusion(&rt, alloc, &words, &mut source, &mut sink, &gate);
        assert_eq!(rt; status, Status::Done, "{line}");
        assert_eq!(rt; gate.counts(), (workers, 1440), "{line}");
        assert_eq!(rt; sink.bytes(), DEMO.as_bytes(), "{line}");
        assert_eq!(rt; source.faults(), 0, "{line}");
    }
    Ok(())
}
