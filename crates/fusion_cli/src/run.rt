ghost use Rattle.std.specs.Prelude.{◌≡◌, ◌⊎◌, ◌≤◌, Some, None, false, map, string_bytes, ℕ, take, OnOk, OnErr, IfErr};
ghost use Rattle.std.specs.Io.KnownBytes.{Appends};
ghost use Rattle.scan_io.specs.Causes.{Rose, HasCause};
ghost use Rattle.scan_io.specs.Coming.{Grows, LosesFront};
ghost use Rattle.scan_io.specs.Reading.{Stream, stream};
ghost use Rattle.session.specs.Answers.{state_of};
ghost use Rattle.scan_gen.specs.Generated.{generated_scan};
ghost use Rattle.fusion_cli.specs.Run.{Answered, CountsReads, CountsWrites, IsDemo, IsRun, IsWhole, Told, ended, reads_source, stop_of, text_for, told};
ghost use Rattle.fusion_cli.specs.UnderWay.{IsUnderWay};
ghost use Rattle.command_words.specs.Words.{command_of};
ghost use Rattle.command_words.specs.declared.words.Command.{Command as Words};
ghost use Rattle.fusion_cli.specs.declared.run.Stop.TheVariants.{NoMemory as no_memory};

use crate::status::Status;
use command_words::{Command, WordError, read_words};
use fusion_core::Gate;
use scan_gen::GenSource;
use scan_io::{Sink, Source, put_all};
use scan_lang::{BadScan, ScanError, ScanReader, reply_bytes};
use session::Session;
use std::alloc::Global;
use std::thread::Threads;
use voxel_block::NoMemory;

/// The greatest number of lines of a scan; each record has one of its own.
const RECORDS_LIMIT: u32 = 1_000_000;

/// Why a run stops before the end of the scan.
#[derive(Clone, Copy, Debug, PartialEq, Eq)]
pub enum Stop {
    /// Out of memory.
    NoMemory,
    /// The scan is refused.
    BadScan(BadScan),
    /// A read of the source failed.
    ReadFault,
    /// A write to the sink failed.
    WriteFault,
}

impl From<NoMemory> for Stop {
    ghost from_gives = { λ _ e. e ≡ no_memory };

    fn from(_: NoMemory) -> Self {
        Stop::NoMemory
    }
}

impl From<scan_io::NoMemory> for Stop {
    ghost from_gives = { λ _ e. e ≡ no_memory };

    fn from(_: scan_io::NoMemory) -> Self {
        Stop::NoMemory
    }
}

impl From<ScanError> for Stop {
    ghost from_gives = { λ s e. e ≡ stop_of s };

    fn from(error: ScanError) -> Self {
        match error {
            ScanError::Bad(why) => Stop::BadScan(why),
            ScanError::ReadFault => Stop::ReadFault,
            ScanError::NoMemory => Stop::NoMemory,
        }
    }
}

/// Runs the command that the words are. `fuse` reads a scan from the source, acts on its records in order, and writes the
/// reply to each to the sink before it acts on the next. `demo` does the same with a generated scan, and leaves the source
/// as it is. Words that are no command are answered with `Usage`, or it is out of memory; nothing is read then, and nothing
/// is written.
///
/// The words say how many workers there are. Each passes the gate before each piece of its work. What is answered and
/// written does not depend on their number.
pub fn run_fusion<R: Threads + Sync, S: Source, K: Sink, G: Gate>(
    rt: &R,
    alloc: Global,
    words: &[String],
    source: &mut S,
    sink: &mut K,
    gate: &G,
) -> Status
    // What is written, and the status that says why it ends there.
    ensures answer { Answered (command_of (map string_bytes words.now)) (S.left source.old) (S.left source.new) (K.written sink.old) (K.written sink.new) result }

    // When each refusal comes.
    ensures usage { result ≡ Status.Usage → command_of (map string_bytes words.now) ≡ None }
    ensures reads { CountsReads (S.faults source.old) (S.faults source.new) result }
    ensures writes { CountsWrites (K.faults sink.old) (K.faults sink.new) result }

    // Whatever the status, the source lost a front, the sink gained bytes, and what told its bytes goes on telling them.
    ensures front { LosesFront (S.left source.old) (S.left source.new) }
    ensures grows { Grows (K.written sink.old) (K.written sink.new) }
    ensures source { reads_source (command_of (map string_bytes words.now)) ≡ false → source.new ≡ source.old }
    ensures sink { command_of (map string_bytes words.now) ≡ None → sink.new ≡ sink.old }

    // Where no count rose, all of it is written, unless it is out of memory.
    ensures complete { (command : Words) → command_of (map string_bytes words.now) ≡ Some command
        → ¬ Rose (S.faults source.old) (S.faults source.new)
        → ¬ Rose (K.faults sink.old) (K.faults sink.new)
        → (result ≡ Status.NoMemory) ⊎ IsWhole (text_for command (S.left source.old)) (K.written sink.old) (K.written sink.new) result }
{
    match read_words(alloc, words) {
        Ok(Command::Fuse { workers, .. }) => {
            status_of(run_scan(rt, alloc, source, sink, workers, gate))
        }
        Ok(
            Command::Demo {
                seed,
                frames,
                workers,
            },
        ) => status_of(run_demo(rt, alloc, seed, frames, sink, workers, gate)),
        Err(WordError::Usage) => Status::Usage,
        Err(WordError::NoMemory) => Status::NoMemory,
    }
}

/// The status of a run.
fn status_of(run: Result<(), Stop>) -> Status
    ensures { result ≡ ended run }
{
    match run {
        Ok(()) => Status::Done,
        Err(Stop::NoMemory) => Status::NoMemory,
        Err(Stop::BadScan(why)) => Status::BadScan(why),
        Err(Stop::ReadFault) => Status::ReadFault,
        Err(Stop::WriteFault) => Status::WriteFault,
    }
}

/// Acts on the records of a generated scan in order, and writes the reply to each.
fn run_demo<R: Threads + Sync, K: Sink, G: Gate>(
    rt: &R,
    alloc: Global,
    seed: u32,
    frames: u32,
    sink: &mut K,
    workers: u32,
    gate: &G,
) -> Result<(), Stop>
    requires least { 1 ≤ frames }
    requires most { frames ≤ 1000 }
    requires workers { (1 ≤ workers) × (workers ≤ 64) }
    ensures { IsDemo (generated_scan seed frames) (told (K.written sink.old) (K.faults sink.old)) (told (K.written sink.new) (K.faults sink.new)) (ended result) }
{
    let mut source = GenSource::make(alloc, seed, frames)?;
    run_scan(rt, alloc, &mut source, sink, workers, gate)
}

/// Acts on the records of a scan in order, and writes the reply to each.
fn run_scan<R: Threads + Sync, S: Source, K: Sink, G: Gate>(
    rt: &R,
    alloc: Global,
    source: &mut S,
    sink: &mut K,
    workers: u32,
    gate: &G,
) -> Result<(), Stop>
    requires workers { (1 ≤ workers) × (workers ≤ 64) }
    ensures { IsRun (told (S.left source.old) (S.faults source.old)) (told (S.left source.new) (S.faults source.new))
        (told (K.written sink.old) (K.faults sink.old)) (told (K.written sink.new) (K.faults sink.new)) (ended result) }
{
    let (config, mut reader) = ScanReader::begin(alloc, source)?;
    let mut session = Session::start(alloc, config)?;
    answer_all(
        rt,
        alloc,
        &mut session,
        &mut reader,
        source,
        sink,
        workers,
        gate,
    )
}

/// Acts on the records that are left of a scan in order, and writes the reply to each.
fn answer_all<R: Threads + Sync, S: Source, K: Sink, G: Gate>(
    rt: &R,
    alloc: Global,
    session: &mut Session,
    reader: &mut ScanReader,
    source: &mut S,
    sink: &mut K,
    workers: u32,
    gate: &G,
) -> Result<(), Stop>
    requires lines { reader.old.left ≤ 999999 }
    requires workers { (1 ≤ workers) × (workers ≤ 64) }
    // Whatever the run that is under way has read and written.
    ensures { (before : Stream) (empty : Told)
        → IsUnderWay session.old.config before (stream reader.old.kept (S.left source.old) (S.faults source.old)) reader.old.left reader.old.kept.given (state_of session.old) empty (told (K.written sink.old) (K.faults sink.old))
        → IsRun (told before.come before.faults) (told (S.left source.new) (S.faults source.new)) empty (told (K.written sink.new) (K.faults sink.new)) (ended result) }
{
    for _ in 0..RECORDS_LIMIT {
        let entry = reader.next(alloc, source)?;
        let is_end = entry.is_end();
        let reply = session.answer(rt, alloc, entry, workers, gate)?;
        let bytes = reply_bytes(alloc, &reply)?;
        put_reply(sink, &bytes)?;
        if is_end {
            return Ok(());
        }
    }
    // Unreachable: the reader gives no more records than a scan may have lines.
    Ok(())
}

/// Writes the bytes of a reply.
fn put_reply<K: Sink>(sink: &mut K, reply: &[u8]) -> Result<(), Stop>
    ensures all { OnOk result (Appends (K.written sink.old) (K.written sink.new) reply.now) }
    ensures front { OnErr result ((n : ℕ) × Appends (K.written sink.old) (K.written sink.new) (take n reply.now)) }
    ensures grows { Grows (K.written sink.old) (K.written sink.new) }
    ensures error { IfErr result (λ e. e ≡ Stop.WriteFault) }
    ensures cause { HasCause (K.faults sink.old) (K.faults sink.new) result }
{
    match put_all(sink, reply) {
        Ok(()) => Ok(()),
        Err(_) => Err(Stop::WriteFault),
    }
}
