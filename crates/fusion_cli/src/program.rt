ghost use Rattle.std.specs.Prelude.{◌≡◌, ◌⊎◌, ℕ, true, false, drop, take, string_bytes, IfOk, IfErr, IsOkAnd, OnErr, if◌then◌else◌, MatchResult};
ghost use Rattle.std.specs.Io.KnownBytes.{Appends};
ghost use Rattle.std.specs.IoError.{error_kind};
ghost use Rattle.std.specs.Vec.Iter.{into_iter_items};
ghost use Rattle.scan_io.specs.Causes.{Rose};
ghost use Rattle.scan_io.specs.Coming.{Grows, LosesFront};
ghost use Rattle.fusion_cli.specs.Program.{Reports, command_in, is_out_of_memory as is_out_of_memory_of, is_usage, report_of};
ghost use Rattle.fusion_cli.specs.Run.{Answered, CountsReads, CountsWrites, IsWhole, reads_source, text_for};
ghost use Rattle.fusion_cli.specs.Status.{exit_code_of};
ghost use Rattle.command_words.specs.declared.words.Command.{Command};

use crate::run::run_fusion;
use crate::status::Status;
use fusion_core::NoGate;
use scan_io::{Sink, Source, put_all};
use std::alloc::{AllocError, Global};
use std::env::Args;
use std::io::{self, ErrorKind};
use std::thread::Threads;
use voxel_block::NoMemory;

/// How the program ended, and its exit status.
#[derive(Clone, Copy, Debug, PartialEq, Eq)]
pub struct Exit {
    /// What the run answered.
    pub status: Status,
    /// The exit status of the process.
    pub code: u8,
}

/// The whole program: runs the command that the arguments are, over its input and its output, and writes the line of a
/// status other than `Done` to `errors`.
///
/// `args` are the arguments as the system gives them, the program's name first.
pub fn run_program<R: Threads + Sync, S: Source, K: Sink, E: Sink>(
    rt: &R,
    alloc: Global,
    args: io::Result<Args>,
    source: &mut S,
    sink: &mut K,
    errors: &mut E,
) -> Exit
    // The exit status and the line on the error stream are those of the status.
    ensures code { result.code ≡ exit_code_of result.status }
    ensures line { Reports (E.written errors.old) (E.written errors.new) (E.faults errors.old) (E.faults errors.new) result.status }

    // The command is run over the arguments after the first.
    ensures answer { Answered (command_in args) (S.left source.old) (S.left source.new) (K.written sink.old) (K.written sink.new) result.status }
    ensures usage { result.status ≡ Status.Usage → is_usage args ≡ true }
    ensures refused { is_usage args ≡ true → (result.status ≡ Status.Usage) ⊎ (result.status ≡ Status.NoMemory) }
    ensures reads { CountsReads (S.faults source.old) (S.faults source.new) result.status }
    ensures writes { CountsWrites (K.faults sink.old) (K.faults sink.new) result.status }
    ensures front { LosesFront (S.left source.old) (S.left source.new) }
    ensures grows { Grows (K.written sink.old) (K.written sink.new) }
    ensures source { reads_source (command_in args) ≡ false → source.new ≡ source.old }
    ensures sink { command_in args ≡ None → sink.new ≡ sink.old }
    ensures complete { (command : Command) → command_in args ≡ Some command
        → ¬ Rose (S.faults source.old) (S.faults source.new)
        → ¬ Rose (K.faults sink.old) (K.faults sink.new)
        → (result.status ≡ Status.NoMemory) ⊎ IsWhole (text_for command (S.left source.old)) (K.written sink.old) (K.written sink.new) result.status }
{
    let status = match words(alloc, args) {
        Ok(words) => run_fusion(rt, alloc, &words, source, sink, &NoGate),
        Err(status) => status,
    };
    report(alloc, &status, errors);
    Exit {
        status,
        code: status.code(),
    }
}

/// The words of the command, which are the arguments after the program's name; or the status of a program that can't
/// get them.
fn words(alloc: Global, args: io::Result<Args>) -> Result<Vec<String>, Status>
    ensures words { IfOk result (λ v. IsOkAnd args (λ a. v.items ≡ drop 1 (into_iter_items a))) }
    ensures error { IfErr result (λ s. MatchResult args (λ a. s ≡ Status.NoMemory)
        (λ e. s ≡ (if is_out_of_memory_of (error_kind e) then Status.NoMemory else Status.Usage))) }
{
    match args {
        Ok(args) => after_name(alloc, args),
        Err(e) => {
            if is_out_of_memory(e.kind()) {
                Err(Status::NoMemory)
            } else {
                Err(Status::Usage)
            }
        }
    }
}

/// The arguments after the first.
fn after_name(alloc: Global, args: Args) -> Result<Vec<String>, Status>
    ensures words { IfOk result (λ v. v.items ≡ drop 1 (into_iter_items args)) }
    ensures error { IfErr result (λ s. s ≡ Status.NoMemory) }
{
    let all: Result<Vec<String>, AllocError> = args.collect(alloc);
    match all {
        Ok(mut words) => {
            drop_first(&mut words);
            Ok(words)
        }
        Err(_) => Err(Status::NoMemory),
    }
}

/// Drops the first word, if there is one.
fn drop_first(words: &mut Vec<String>)
    ensures { words.new.items ≡ drop 1 words.old.items }
{
    if !words.is_empty() {
        let _name = words.remove(0);
    }
}

fn is_out_of_memory(kind: ErrorKind) -> bool
    ensures { result ≡ is_out_of_memory_of kind }
{
    matches!(kind, ErrorKind::OutOfMemory)
}

/// Writes the line of a status other than `Done`, with a line feed. Only the line of a refused scan takes memory; where
/// there is none, nothing is written.
fn report<E: Sink>(alloc: Global, status: &Status, errors: &mut E)
    ensures { Reports (E.written errors.old) (E.written errors.new) (E.faults errors.old) (E.faults errors.new) status.now }
{
    match status {
        Status::Done => {}
        Status::NoMemory => report_text(b"fusion: no memory\n", errors),
        Status::Usage => report_text(
            b"fusion: usage: fuse [--workers N] | demo SEED FRAMES [--workers N]\n",
            errors,
        ),
        Status::BadScan(_) => {
            if let Ok(line) = report_line(alloc, status) {
                report_text(line.as_bytes(), errors);
            }
        }
        Status::ReadFault => report_text(b"fusion: read fault\n", errors),
        Status::WriteFault => report_text(b"fusion: write fault\n", errors),
    }
}

/// Writes a text. Where a write fails, only a front of it is written.
fn report_text<E: Sink>(text: &[u8], errors: &mut E)
    ensures front { (n : ℕ) × Appends (E.written errors.old) (E.written errors.new) (take n text.now) }
    ensures whole { ¬ Rose (E.faults errors.old) (E.faults errors.new) → Appends (E.written errors.old) (E.written errors.new) text.now }
{
    match put_all(errors, text) {
        Ok(()) => {}
        Err(_) => {}
    }
}

/// The line of a status with its line feed.
fn report_line(alloc: Global, status: &Status) -> Result<String, NoMemory>
    ensures { IfOk result (λ s. string_bytes s ≡ report_of status.now) }
{
    let mut line = status.line(alloc)?;
    if *status != Status::Done {
        line.push('\n')?;
    }
    Ok(line)
}
