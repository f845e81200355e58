//! Fuses depth maps into a truncated signed distance map.
#![tactic(auto)]

mod program;
mod run;
mod status;
#[cfg(test)]
mod tests;

use program::run_program;
use scan_io::{StdSink, StdSource};
use std::process::ExitCode;
use std::{env, io};

fn main(rt: HostRuntime) -> ExitCode {
    let mut source = StdSource::make(rt.reader());
    let mut sink = StdSink::make(io::writer(&rt));
    let mut errors = StdSink::make(rt.stderr());
    let args = env::args(&rt);
    let exit = run_program(&rt, rt.alloc(), args, &mut source, &mut sink, &mut errors);
    ExitCode::from(exit.code)
}
