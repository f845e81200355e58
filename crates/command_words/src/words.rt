ghost use Rattle.std.specs.Prelude.{◌≡◌, false, map, string_bytes, option_and_then, option_map, IfOk, MatchResult};
ghost use Rattle.std.specs.Char.{is_ascii_digit as digit_test};
ghost use Rattle.std.specs.List.{list_all};
ghost use Rattle.clap.specs.Words.{app_of, first_of, found_of, kind_of, rows_of, rule_of, subcommand_rows_of};
ghost use Rattle.clap.specs.declared.builder.command.Command.TheViews.{out-Command as fields_of};
ghost use Rattle.command_words.specs.Words.{command_named, command_of, demo_app, demo_of, error_of, fuse_app, fuse_of, is_number as is_number_of, number_given as number_given_of, number_in, program_app, required_rule, workers_of, workers_rule};
ghost use Rattle.command_words.specs.declared.words.WordError.TheVariants as errors;

use clap::error::ErrorKind;
use clap::{Arg, ArgMatches};
use scan_io::PathText;
use std::alloc::{AllocError, Global};

const MOST_WORKERS: u32 = 64;

/// The number of workers where none is given.
const DEFAULT_WORKERS: u32 = 4;

const MOST_FRAMES: u32 = 1000;

const MOST_DIGITS: usize = 10;

/// A command of the program.
#[derive(Drop)]
pub enum Command {
    /// Fuses the scan of the source.
    Fuse {
        /// The number of workers, from 1 to 64.
        workers: u32,
        /// The folder that keeps chunks of blocks. There is no word for it yet, so it is always `None`.
        keep: Option<PathText>,
    },
    /// Fuses a generated scan.
    Demo {
        /// The number that the scene is made from.
        seed: u32,
        /// The number of frames, from 1 to 1000.
        frames: u32,
        /// The number of workers, from 1 to 64.
        workers: u32,
    },
}

/// Why words are no command.
#[derive(Clone, Copy, Debug, PartialEq, Eq)]
pub enum WordError {
    /// The words are no command. Asking for help is none either.
    Usage,
    /// Out of memory.
    NoMemory,
}

impl From<AllocError> for WordError {
    ghost from_gives = { λ _ e. e ≡ errors.NoMemory };

    fn from(_: AllocError) -> Self {
        WordError::NoMemory
    }
}

impl From<clap::Error> for WordError {
    ghost from_gives = { λ s e. e ≡ error_of (kind_of s) };

    fn from(error: clap::Error) -> Self {
        match error.kind() {
            ErrorKind::OutOfMemory => WordError::NoMemory,
            _ => WordError::Usage,
        }
    }
}

/// The command that words are. They don't include the program's name.
///
/// # Errors
///
/// `Usage` where the words are no command. Out of memory with any words, since they are taken apart in memory.
pub fn read_words(alloc: Global, words: &[String]) -> Result<Command, WordError>
    ensures { MatchResult result (λ c. command_of (map string_bytes words.now) ≡ Some c) (λ e. e ≡ WordError.Usage → command_of (map string_bytes words.now) ≡ None) }
{
    let matches = program(alloc)?.try_get_matches_from(words)?;
    match command_in(&matches) {
        Some(command) => Ok(command),
        None => Err(WordError::Usage),
    }
}

/// The command that matches are, where each number is one that its value may have.
fn command_in(matches: &ArgMatches) -> Option<Command>
    ensures { result ≡ option_and_then command_named (subcommand_rows_of matches.now) }
{
    match matches.subcommand() {
        Some(("fuse", given)) => fuse(given),
        Some(("demo", given)) => demo(given),
        _ => None,
    }
}

fn fuse(given: &ArgMatches) -> Option<Command>
    ensures { result ≡ fuse_of (rows_of (found_of given.now)) }
{
    Some(Command::Fuse {
        workers: workers(given)?,
        keep: None,
    })
}

fn demo(given: &ArgMatches) -> Option<Command>
    ensures { result ≡ demo_of (rows_of (found_of given.now)) }
{
    let seed = number_given(given, "seed", 0, u32::MAX)?;
    let frames = number_given(given, "frames", 1, MOST_FRAMES)?;
    Some(Command::Demo {
        seed,
        frames,
        workers: workers(given)?,
    })
}

/// The number of workers.
fn workers(given: &ArgMatches) -> Option<u32>
    ensures { result ≡ workers_of (rows_of (found_of given.now)) }
{
    match word_given(given, "workers") {
        Some(word) => number(word, 1, MOST_WORKERS),
        None => Some(DEFAULT_WORKERS),
    }
}

/// The number given for a value, from `least` to `most`.
fn number_given(given: &ArgMatches, name: &str, least: u32, most: u32) -> Option<u32>
    ensures { result ≡ number_given_of name.now least most (rows_of (found_of given.now)) }
{
    number(word_given(given, name)?, least, most)
}

/// The word given for a value.
fn word_given<'a>(given: &ArgMatches<'a>, name: &str) -> Option<&'a str>
    ensures { option_map (λ s. s.now) result ≡ first_of name.now (rows_of (found_of given.now)) }
{
    given.get_str(name)
}

/// The number that a word of one to ten decimal digits writes, from `least` to `most`.
fn number(word: &str, least: u32, most: u32) -> Option<u32>
    ensures { result ≡ number_in least most word.now }
{
    if !is_number(word.as_bytes()) {
        return None;
    }
    match word.parse::<u32>() {
        Ok(number) if least <= number && number <= most => Some(number),
        Ok(_) => None,
        Err(_) => None,
    }
}

fn is_number(word: &[u8]) -> bool
    ensures { result ≡ is_number_of word.now }
{
    !word.is_empty() && word.len() <= MOST_DIGITS && are_digits(word)
}

fn are_digits(word: &[u8]) -> bool
    ensures { result ≡ list_all digit_test word.now }
{
    word.iter().all(|byte| byte.is_ascii_digit())
}

/// The command line.
fn program<'a>(alloc: Global) -> Result<clap::Command<'a>, AllocError>
    ensures app { IfOk result (λ c. app_of c ≡ program_app) }
{
    clap::Command::new(alloc, "fusion")
        .no_binary_name(true)
        .subcommand_required(true)
        .subcommand(fuse_line(alloc)?)?
        .subcommand(demo_line(alloc)?)
}

/// `fuse [--workers N]`
fn fuse_line<'a>(alloc: Global) -> Result<clap::Command<'a>, AllocError>
    ensures app { IfOk result (λ c. app_of c ≡ fuse_app) }
    ensures local { IfOk result (λ c. (fields_of c).has_globals ≡ false) }
{
    clap::Command::new(alloc, "fuse").arg(workers_option(alloc))
}

/// `demo SEED FRAMES [--workers N]`
fn demo_line<'a>(alloc: Global) -> Result<clap::Command<'a>, AllocError>
    ensures app { IfOk result (λ c. app_of c ≡ demo_app) }
    ensures local { IfOk result (λ c. (fields_of c).has_globals ≡ false) }
{
    clap::Command::new(alloc, "demo")
        .arg(required_value(alloc, "seed"))?
        .arg(required_value(alloc, "frames"))?
        .arg(workers_option(alloc))
}

/// A value that has to be given.
fn required_value<'a>(alloc: Global, name: &'a str) -> Arg<'a>
    ensures rule { rule_of result ≡ required_rule name.entry.now }
    ensures local { result.global ≡ false }
{
    Arg::new(alloc, name).required(true)
}

/// The option `--workers`.
fn workers_option<'a>(alloc: Global) -> Arg<'a>
    ensures rule { rule_of result ≡ workers_rule }
    ensures local { result.global ≡ false }
{
    Arg::new(alloc, "workers").long("workers")
}
