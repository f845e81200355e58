ghost use Rattle.std.specs.Prelude.{◌≡◌, ◌<◌, ◌≤◌, ◌+◌, ◌-◌, ◌^◌, ◌==◌, IfOk};
ghost use Rattle.depth_frame.specs.declared.error.PgmKind.TheVariants.{Header};
ghost use Rattle.depth_frame.specs.Pgm.{short, gap_end, number_end, number_at, judged_at, magic_at, header_at, judged, side_judged, maxval_judged, greatest};
ghost use Rattle.depth_frame.specs.Pgm.{is_magic as magic_test, is_white as white_test, starts_gap as gap_test, in_gap as in_gap_test, in_comment as in_comment_test};
ghost use Rattle.depth_frame.specs.Errors.{pgm_errors};
ghost use Rattle.scan_io.specs.Reading.{Reads, stream, byte_at};

use crate::error::{BadPgm, PgmError, PgmKind};
use scan_io::{Feed, Source};

/// A byte of a header and its offset in the file.
#[derive(Clone, Copy, Debug, PartialEq, Eq)]
pub struct Mark {
    pub byte: u8,
    pub offset: u64,
}

/// A number of a header, the offset of its first digit, and the byte after it with its offset.
#[derive(Clone, Copy, Debug, PartialEq, Eq)]
pub struct Number {
    pub value: u32,
    pub first: u64,
    pub after: u8,
    pub offset: u64,
}

/// Which number of a header it is.
#[derive(Clone, Copy, Debug, PartialEq, Eq)]
pub enum Role {
    /// A width or a height.
    Side,
    /// The greatest sample.
    Maxval,
}

/// What a header states: the sides, the maxval, and the offset of the first sample.
#[derive(Clone, Copy, Debug, PartialEq, Eq)]
pub struct Shape {
    pub width: u32,
    pub height: u32,
    pub maxval: u32,
    pub start: u64,
}

// The greatest length of a header, in bytes.
const HEADER_LIMIT: u64 = 4096;

/// The byte at the offset `at`.
pub fn next_byte<S: Source>(feed: &mut Feed, source: &mut S, at: u64) -> Result<u8, PgmError>
    ensures { Reads pgm_errors (λ b. b) (byte_at short at)
        (stream feed.old (S.left source.old) (S.faults source.old))
        (stream feed.new (S.left source.new) (S.faults source.new)) result }
{
    match feed.next(source)? {
        Some(byte) => Ok(byte),
        None => Err(PgmError::Bad(BadPgm {
            at,
            kind: PgmKind::Short,
        })),
    }
}

/// The whole header.
#[tactic(auto, unfolding(crate::specs::Pgm::header_at))]
pub fn read_header<S: Source>(feed: &mut Feed, source: &mut S) -> Result<Shape, PgmError>
    ensures header { Reads pgm_errors (λ s. s) header_at
        (stream feed.old (S.left source.old) (S.faults source.old))
        (stream feed.new (S.left source.new) (S.faults source.new)) result }
    ensures sides { IfOk result (λ s. (s.width ≤ 4096) × (s.height ≤ 4096)) }
    ensures maxval { IfOk result (λ s. s.maxval ≤ 65535) }
    ensures start { IfOk result (λ s. s.start ≤ 4096) }
{
    let gap = read_magic(feed, source)?;
    let width = read_judged(feed, source, Role::Side, gap, 2)?;
    let height = read_judged(feed, source, Role::Side, width.after, width.offset)?;
    let maxval = read_judged(feed, source, Role::Maxval, height.after, height.offset)?;
    Ok(Shape {
        width: width.value,
        height: height.value,
        maxval: maxval.value,
        start: maxval.offset + 1,
    })
}

// The first two bytes, and the first byte of the gap after them.
#[tactic(auto, unfolding(crate::specs::Pgm::magic_at))]
fn read_magic<S: Source>(feed: &mut Feed, source: &mut S) -> Result<u8, PgmError>
    ensures { Reads pgm_errors (λ b. b) magic_at
        (stream feed.old (S.left source.old) (S.faults source.old))
        (stream feed.new (S.left source.new) (S.faults source.new)) result }
{
    let first = next_byte(feed, source, 0)?;
    let second = next_byte(feed, source, 1)?;
    if !is_magic(first, second) {
        return Err(PgmError::Bad(BadPgm {
            at: 0,
            kind: PgmKind::Magic,
        }));
    }
    let third = next_byte(feed, source, 2)?;
    if !starts_gap(third) {
        return Err(PgmError::Bad(BadPgm {
            at: 2,
            kind: PgmKind::Header,
        }));
    }
    Ok(third)
}

// The gap that begins with the byte `gap` at the offset `at`, and the number after it, which is judged by its role.
#[tactic(auto, unfolding(crate::specs::Pgm::judged_at))]
fn read_judged<S: Source>(
    feed: &mut Feed,
    source: &mut S,
    role: Role,
    gap: u8,
    at: u64,
) -> Result<Number, PgmError>
    requires { at < 4096 }
    ensures number { Reads pgm_errors (λ k. k) (judged_at (judged role) gap at)
        (stream feed.old (S.left source.old) (S.faults source.old))
        (stream feed.new (S.left source.new) (S.faults source.new)) result }
    ensures range { IfOk result (λ k. k.value ≤ greatest role) }
    ensures limit { IfOk result (λ k. k.offset < 4096) }
{
    let number = read_number(feed, source, gap, at)?;
    Ok(judge(role, number)?)
}

fn judge(role: Role, number: Number) -> Result<Number, BadPgm>
    ensures value { result ≡ judged role number }
    ensures range { IfOk result (λ k. k.value ≤ greatest role) }
    ensures limit { IfOk result (λ k. k.offset < 4096) }
{
    match role {
        Role::Side => judge_side(number),
        Role::Maxval => judge_maxval(number),
    }
}

// The byte after a side comes first, then its range, then the length of the header.
fn judge_side(number: Number) -> Result<Number, BadPgm>
    ensures value { result ≡ side_judged number }
    ensures range { IfOk result (λ k. k.value ≤ 4096) }
    ensures limit { IfOk result (λ k. k.offset < 4096) }
{
    if !starts_gap(number.after) {
        return Err(header_fault(number.offset));
    }
    if number.value < 1 || number.value > 4096 {
        return Err(header_fault(number.first));
    }
    if number.offset >= HEADER_LIMIT {
        return Err(header_fault(number.offset));
    }
    Ok(number)
}

// The byte after the maxval comes first, then the length of the header, then its range.
fn judge_maxval(number: Number) -> Result<Number, BadPgm>
    ensures value { result ≡ maxval_judged number }
    ensures range { IfOk result (λ k. k.value ≤ 65535) }
    ensures limit { IfOk result (λ k. k.offset < 4096) }
{
    if !is_white(number.after) || number.offset >= HEADER_LIMIT {
        return Err(header_fault(number.offset));
    }
    if number.value < 1 || number.value > 65535 {
        return Err(BadPgm {
            at: number.first,
            kind: PgmKind::Maxval,
        });
    }
    Ok(number)
}

// The gap that begins with the byte `gap` at the offset `at`, and the number after it.
#[tactic(auto, unfolding(crate::specs::Pgm::number_at))]
fn read_number<S: Source>(
    feed: &mut Feed,
    source: &mut S,
    gap: u8,
    at: u64,
) -> Result<Number, PgmError>
    requires { at < 4096 }
    ensures { Reads pgm_errors (λ k. k) (number_at gap at)
        (stream feed.old (S.left source.old) (S.faults source.old))
        (stream feed.new (S.left source.new) (S.faults source.new)) result }
{
    let digit = read_gap(feed, source, gap == b'#', at + 1)?;
    read_digits(feed, source, digit)
}

// The digit after a gap whose next byte is at the offset `from`.
fn read_gap<S: Source>(
    feed: &mut Feed,
    source: &mut S,
    comment: bool,
    from: u64,
) -> Result<Mark, PgmError>
    requires { from ≤ 4096 }
    ensures digit { Reads pgm_errors (λ m. m) (gap_end comment from)
        (stream feed.old (S.left source.old) (S.faults source.old))
        (stream feed.new (S.left source.new) (S.faults source.new)) result }
    ensures is_digit { IfOk result (λ m. (48 ≤ m.byte) × (m.byte ≤ 57)) }
    ensures limit { IfOk result (λ m. m.offset < 4096) }
{
    let mut comment = comment;
    for at in from..HEADER_LIMIT {
        let byte = next_byte(feed, source, at)?;
        if !in_gap(comment, byte) {
            if byte.is_ascii_digit() {
                return Ok(Mark { byte, offset: at });
            }
            return Err(PgmError::Bad(header_fault(at)));
        }
        comment = in_comment(comment, byte);
    }
    let _ = next_byte(feed, source, HEADER_LIMIT)?;
    Err(PgmError::Bad(header_fault(HEADER_LIMIT)))
}

// The number that begins with a digit, and the byte after it.
fn read_digits<S: Source>(feed: &mut Feed, source: &mut S, digit: Mark) -> Result<Number, PgmError>
    requires is_digit { (48 ≤ digit.byte) × (digit.byte ≤ 57) }
    requires limit { digit.offset < 4096 }
    ensures { Reads pgm_errors (λ k. k) (number_end digit.offset (digit.byte - 48) (digit.offset + 1))
        (stream feed.old (S.left source.old) (S.faults source.old))
        (stream feed.new (S.left source.new) (S.faults source.new)) result }
{
    let first = digit.offset;
    let mut value = (digit.byte - b'0') as u32;
    for at in first + 1..first + 10 {
        let byte = next_byte(feed, source, at)?;
        if !byte.is_ascii_digit() {
            return Ok(Number {
                value,
                first,
                after: byte,
                offset: at,
            });
        }
        if at >= first + 9 || at >= HEADER_LIMIT {
            return Err(PgmError::Bad(header_fault(at)));
        }
        value = 10 * value + (byte - b'0') as u32;
    }
    Err(PgmError::Bad(header_fault(first + 9)))
}

fn is_magic(first: u8, second: u8) -> bool
    ensures { result ≡ magic_test first second }
{
    first == b'P' && second == b'5'
}

fn header_fault(at: u64) -> BadPgm
    ensures { result ≡ record { at = at; kind = Header } }
{
    BadPgm {
        at,
        kind: PgmKind::Header,
    }
}

fn is_white(byte: u8) -> bool
    ensures { result ≡ white_test byte }
{
    byte == b' ' || (9 <= byte && byte <= 13)
}

fn starts_gap(byte: u8) -> bool
    ensures { result ≡ gap_test byte }
{
    is_white(byte) || byte == b'#'
}

fn in_gap(comment: bool, byte: u8) -> bool
    ensures { result ≡ in_gap_test comment byte }
{
    comment || starts_gap(byte)
}

fn in_comment(comment: bool, byte: u8) -> bool
    ensures { result ≡ in_comment_test comment byte }
{
    if comment {
        byte != b'\n' && byte != b'\r'
    } else {
        byte == b'#'
    }
}
