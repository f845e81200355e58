ghost use Rattle.std.specs.Prelude.{◌≡◌, ◌<◌, ◌≤◌, ◌==◌, not, length, position, IfSome, Some};
ghost use Rattle.std.specs.List.{position_or_len};
ghost use Rattle.scan_lang.specs.Offsets.{offset_after, fault};
ghost use Rattle.scan_lang.specs.Words.{is_blank as blank_test, words_of, scale_of, number_at, numbers_from, rows_in as rows_of, frame_head, coordinate_at, place_head, alone as alone_of, one_word as record_of, head_with, head_of};
ghost use Rattle.scan_lang.specs.Spans.{bytes_of, words_from, words_with};
ghost use Rattle.scan_lang.specs.declared.error.BadWhat.TheVariants.{Line, Number};

use crate::coordinate::read_coordinate;
use crate::entry::Entry;
use crate::error::{BadScan, BadWhat};
use crate::head::Head;
use fixed_geom::{PoseRows, Vec3, read_decimal};
use voxel_block::BlockKey;

const METRE: i64 = 1_000_000;

const ONE: i64 = 1 << 30;

const FRAME_NUMBERS: usize = 12;

const COORDINATES: usize = 3;

/// The bytes of a line from the index `start` to before `end`.
#[derive(Clone, Copy, Debug, PartialEq, Eq)]
pub struct Span {
    pub start: usize,
    pub end: usize,
}

impl Span {
    fn is_empty(&self) -> bool
        ensures { result ≡ (self.now.start == self.now.end) }
    {
        self.start == self.end
    }
}

/// What the line at an offset begins; nothing where it has no words.
#[tactic(auto, unfolding(crate::specs::Words::head_of, crate::specs::Words::words_of))]
pub fn read_head(offset: u64, line: &[u8]) -> Result<Option<Head>, BadScan>
    ensures { result ≡ head_of offset line.now }
{
    let word = next_word(line, 0);
    if word.is_empty() {
        return Ok(None);
    }
    Ok(Some(read_record(offset, line, word)?))
}

// The record of a line by its first word.
fn read_record(offset: u64, line: &[u8], word: Span) -> Result<Head, BadScan>
    requires order { word.start ≤ word.end }
    requires bound { word.end ≤ length line.now }
    ensures { result ≡ head_with offset (bytes_of line.now word) (words_from word.end line.now) }
{
    let bytes = &line[word.start..word.end];
    if bytes == b"frame".as_slice() {
        return read_frame(offset, line, word.end);
    }
    if bytes == b"place".as_slice() {
        return read_place(offset, line, word.end);
    }
    match one_word(bytes) {
        Some(entry) => alone(offset, entry, line, word.end),
        None => Err(line_fault(offset)),
    }
}

// The record that is one word.
fn one_word(word: &[u8]) -> Option<Entry>
    ensures { result ≡ record_of word.now }
{
    if word == b"collect".as_slice() {
        return Some(Entry::Collect);
    }
    if word == b"render".as_slice() {
        return Some(Entry::Render);
    }
    if word == b"voxels".as_slice() {
        return Some(Entry::Voxels);
    }
    if word == b"points".as_slice() {
        return Some(Entry::Points);
    }
    if word == b"sum".as_slice() {
        return Some(Entry::Sum);
    }
    if word == b"end".as_slice() {
        return Some(Entry::End);
    }
    None
}

// A record of one word, which ends at the index `from` of the line.
fn alone(offset: u64, entry: Entry, line: &[u8], from: usize) -> Result<Head, BadScan>
    requires { from ≤ length line.now }
    ensures { result ≡ alone_of offset (Some entry) (words_from from line.now) }
{
    if next_word(line, from).is_empty() {
        Ok(Head::Whole(entry))
    } else {
        Err(line_fault(offset))
    }
}

// A frame, whose word ends at the index `from`; twelve numbers follow.
fn read_frame(offset: u64, line: &[u8], from: usize) -> Result<Head, BadScan>
    requires { from ≤ length line.now }
    ensures { result ≡ frame_head offset (words_from from line.now) }
{
    if !has_words(line, from, FRAME_NUMBERS) {
        return Err(line_fault(offset));
    }
    let numbers = read_numbers(offset, line, from)?;
    Ok(Head::Frame(rows_in(&numbers)))
}

// The first three rows of the camera-to-world matrix, of its twelve numbers row by row.
fn rows_in(n: &[i64; FRAME_NUMBERS]) -> PoseRows
    ensures { result ≡ rows_of n.now }
{
    PoseRows {
        r: [n[0], n[1], n[2], n[4], n[5], n[6], n[8], n[9], n[10]],
        t: Vec3 {
            x: n[3],
            y: n[7],
            z: n[11],
        },
    }
}

// Whether there are exactly `count` words from an index on.
fn has_words(line: &[u8], from: usize, count: usize) -> bool
    requires { from ≤ length line.now }
    ensures { result ≡ (length (words_from from line.now) == count) }
{
    let mut next = from;
    for _ in 0..count {
        let word = next_word(line, next);
        if word.is_empty() {
            return false;
        }
        next = word.end;
    }
    next_word(line, next).is_empty()
}

// The numbers that the twelve words from the index `from` write, in the line at `offset`.
fn read_numbers(offset: u64, line: &[u8], from: usize) -> Result<[i64; FRAME_NUMBERS], BadScan>
    requires bound { from ≤ length line.now }
    requires twelve { length (words_from from line.now) ≡ 12 }
    ensures { result ≡ numbers_from offset 0 (words_from from line.now) }
{
    let mut next = from;
    let mut numbers = [0; FRAME_NUMBERS];
    for index in 0..FRAME_NUMBERS {
        let word = next_word(line, next);
        numbers[index] = read_number(offset, index, line, word)?;
        next = word.end;
    }
    Ok(numbers)
}

fn read_number(offset: u64, index: usize, line: &[u8], word: Span) -> Result<i64, BadScan>
    requires order { word.start ≤ word.end }
    requires bound { word.end ≤ length line.now }
    ensures { result ≡ number_at offset index (record { at = word.start; bytes = bytes_of line.now word }) }
{
    match read_decimal(&line[word.start..word.end], scale(index)) {
        Ok(number) => Ok(number),
        Err(_) => Err(number_fault(offset, word)),
    }
}

// The place of a block, whose word ends at the index `from`; three coordinates follow.
fn read_place(offset: u64, line: &[u8], from: usize) -> Result<Head, BadScan>
    requires { from ≤ length line.now }
    ensures { result ≡ place_head offset (words_from from line.now) }
{
    if !has_words(line, from, COORDINATES) {
        return Err(line_fault(offset));
    }
    let x = next_word(line, from);
    let y = next_word(line, x.end);
    let z = next_word(line, y.end);
    let key = BlockKey {
        x: key_coordinate(offset, line, x)?,
        y: key_coordinate(offset, line, y)?,
        z: key_coordinate(offset, line, z)?,
    };
    Ok(Head::Whole(Entry::Place(key)))
}

// A coordinate of a key, in the line at `offset`.
fn key_coordinate(offset: u64, line: &[u8], word: Span) -> Result<i16, BadScan>
    requires order { word.start ≤ word.end }
    requires bound { word.end ≤ length line.now }
    ensures { result ≡ coordinate_at offset (record { at = word.start; bytes = bytes_of line.now word }) }
{
    match read_coordinate(&line[word.start..word.end]) {
        Some(coordinate) => Ok(coordinate),
        None => Err(number_fault(offset, word)),
    }
}

// An entry of the rotation is kept in units of 2^-30, a translation in micrometres.
fn scale(index: usize) -> i64
    ensures { result ≡ scale_of index }
{
    if index % 4 == 3 { METRE } else { ONE }
}

// The first word from an index on; an empty span at the end of the line where there is none.
fn next_word(line: &[u8], from: usize) -> Span
    requires { from ≤ length line.now }
    ensures words { words_from from line.now ≡ words_with line.now result }
    ensures order { result.start ≤ result.end }
    ensures bound { result.end ≤ length line.now }
{
    let start = from + blanks(&line[from..]);
    let end = start + word_len(&line[start..]);
    Span { start, end }
}

// The number of bytes before the first one that is not blank.
fn blanks(text: &[u8]) -> usize
    ensures value { result ≡ position_or_len (λ b. not (blank_test b)) text.now }
    ensures bound { result ≤ length text.now }
{
    first_of_word(text).unwrap_or(text.len())
}

fn first_of_word(text: &[u8]) -> Option<usize>
    ensures first { result ≡ position (λ b. not (blank_test b)) text.now }
    ensures bound { IfSome result (λ i. i < length text.now) }
{
    text.iter().position(|b| !is_blank(*b))
}

// The number of bytes before the first blank.
fn word_len(text: &[u8]) -> usize
    ensures value { result ≡ position_or_len blank_test text.now }
    ensures bound { result ≤ length text.now }
{
    first_blank(text).unwrap_or(text.len())
}

fn first_blank(text: &[u8]) -> Option<usize>
    ensures first { result ≡ position blank_test text.now }
    ensures bound { IfSome result (λ i. i < length text.now) }
{
    text.iter().position(|b| is_blank(*b))
}

// Space, TAB or CR.
fn is_blank(byte: u8) -> bool
    ensures { result ≡ blank_test byte }
{
    byte == b' ' || byte == b'\t' || byte == b'\r'
}

// A word that is no number, in the line at `offset`.
fn number_fault(offset: u64, word: Span) -> BadScan
    ensures { result ≡ fault Number (offset_after offset word.start) }
{
    BadScan {
        at: offset.saturating_add(word.start as u64),
        what: BadWhat::Number,
    }
}

fn line_fault(offset: u64) -> BadScan
    ensures { result ≡ fault Line offset }
{
    BadScan {
        at: offset,
        what: BadWhat::Line,
    }
}
