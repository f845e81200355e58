ghost use Rattle.std.specs.Prelude.{◌≡◌, ◌<◌, ◌≤◌, ◌++◌, ℕ, List, Ok};
ghost use Rattle.depth_frame.specs.Pgm.{pgm_at, pgm_of, ShortIsAtEnd, CutIsShort, CutRefusalIsShort, OthersAreInside, OthersStay};
ghost use Rattle.depth_frame.specs.Files.{File, FoundFile, IsFile, file_bytes, file_depth_map};
ghost use Rattle.depth_frame.specs.DepthMaps.{DepthMap};
ghost use Rattle.depth_frame.specs.Errors.{pgm_errors};
ghost use Rattle.scan_io.specs.Reading.{Reads, stream};

use crate::DepthFrame;
use crate::error::{BadPgm, PgmError};
use crate::header::read_header;
use crate::raster::read_raster;
use scan_io::{Feed, Source};
use std::alloc::Global;

/// The depth map of the binary PGM (Netpbm) at the front of the bytes to come, which lose just its bytes. The samples
/// are taken as they are, and not scaled by the maxval. After an error, what was read of the file is lost.
#[tactic(auto, unfolding(crate::specs::Pgm::pgm_of))]
pub fn read_pgm<S: Source>(
    alloc: Global,
    feed: &mut Feed,
    source: &mut S,
) -> Result<DepthFrame, PgmError>
    ensures pgm { Reads pgm_errors (λ f. f) (pgm_of feed.old.given)
        (stream feed.old (S.left source.old) (S.faults source.old))
        (stream feed.new (S.left source.new) (S.faults source.new)) result }
{
    let start = feed.place();
    match read_file(alloc, feed, source) {
        Ok(frame) => Ok(frame),
        Err(PgmError::Bad(why)) => Err(PgmError::Bad(BadPgm {
            at: start.saturating_add(why.at),
            kind: why.kind,
        })),
        Err(PgmError::ReadFault) => Err(PgmError::ReadFault),
        Err(PgmError::NoMemory) => Err(PgmError::NoMemory),
    }
}

// The file, with offsets from its first byte.
#[tactic(auto, unfolding(crate::specs::Pgm::pgm_at))]
fn read_file<S: Source>(
    alloc: Global,
    feed: &mut Feed,
    source: &mut S,
) -> Result<DepthFrame, PgmError>
    ensures { Reads pgm_errors (λ f. f) pgm_at
        (stream feed.old (S.left source.old) (S.faults source.old))
        (stream feed.new (S.left source.new) (S.faults source.new)) result }
{
    let shape = read_header(feed, source)?;
    let count = shape.width as usize * shape.height as usize;
    let raw = read_raster(alloc, feed, source, shape.maxval, count, shape.start)?;
    Ok(DepthFrame::make(shape.width, shape.height, raw))
}

/// A law: whatever is put together as a file is read as its depth map, whatever follows it, and nothing else is read.
/// It does nothing when it is called.
pub fn files_are_read()
    ensures read { (start : ℕ) (f : File) (rest : List ℕ) → IsFile f → pgm_of start (file_bytes f ++ rest) ≡ Ok (file_depth_map f, rest) }
    ensures found { (start : ℕ) (text : List ℕ) (p : DepthMap) (rest : List ℕ) → pgm_of start text ≡ Ok (p, rest) → FoundFile text p rest }
{}

/// A law: a text that ends inside a file is refused as `Short`, at its end and nowhere else. It does nothing when it is
/// called.
pub fn short_is_at_the_end()
    ensures end { ShortIsAtEnd }
    ensures cut { CutIsShort }
    ensures cut_refused { CutRefusalIsShort }
{}

/// A law: every refusal but `Short` is at a byte of the text, and stays whatever follows the text. It does nothing when it
/// is called.
pub fn other_refusals_stay()
    ensures inside { OthersAreInside }
    ensures stays { OthersStay }
{}
