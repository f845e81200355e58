ghost use Rattle.std.specs.Prelude.{◌≡◌, ◌*◌, ◌++◌, ℕ, List, length, Ok, IfOk};
ghost use Rattle.depth_frame.specs.DepthMaps.{depth_map_of};
ghost use Rattle.depth_frame.specs.Pgm.{HasSides, IsReadAgain, pgm_text};

use crate::DepthFrame;
use byteorder::{BigEndian, ByteOrder};
use itoa::Buffer;
use scan_io::NoMemory;
use std::alloc::{AllocError, Global};

/// The binary PGM (Netpbm) of a depth map. Its maxval is 65535, so each sample has two bytes, the most significant first.
/// With sides from 1 to 4096 it is read again as that depth map, whatever follows it.
pub fn pgm_bytes(alloc: Global, frame: &DepthFrame) -> Result<Vec<u8>, NoMemory>
    ensures bytes { IfOk result (λ b. b.items ≡ pgm_text frame.now) }
    ensures again { IfOk result (λ b. HasSides frame.now → IsReadAgain frame.now b.items) }
{
    match file_bytes(alloc, frame.width(), frame.height(), frame.samples()) {
        Ok(bytes) => Ok(bytes),
        Err(_) => Err(NoMemory),
    }
}

// Its bytes, from its sides and samples.
fn file_bytes(
    alloc: Global,
    width: u32,
    height: u32,
    samples: &[u16],
) -> Result<Vec<u8>, AllocError>
    requires { length samples.now ≡ width * height }
    ensures bytes { IfOk result (λ b. b.items ≡ pgm_text (depth_map_of width height samples.now)) }
    ensures again { IfOk result (λ b. HasSides (depth_map_of width height samples.now) → IsReadAgain (depth_map_of width height samples.now) b.items) }
{
    let mut bytes = Vec::new(alloc);
    bytes.extend_from_slice(b"P5\n")?;
    bytes.extend_from_slice(Buffer::new().format(width).as_bytes())?;
    bytes.extend_from_slice(b" ")?;
    bytes.extend_from_slice(Buffer::new().format(height).as_bytes())?;
    bytes.extend_from_slice(b"\n65535\n")?;
    let mut pair = [0; 2];
    for sample in samples {
        BigEndian::write_u16(&mut pair, *sample);
        bytes.extend_from_slice(&pair)?;
    }
    Ok(bytes)
}
