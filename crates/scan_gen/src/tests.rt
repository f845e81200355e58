use super::*;
use crate::ball::ball_of;
use crate::depth::{depth, row_depth};
use crate::view::view_of;
use scan_io::Source;
use std::alloc::Global;
use std::test::Fail;

// The length of a scan of two frames, and of all before its first raster.
const TWO_FRAMES: usize = 1_229_206;

const BEFORE_RASTER: usize = 330;

// The bytes of a scan, read in pieces.
fn scan(alloc: Global, seed: u32, frames: u32, piece: usize) -> Result<Vec<u8>, Fail> {
    let frames = frames.clamp(1, 1000);
    let mut source = GenSource::make(alloc, seed, frames).map_err(|_| Fail::from("memory"))?;
    let mut buffer = vec![in alloc; 0_u8; piece]?;
    let mut text = Vec::new(alloc);
    for _ in 0..3_000_000_u32 {
        let count = source.read(&mut buffer).map_err(|_| Fail::from("read"))?;
        if count == 0 {
            break;
        }
        text.extend_from_slice(&buffer[..count])?;
    }
    Ok(text)
}

// The sample of the first frame in column u of row v.
fn sample(text: &[u8], u: usize, v: usize) -> u32 {
    let at = BEFORE_RASTER + 2 * (640 * v.min(479) + u.min(639));
    match (text.get(at), text.get(at + 1)) {
        (Some(high), Some(low)) => 256 * u32::from(*high) + u32::from(*low),
        _ => 0,
    }
}

#[test]
fn samples_of_three_seeds(rt: HostRuntime) -> Result<(), Fail> {
    let alloc = rt.alloc();
    for (seed, u, v, ball) in [
        (0, 420, 296, 1623),
        (7, 442, 259, 1245),
        (4_294_967_295, 419, 247, 1279),
    ] {
        let text = scan(alloc, seed, 1, 65_536)?;
        assert_eq!(rt; sample(&text, 0, 0), 2300);
        assert_eq!(rt; sample(&text, 639, 0), 2300);
        assert_eq!(rt; sample(&text, 320, 0), 2500);
        assert_eq!(rt; sample(&text, 320, 479), 2192);
        assert_eq!(rt; sample(&text, u, v), ball);
    }
    Ok(())
}

// The left wall in the first column: 1400000 * 34406400 / 20938752.
#[test]
fn the_left_wall_is_met(rt: HostRuntime) -> Result<(), Fail> {
    let view = view_of(ball_of(7), 0);
    let dy = -15_695_872;
    let row = row_depth(&view, dy);
    assert_eq!(rt; depth(&view, row, -20_938_752, dy), 2_300_469);
    Ok(())
}

#[test]
fn samples_around_a_ball(rt: HostRuntime) -> Result<(), Fail> {
    let text = scan(rt.alloc(), 7, 1, 614_500)?;
    for (u, v, ball) in [(482, 259, 1236), (442, 219, 1263), (392, 289, 1303)] {
        assert_eq!(rt; sample(&text, u, v), ball);
    }
    Ok(())
}

#[test]
fn a_scan_of_two_frames(rt: HostRuntime) -> Result<(), Fail> {
    let alloc = rt.alloc();
    let whole = scan(alloc, 7, 2, 1 << 20)?;
    assert_eq!(rt; whole.len(), TWO_FRAMES);
    let mut hash = 2_166_136_261_u32;
    for byte in &whole {
        hash = (hash ^ u32::from(*byte)).wrapping_mul(16_777_619);
    }
    assert_eq!(rt; hash, 215_059_579);
    let pieces = scan(alloc, 7, 2, 97)?;
    assert!(rt; pieces == whole);
    Ok(())
}
