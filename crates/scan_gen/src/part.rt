ghost use Rattle.std.specs.Prelude.{◌≡◌, ◌≤◌, ◌+◌, ◌*◌, ◌/◌, ◌%◌, ◌++◌, length, vec_len, vec_capacity};
ghost use Rattle.scan_gen.specs.Generated.{config_line, digit, frame_line, frame_record, last_lines, part_of, six_digits};
ghost use Rattle.scan_gen.specs.Scene.{IsInBounds, IsInScene};

use crate::ball::Ball;
use crate::raster::push_raster;
use crate::view::{View, view_of};

/// No part of the text is longer.
pub(crate) const PART_LEN: usize = 614_500;

/// Makes the part with frame `next`, or after all frames the last lines, without taking memory.
pub(crate) fn make_part(part: &mut Vec<u8>, ball: Ball, frames: u32, next: u32)
    requires scene { IsInScene ball }
    requires room { vec_capacity part.old ≡ 614500 }
    ensures items { part.new.items ≡ part_of ball frames next }
    ensures capacity { vec_capacity part.new ≡ vec_capacity part.old }
{
    part.clear();
    if next < frames {
        push_frame(part, &view_of(ball, next));
    } else {
        push_last(part);
    }
}

/// Appends the line of the configuration, without taking memory.
#[tactic(auto, unfolding(crate::specs::Generated::config_line))]
pub(crate) fn push_config(bytes: &mut Vec<u8>)
    requires { vec_len bytes.old + 300 ≤ vec_capacity bytes.old }
    ensures items { bytes.new.items ≡ bytes.old.items ++ config_line }
    ensures capacity { vec_capacity bytes.new ≡ vec_capacity bytes.old }
{
    push_all(
        bytes,
        b"{\"version\":1,\"width\":640,\"height\":480,\"fx\":34406400,\"fy\":34406400,\"cx\":20938752,\"cy\":15695872,\"unit\":1000,\"near\":400000,\"far\":3000000,\"voxel\":5000,\"mu\":20000,\"max_weight\":100,\"radius\":2900000,\"centre\":1510000,\"heap_blocks\":65536,\"buckets\":16384,\"empty_f\":30000}\n",
    );
}

/// Appends the last lines.
#[tactic(auto, unfolding(crate::specs::Generated::last_lines))]
fn push_last(bytes: &mut Vec<u8>)
    requires { vec_len bytes.old + 8 ≤ vec_capacity bytes.old }
    ensures items { bytes.new.items ≡ bytes.old.items ++ last_lines }
    ensures capacity { vec_capacity bytes.new ≡ vec_capacity bytes.old }
{
    push_all(bytes, b"sum\nend\n");
}

/// Appends a frame.
fn push_frame(bytes: &mut Vec<u8>, view: &View)
    requires bounds { IsInBounds view.now }
    requires room { vec_len bytes.old + 614500 ≤ vec_capacity bytes.old }
    ensures items { bytes.new.items ≡ bytes.old.items ++ frame_record view.now }
    ensures capacity { vec_capacity bytes.new ≡ vec_capacity bytes.old }
{
    push_line(bytes, view.x, view.z);
    push_all(bytes, b"P5\n640 480\n65535\n");
    push_raster(bytes, view, 480);
}

/// Appends the line of a frame that stands at `x` and `z`.
fn push_line(bytes: &mut Vec<u8>, x: u32, z: u32)
    requires room { vec_len bytes.old + 60 ≤ vec_capacity bytes.old }
    ensures items { bytes.new.items ≡ bytes.old.items ++ frame_line x z }
    ensures len { vec_len bytes.new ≤ vec_len bytes.old + 60 }
    ensures capacity { vec_capacity bytes.new ≡ vec_capacity bytes.old }
{
    push_all(bytes, b"frame 1 0 0 0.");
    push_six(bytes, x);
    push_all(bytes, b" 0 1 0 0.000000 0 0 1 0.");
    push_six(bytes, z);
    push_all(bytes, b"\n");
}

/// Appends the last six digits of a number.
fn push_six(bytes: &mut Vec<u8>, n: u32)
    requires { vec_len bytes.old + 6 ≤ vec_capacity bytes.old }
    ensures items { bytes.new.items ≡ bytes.old.items ++ six_digits n }
    ensures len { vec_len bytes.new ≡ vec_len bytes.old + 6 }
    ensures capacity { vec_capacity bytes.new ≡ vec_capacity bytes.old }
{
    bytes.push_reserved(digit(n / 100_000));
    bytes.push_reserved(digit(n / 10_000));
    bytes.push_reserved(digit(n / 1000));
    bytes.push_reserved(digit(n / 100));
    bytes.push_reserved(digit(n / 10));
    bytes.push_reserved(digit(n));
}

/// The last digit of a number.
fn digit(n: u32) -> u8
    ensures { result ≡ digit n }
{
    48 + (n % 10) as u8
}

/// Appends bytes for which there is room.
fn push_all(bytes: &mut Vec<u8>, more: &[u8])
    requires { vec_len bytes.old + length more.now ≤ vec_capacity bytes.old }
    ensures items { bytes.new.items ≡ bytes.old.items ++ more.now }
    ensures len { vec_len bytes.new ≡ vec_len bytes.old + length more.now }
    ensures capacity { vec_capacity bytes.new ≡ vec_capacity bytes.old }
{
    for byte in more {
        bytes.push_reserved(*byte);
    }
}
