ghost use Rattle.std.specs.Prelude.{◌≡◌, ◌≤◌, ◌++◌, [], Some, min, length, take, IfOk, IsOk};
ghost use Rattle.std.specs.Io.{ReadsAtMost};
ghost use Rattle.std.specs.Io.KnownBytes.{ReadConsumes};
ghost use Rattle.scan_gen.specs.Generated.{generated_scan};

use crate::ball::{Ball, ball_of};
use crate::part::{PART_LEN, make_part, push_config};
use scan_io::{Failed, NoMemory, Source};
use std::alloc::Global;
use std::marker::Model;

/// A source of a generated scan. It never fails, and takes no memory once it is made.
#[derive(Drop)]
pub struct GenSource {
    part: Vec<u8>,
    at: usize,
    ball: Ball,
    frames: u32,
    next: u32,
}

impl Model for GenSource {
    ghost use Rattle.std.specs.Prelude.{◌≡◌, ◌≤◌, ◌+◌, drop, vec_len, vec_capacity};
    ghost use Rattle.scan_gen.specs.Generated.{later_of};
    ghost use Rattle.scan_gen.specs.Scene.{IsInScene};
    ghost use Rattle.scan_gen.specs.Supply.{Supply};

    ghost Value = { Supply };

    ghost view = { λ s. record { held = drop s.at s.part.items; later = later_of s.ball s.frames s.next } };

    ghost invariant = { λ s. (s.at ≤ vec_len s.part) × (vec_capacity s.part ≡ 614500) × IsInScene s.ball × (s.frames ≤ 1000) × (s.next ≤ s.frames + 1) };
}

impl GenSource {
    /// The scan of a seed, with this many frames, from 1 to 1000.
    ///
    /// # Errors
    ///
    /// Out of memory. No later call takes memory.
    pub fn make(alloc: Global, seed: u32, frames: u32) -> Result<GenSource, NoMemory>
        requires least { 1 ≤ frames }
        requires most { frames ≤ 1000 }
        ensures { IfOk result (λ s. s.held ++ s.later ≡ generated_scan seed frames) }
    {
        let mut part = Vec::with_capacity(alloc, PART_LEN).map_err(|_| NoMemory)?;
        push_config(&mut part);
        Ok(GenSource {
            part,
            at: 0,
            ball: ball_of(seed),
            frames,
            next: 0,
        })
    }

    // Makes the next part, where there is one, once the present one is used up.
    fn prepare(&mut self)
        ensures same { self.new.held ++ self.new.later ≡ self.old.held ++ self.old.later }
        ensures ready { self.new.held ≡ [] → self.new.later ≡ [] }
    {
        if self.at < self.part.len() {
            return;
        }
        if self.next > self.frames {
            return;
        }
        make_part(&mut self.part, self.ball, self.frames, self.next);
        self.at = 0;
        self.next += 1;
    }

    // Puts bytes of the present part at the front of `buf`, as many as there are and fit, and returns their number.
    fn give(&mut self, buf: &mut [u8]) -> usize
        ensures count { result ≡ min (length buf.new) (length self.old.held) }
        ensures bound { length buf.new ≡ length buf.old }
        ensures bytes { self.old.held ≡ take result buf.new ++ self.new.held }
        ensures later { self.new.later ≡ self.old.later }
    {
        let count = buf.len().min(self.part.len() - self.at);
        buf[..count].copy_from_slice(&self.part[self.at..self.at + count]);
        self.at += count;
        count
    }
}

impl Source for GenSource {
    ghost left = { λ s. Some (s.held ++ s.later) };

    ghost faults = { λ s. 0 };

    fn read(&mut self, buf: &mut [u8]) -> Result<usize, Failed>
        ensures bound { ReadsAtMost result buf.new }
        ensures bytes { ReadConsumes (Some (self.old.held ++ self.old.later)) (Some (self.new.held ++ self.new.later)) result buf.new }
        ensures ok { IsOk result }
    {
        self.prepare();
        Ok(self.give(buf))
    }
}
