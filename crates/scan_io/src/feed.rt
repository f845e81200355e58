ghost use Rattle.std.specs.Prelude.{◌≡◌, ◌≢◌, ◌≤◌, ◌↔◌, ◌+◌, ◌-◌, ◌^◌, [], ◌∷◌, min, length, drop, false, IfOk, OnErr, IsTrue};
ghost use Rattle.std.specs.Io.KnownBytes.{Keeps, IsAtEnd};
ghost use Rattle.scan_io.specs.Causes.{HasCause};
ghost use Rattle.scan_io.specs.Coming.{LosesFront, SameTelling, to_come, Gives, GivesKept, KeepsNone, given_after};

use crate::{Failed, NoMemory, Source};
use std::alloc::Global;
use std::marker::Model;

const BUFFER_LEN: usize = 4096;

/// Gives the bytes of a source one by one, through a buffer of 4096 bytes. A feed has no source of its own: each call
/// is lent one.
#[derive(Drop)]
pub struct Feed {
    buffer: Vec<u8>,
    at: usize,
    end: usize,
    given: u64,
}

impl Model for Feed {
    ghost use Rattle.std.specs.Prelude.{◌≤◌, ◌≡◌, ◌-◌, take, drop, vec_len};
    ghost use Rattle.scan_io.specs.Coming.{Kept};

    ghost Value = { Kept };

    ghost view = { λ f. record { bytes = take (f.end - f.at) (drop f.at f.buffer.items); given = f.given } };

    ghost invariant = { λ f. (f.at ≤ f.end) × (f.end ≤ vec_len f.buffer) × (vec_len f.buffer ≡ 4096) };
}

impl Feed {
    /// A feed that keeps no byte and has given none.
    pub fn make(alloc: Global) -> Result<Feed, NoMemory>
        ensures { IfOk result (λ f. f ≡ record { bytes = []; given = 0 }) }
    {
        let buffer = vec![in alloc; 0; BUFFER_LEN].map_err(|_| NoMemory)?;
        Ok(Feed {
            buffer,
            at: 0,
            end: 0,
            given: 0,
        })
    }

    /// The first byte to come, or `None` at the end of input. A feed that keeps bytes does not read from the source; one
    /// that keeps none reads once.
    pub fn next<S: Source>(&mut self, source: &mut S) -> Result<Option<u8>, Failed>
        ensures gives { Gives (to_come self.old (S.left source.old)) (to_come self.new (S.left source.new)) result }
        ensures first { GivesKept self.old.bytes self.new.bytes result }
        ensures unread { self.old.bytes ≢ [] → source.new ≡ source.old }
        ensures kept { KeepsNone self.new.bytes result }
        ensures given { self.new.given ≡ given_after self.old.given result }
        ensures telling { SameTelling (S.left source.old) (S.left source.new) }
        ensures front { LosesFront (to_come self.old (S.left source.old)) (to_come self.new (S.left source.new)) }
        ensures cause { HasCause (S.faults source.old) (S.faults source.new) result }
    {
        if !self.is_spent() {
            return Ok(Some(self.take()));
        }
        if self.refill(source)? {
            Ok(Some(self.take()))
        } else {
            Ok(None)
        }
    }

    /// The number of bytes given; it saturates at `2^64 - 1`.
    pub fn place(&self) -> u64
        ensures { result ≡ self.now.given }
    {
        self.given
    }

    /// The kept bytes, which are the next to come.
    pub fn kept(&self) -> &[u8]
        ensures { result.now ≡ self.now.bytes }
    {
        &self.buffer[self.at..self.end]
    }

    /// Gives the first `count` of the kept bytes, all at once.
    pub fn skip(&mut self, count: usize)
        requires { count ≤ length self.old.bytes }
        ensures bytes { self.new.bytes ≡ drop count self.old.bytes }
        ensures given { self.new.given ≡ min (self.old.given + count) (2 ^ 64 - 1) }
    {
        self.at += count;
        self.given = self.given.saturating_add(count as u64);
    }

    // Whether the feed keeps no byte.
    fn is_spent(&self) -> bool
        ensures { IsTrue result ↔ (self.now.bytes ≡ []) }
    {
        self.at == self.end
    }

    // Gives the first of the kept bytes.
    fn take(&mut self) -> u8
        requires { self.old.bytes ≢ [] }
        ensures first { self.old.bytes ≡ result ∷ self.new.bytes }
        ensures given { self.new.given ≡ min (self.old.given + 1) (2 ^ 64 - 1) }
    {
        let byte = self.buffer[self.at];
        self.at += 1;
        self.given = self.given.saturating_add(1);
        byte
    }

    // Reads once into the empty buffer, and returns whether the feed keeps a byte now.
    fn refill<S: Source>(&mut self, source: &mut S) -> Result<bool, Failed>
        requires { self.old.bytes ≡ [] }
        ensures coming { Keeps (to_come self.old (S.left source.old)) (to_come self.new (S.left source.new)) }
        ensures some { IfOk result (λ b. IsTrue b ↔ (self.new.bytes ≢ [])) }
        ensures none { IfOk result (λ b. b ≡ false → (self.new.bytes ≡ []) × IsAtEnd (to_come self.new (S.left source.new))) }
        ensures err { OnErr result (self.new.bytes ≡ []) }
        ensures given { self.new.given ≡ self.old.given }
        ensures telling { SameTelling (S.left source.old) (S.left source.new) }
        ensures cause { HasCause (S.faults source.old) (S.faults source.new) result }
    {
        self.at = 0;
        self.end = 0;
        let count = source.read(&mut self.buffer)?;
        self.end = count;
        Ok(count > 0)
    }
}
