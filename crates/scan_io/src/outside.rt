ghost use Rattle.std.specs.Prelude.{◌<◌, ◌≤◌, ◌-◌, ◌^◌, List, ℕ, Option, IfOk, length};
ghost use Rattle.std.specs.Io.{ReadsAtMost, WritesAtMost};
ghost use Rattle.std.specs.Io.KnownBytes.{ReadConsumes, WriteAppends};
ghost use Rattle.scan_io.specs.Causes.{HasCause};
ghost use Rattle.scan_io.specs.Coming.{SameTelling};

use crate::Failed;

/// Where bytes come from.
pub trait Source {
    /// The bytes still to come, where the source tells them.
    ghost left: { Self → Option (List ℕ) };

    /// How often it failed; the count saturates at `2^64 - 1`.
    ghost faults: { Self → ℕ };

    /// Puts bytes at the front of `buf` and returns their number, which is 0 only at the end of input or for
    /// an empty buffer. A call that fails takes no byte from the input and raises the count; no other call does.
    fn read(&mut self, buf: &mut [u8]) -> Result<usize, Failed>
        ensures bound { ReadsAtMost result buf.new }
        ensures bytes { ReadConsumes (left self.old) (left self.new) result buf.new }
        ensures telling { SameTelling (left self.old) (left self.new) }
        ensures cause { HasCause (faults self.old) (faults self.new) result }
        ensures most { faults self.new ≤ 2 ^ 64 - 1 };
}

/// Where bytes go.
pub trait Sink {
    /// The bytes taken so far, where the sink tells them.
    ghost written: { Self → Option (List ℕ) };

    /// How often it failed; the count saturates at `2^64 - 1`.
    ghost faults: { Self → ℕ };

    /// Takes bytes from the front of `piece` and returns their number, at least 1 for a piece that is not empty.
    /// A call that fails takes no byte and raises the count; no other call does.
    fn write(&mut self, piece: &[u8]) -> Result<usize, Failed>
        ensures bound { WritesAtMost result piece.now }
        ensures progress { 0 < length piece.now → IfOk result (λ n. 0 < n) }
        ensures bytes { WriteAppends (written self.old) (written self.new) result piece.now }
        ensures telling { SameTelling (written self.old) (written self.new) }
        ensures cause { HasCause (faults self.old) (faults self.new) result }
        ensures most { faults self.new ≤ 2 ^ 64 - 1 };
}
