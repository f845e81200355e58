ghost use Rattle.std.specs.Prelude.{◌≡◌, ◌^◌, ◌<◌, ◌≤◌, pos, ◌+ℤ◌, ◌-ℤ◌, Some, IfSome};
ghost use Rattle.voxel_block.specs.Words.{shifted_of, word_of, key_of};

/// The coordinates of a block in the grid, in blocks. Keys are ordered by x, then y, then z.
#[derive(Clone, Copy, Debug, PartialEq, Eq, PartialOrd, Ord, Hash)]
pub struct BlockKey {
    pub x: i16,
    pub y: i16,
    pub z: i16,
}

impl BlockKey {
    /// The key as one word, which is never 0: each coordinate plus 32768, in 16 bits, and 1 added to the whole.
    pub fn word(self) -> u64
        ensures value { result ≡ word_of self }
        ensures bound { result ≤ 2 ^ 48 }
        ensures back { key_of result ≡ Some self }
    {
        1 + shifted(self.x) * 0x1_0000_0000 + shifted(self.y) * 0x1_0000 + shifted(self.z)
    }

    /// The key of a word. `None` where the word is 0 or above `2^48`.
    pub fn of_word(w: u64) -> Option<BlockKey>
        ensures value { result ≡ key_of w }
        ensures back { IfSome result (λ k. word_of k ≡ w) }
    {
        if w == 0 || w > 0x1_0000_0000_0000 {
            return None;
        }
        let rest = w - 1;
        let x = coordinate(rest / 0x1_0000_0000);
        let y = coordinate(rest / 0x1_0000 % 0x1_0000);
        let z = coordinate(rest % 0x1_0000);
        Some(BlockKey { x, y, z })
    }
}

// A coordinate counted from -32768 on.
fn shifted(a: i16) -> u64
    ensures value { result ≡ shifted_of a }
    ensures bound { result < 2 ^ 16 }
    ensures back { pos result ≡ a +ℤ pos 32768 }
{
    (i32::from(a) + 32768) as u64
}

// The coordinate of such a number.
fn coordinate(n: u64) -> i16
    requires { n < 2 ^ 16 }
    ensures { result ≡ pos n -ℤ pos 32768 }
{
    (n as i32 - 32768) as i16
}
