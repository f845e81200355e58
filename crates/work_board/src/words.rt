ghost use Rattle.std.specs.Prelude.{◌≡◌, Some};
ghost use Rattle.fusion_core.specs.declared.board.done.Done.{Done as DoneValue};
ghost use Rattle.work_board.specs.Rule.{code, FitsWord};

use fusion_core::Done;
use voxel_block::Summary;

/// The word of an answer.
pub fn word_of(done: Done) -> u64
    ensures value { result ≡ code (Some done) }
    ensures fits { FitsWord done }
{
    match done {
        Done::Cell(c) => 4 * c as u64 + 1,
        Done::Freed(c) => 4 * c as u64 + 2,
        Done::Looked(s) => 4 * (65536 * s.known as u64 + s.least as u64) + 3,
    }
}

/// The answer of a word.
pub fn done_of(word: u64) -> Done
    ensures { (d : DoneValue) → FitsWord d → word ≡ code (Some d) → result ≡ d }
{
    let rest = word / 4;
    match word % 4 {
        1 => Done::Cell((rest % 4294967296) as u32),
        2 => Done::Freed((rest % 4294967296) as u32),
        _ => Done::Looked(Summary {
            known: (rest / 65536 % 65536) as u16,
            least: (rest % 65536) as u16,
        }),
    }
}
