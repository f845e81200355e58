ghost use Rattle.std.specs.Prelude.{◌≡◌, None, ◌∷◌, []};
ghost use Rattle.hash_share.specs.Seats.{Belongs};
ghost use Rattle.allocator.specs.Work.{Adds, HasTouched, IsSpentAt, TouchedAll, drawn_by as drawn_by_of};

use hash_share::{HashShare, TouchSeat, Touched};
use voxel_block::BlockKey;

/// Touches keys in order, up to the first for which no node is left, and returns the number that was drawn
/// there.
pub(crate) fn touch_all(share: &HashShare, seat: &mut TouchSeat, keys: &[BlockKey]) -> Option<u64>
    requires { Belongs seat.old share.now }
    ensures belongs { Belongs seat.new share.now }
    ensures part { seat.new.knows.part ≡ seat.old.knows.part }
    ensures adds { Adds keys.now seat.old.knows seat.new.knows }
    ensures all { result ≡ None → TouchedAll keys.now seat.new.knows }
    ensures spent { IsSpentAt share.now.start.nodes seat.new.knows result }
{
    for key in keys {
        if let Some(drawn) = touch(share, seat, *key) {
            return Some(drawn);
        }
    }
    None
}

/// Touches a key. Returns the number that was drawn, where no node is left for it.
fn touch(share: &HashShare, seat: &mut TouchSeat, key: BlockKey) -> Option<u64>
    requires { Belongs seat.old share.now }
    ensures belongs { Belongs seat.new share.now }
    ensures part { seat.new.knows.part ≡ seat.old.knows.part }
    ensures adds { Adds (key ∷ []) seat.old.knows seat.new.knows }
    ensures all { result ≡ None → HasTouched seat.new.knows key }
    ensures spent { IsSpentAt share.now.start.nodes seat.new.knows result }
{
    drawn_by(share.touch(seat, key))
}

/// The number that a touch drew, where no node was left.
fn drawn_by(touched: Touched) -> Option<u64>
    ensures { result ≡ drawn_by_of touched }
{
    match touched {
        Touched::New(_) | Touched::Old(_) => None,
        Touched::Spent { drawn } => Some(drawn),
    }
}
