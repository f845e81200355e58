//! What the model and the machine of a board promise, as theorems.

ghost use Rattle.fusion_core.specs.BoardLaws.{EventKeepsWhole, IsInOneHand, KeepsPlaces, KeysLieOnce, RestIsFree, StaysWhole, WholeEnds};
ghost use Rattle.fusion_core.specs.Laws.{FusedStaysSound, StartIsSound, TouchedThenUpdated};

/// The empty state is sound. The body is empty: the clause is the theorem.
pub fn start_is_sound()
    ensures { StartIsSound }
{}

/// A frame that is fused into a sound state leaves a sound one.
pub fn fused_stays_sound()
    ensures { FusedStaysSound }
{}

/// To touch the blocks of a frame's band, and then to update every block, is to fuse the frame.
pub fn touched_then_updated()
    ensures { TouchedThenUpdated }
{}

/// Each event that is allowed keeps a board whole.
pub fn event_keeps_whole()
    ensures { EventKeepsWhole }
{}

/// A ready board is whole after every list of events that its machine allows.
pub fn board_stays_whole()
    ensures { StaysWhole }
{}

/// No cell and no dock of a whole board is in two hands.
pub fn slot_is_in_one_hand()
    ensures { IsInOneHand }
{}

/// A free cell that was not drawn yet is at home, and free.
pub fn rest_is_free()
    ensures { RestIsFree }
{}

/// A whole board with all its jobs done gives something back, and what it gives back is its end, whatever the order of the
/// jobs was.
pub fn whole_board_ends()
    ensures { WholeEnds }
{}

/// After every list of events the block of a key is in as many places as at the start, and in one more for each job done
/// that made one.
pub fn board_keeps_places()
    ensures { KeepsPlaces }
{}

/// Where the owned cells, the full docks and the jobs that make blocks have different keys, each key lies in one place
/// after every list of events.
pub fn keys_lie_once()
    ensures { KeysLieOnce }
{}
