//! Each step on the table of a board is a step of the machine of a board in `fusion_core`, or none, as theorems. The bodies
//! are empty: each clause is a theorem.

ghost use Rattle.work_board.specs.Events.{ClaimIsStep, DrawIsStep, FinishIsStep, IsInOneHand, IsInOneList, JoinIsNone, SplitIsNone, StartIsOpening, WeighIsNone};

/// A fetch and add of the counter of claims is a Claim while a job is left, and else no step. One of the cursor is a Draw,
/// and a store of an answer is a Finish.
pub fn words_are_steps()
    ensures claim { ClaimIsStep }
    ensures draw { DrawIsStep }
    ensures finish { FinishIsStep }
{}

/// A board that is made shows the machine as it opens, with one worker. A split is no step, and gives the machine one worker
/// more, with nothing in hand. A join is no step, and neither is the load of word 0 by which a seat that took another one in
/// learns the bound of its part.
pub fn seats_are_workers()
    ensures start { StartIsOpening }
    ensures split { SplitIsNone }
    ensures join { JoinIsNone }
    ensures weigh { WeighIsNone }
{}

/// At each moment no cell and no dock is in two hands, and no job stands in the lists of two seats, or twice in one.
pub fn each_is_in_one_place()
    ensures slots { IsInOneHand }
    ensures jobs { IsInOneList }
{}
