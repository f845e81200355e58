//! What the rule of touching tells, as theorems.

ghost use Rattle.fusion_core.specs.TouchLaws.{StepKeepsRule, TouchedIsFound, WalkEndTells};

/// Each step that a seat with a part may make keeps the rule, in any state in which it holds. The body is empty: the clause
/// is the theorem.
pub fn step_keeps_rule()
    ensures { StepKeepsRule }
{}

/// A key that a seat touched is found at the entry that the seat keeps for it.
pub fn touched_is_found()
    ensures { TouchedIsFound }
{}

/// A seat whose next link leads to no node has seen the whole walk: neither the table at the start nor its own
/// touched list has the key.
pub fn walk_end_tells()
    ensures { WalkEndTells }
{}
