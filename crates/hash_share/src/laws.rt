//! Each step on the words of a share is a step of the touch machine of `fusion_core`, or none, as theorems. The
//! bodies are empty: each clause is a theorem.

ghost use Rattle.hash_share.specs.Events.{LookIsSeen, FollowIsSeen, TryIsPlaceOrSeen, DrawIsNode, StoreIsFill, HangIsLinkOrSeen, WeighIsNone, StartKeepsRule, SplitKeepsRule, JoinKeepsRule};

/// A load of a key word or of a link word is a Seen, and no step where the word is 0.
pub fn loads_are_steps()
    ensures key { LookIsSeen }
    ensures link { FollowIsSeen }
{}

/// A compare and exchange from 0 is a Place or a Link where it is won, and else a Seen.
pub fn exchanges_are_steps()
    ensures entry { TryIsPlaceOrSeen }
    ensures link { HangIsLinkOrSeen }
{}

/// A fetch and add of the counter is a Node, and a store in an own node is a Fill.
pub fn writes_are_steps()
    ensures counter { DrawIsNode }
    ensures node { StoreIsFill }
{}

/// A split and a join, which write no word, keep the rule of touching, and it holds of a share that is made. The
/// load of word 0 by which a seat that took another one in learns the bounds of its part is no step.
pub fn parts_keep_the_rule()
    ensures start { StartKeepsRule }
    ensures split { SplitKeepsRule }
    ensures join { JoinKeepsRule }
    ensures weigh { WeighIsNone }
{}
