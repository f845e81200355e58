ghost use Rattle.std.specs.Prelude.{◌≡◌, ◌+◌, ◌<◌, ◌≤◌, [], ◌∷◌, ◌++◌, length, MatchOption, true, false};

use std::marker::Model;

/// The unlinked nodes of a seat, the last one on top.
#[derive(Drop)]
pub struct Spares {
    numbers: [u32; 64],
    count: usize,
}

impl Model for Spares {
    ghost use Rattle.std.specs.Prelude.{ℕ, List, ◌≤◌};
    ghost use Rattle.hash_share.specs.Spares.{stack_of};

    ghost Value = { List ℕ };

    ghost view = { λ s. stack_of s.numbers s.count };

    ghost invariant = { λ s. s.count ≤ 64 };
}

impl Spares {
    ghost use Rattle.hash_share.specs.Spares.{rest_of};
    ghost use Rattle.fusion_core.specs.TouchCounts.{times};

    /// No node.
    #[tactic(auto, using(crate::proofs::Stacks::stack_none))]
    pub fn none() -> Spares
        ensures { result ≡ [] }
    {
        Spares {
            numbers: [0; 64],
            count: 0,
        }
    }

    /// The top one.
    #[tactic(auto, using(crate::proofs::Stacks::stack_none, crate::proofs::Stacks::stack_top, crate::proofs::Stacks::stack_rest))]
    pub fn top(&self) -> Option<u32>
        ensures { MatchOption result (self.now ≡ []) (λ n. self.now ≡ n ∷ rest_of self.now) }
    {
        if self.count == 0 {
            return None;
        }
        Some(self.numbers[self.count - 1])
    }

    /// One more on top.
    #[tactic(auto, using(crate::proofs::Stacks::stack_push, crate::proofs::Stacks::stack_length))]
    pub fn push(&mut self, node: u32)
        requires { length self.old < 64 }
        ensures { self.new ≡ node ∷ self.old }
    {
        self.numbers[self.count] = node;
        self.count += 1;
    }

    /// The top one goes.
    #[tactic(auto, using(crate::proofs::Stacks::stack_rest, crate::proofs::Stacks::stack_length))]
    pub fn pop(&mut self)
        requires { 0 < length self.old }
        ensures { self.new ≡ rest_of self.old }
    {
        self.count -= 1;
    }

    /// The others come on top.
    #[tactic(auto, using(crate::proofs::Stacks::stack_none, crate::proofs::Stacks::stack_suc, crate::proofs::Stacks::stack_length))]
    pub fn take(&mut self, others: Spares)
        requires { length others + length self.old ≤ 64 }
        ensures { self.new ≡ others ++ self.old }
    {
        for i in 0..others.count {
            self.push(others.numbers[i]);
        }
    }

    /// One of them is this node.
    #[tactic(auto, using(crate::proofs::Stacks::stack_none, crate::proofs::Stacks::stack_suc, crate::proofs::Stacks::stack_has, crate::proofs::Stacks::stack_misses))]
    pub fn has(&self, node: usize) -> bool
        ensures yes { result ≡ true → 0 < times node self.now }
        ensures no { result ≡ false → times node self.now ≡ 0 }
    {
        for i in 0..self.count {
            if self.numbers[i] as usize == node {
                return true;
            }
        }
        false
    }
}
