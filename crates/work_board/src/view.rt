ghost use Rattle.std.specs.Prelude.{ℕ, List, Option};
ghost use Rattle.std.specs.Borrow.{ftrue};
ghost use Rattle.fusion_core.specs.declared.board.hand.Hand.{Hand};
ghost use Rattle.fusion_core.specs.Jobs.{Start};

use std::marker::Model;

/// What a seat knows. No value of it is made.
pub struct View {
    /// The board as it was made.
    pub ghost start: { Start },
    /// How many of the board's seats it stands for.
    pub ghost part: { ℕ },
    /// The job that it has in hand, and the free cell that it drew for it.
    pub ghost hand: { Hand },
    /// The jobs that it did, in order.
    pub ghost did: { List ℕ },
    /// The last claim number past the jobs that it drew, or that a seat drew which it took in or was split from.
    pub ghost mark: { Option ℕ },
    /// How many claim numbers past the jobs it drew. The rule says nothing of this.
    pub ghost ends: { ℕ },
}

impl Model for View {
    ghost also_owns = { λ _. ftrue };
}
