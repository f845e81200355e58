ghost use Rattle.std.specs.Prelude.{ℕ, List};
ghost use Rattle.std.specs.Borrow.{ftrue};
ghost use Rattle.spatial_hash.specs.Table.{Table};
ghost use Rattle.hash_share.specs.CodedTable.{coded_table};

use std::marker::Model;

/// What a seat knows. No value of it is made.
pub struct View {
    /// The shared table.
    pub ghost start: { Table } by { coded_table },
    /// How many of the share's seats it stands for.
    pub ghost part: { ℕ },
    /// Each word as the seat has seen it, 0 where it has not.
    pub ghost seen: { List ℕ },
    /// The words of the touched keys, each with its entry.
    pub ghost touched: { List (ℕ × ℕ) },
    /// The words of the keys that it placed.
    pub ghost placed: { List ℕ },
    /// Its unlinked nodes, the last one first, each with the word stored in it.
    pub ghost nodes: { List (ℕ × ℕ) },
    /// One more than the last number that it drew past the nodes, or 0; after a join it may be the other seat's.
    pub ghost mark: { ℕ },
    /// How many numbers past the nodes it drew. The rule says nothing of this.
    pub ghost ends: { ℕ },
    /// The key words other than 0 that its steps found, each behind its entry, the last one first. The rule says
    /// nothing of this either.
    pub ghost looks: { List (ℕ × ℕ) },
}

impl Model for View {
    ghost also_owns = { λ _. ftrue };
}
