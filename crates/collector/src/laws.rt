//! What the judgement of blocks promises, as a theorem.

ghost use Rattle.collector.specs.Laws.{EmptyBySummary};

/// A block is empty where the least size in its summary is at least the bound. The body is empty: the clause is the
/// theorem.
pub fn empty_by_summary()
    ensures { EmptyBySummary }
{}
