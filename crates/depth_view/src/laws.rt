ghost use Rattle.depth_view.specs.Laws.{ListedDepths};

/// The item of a frame's depths at the index of a pixel is the depth that the pixel shows, or -2^30 where it shows none.
/// The body is empty: the clause is the theorem.
pub fn listed_depths()
    ensures { ListedDepths }
{}
