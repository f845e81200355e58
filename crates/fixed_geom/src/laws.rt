ghost use Rattle.fixed_geom.specs.Laws.{ProductFloor, SignedProductFloor, WorldBound};

/// The world point of a camera point within 17 metres on each axis is within 151.006226 metres of
/// the origin on each axis. The body is empty: the clause is the theorem.
pub fn world_bound()
    ensures { WorldBound }
{}

/// The product of `n` and a number a little above `a / f` has the floor of `a n / f`.
pub fn product_floor()
    ensures { ProductFloor }
{}

/// So it has where the numbers may be below 0.
pub fn signed_product_floor()
    ensures { SignedProductFloor }
{}
