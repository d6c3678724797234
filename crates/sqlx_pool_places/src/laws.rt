//! What the edge says of the order, each a function whose contract is the law.
ghost use Rattle.sqlx_pool_places.specs.Laws.{EdgeTellsTheOrder, LeavesWithAPermit, OneMoveAPermit};

/// Where as many are entitled as the lesser of the waiting tickets and the free permits, a waiting
/// ticket is below the edge exactly where fewer waiting tickets precede it than permits are free.
pub fn edge_tells_the_order()
    ensures { EdgeTellsTheOrder }
{}

/// A permit that becomes free moves the edge once, where somebody isn't entitled.
pub fn one_move_a_permit()
    ensures { OneMoveAPermit }
{}

/// Who leaves the line takes a permit along, and then the others are served as before.
pub fn leaves_with_a_permit()
    ensures { LeavesWithAPermit }
{}
