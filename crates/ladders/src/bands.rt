// The bands of a stepped ladder. Three types, since what is known differs: a Band is as described, a LaterBand as the ladder
// keeps it, and stepping's Before as the next band looks at it.
use crate::ticks::Tick;

/// A band as it is described, unchecked. The first band has no start: it reaches down without end.
#[derive(Clone, Copy)]
pub struct Band {
    /// Where the band begins, in points.
    pub start: Option<i64>,
    /// In points.
    pub tick: i64,
}

/// A later band: its prices begin at its start.
#[derive(Clone, Copy)]
pub struct LaterBand {
    /// Where the band begins, in points.
    pub start: i64,
    /// The multiples of which are lawful in the band.
    pub tick: Tick,
}
