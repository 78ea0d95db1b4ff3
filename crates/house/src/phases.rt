// The phases of a house's day, and the bells between them.

/// The house's day: listing, then trading, then closed.
#[derive(Clone, Copy, PartialEq, Eq, Debug)]
pub enum Phase {
    /// Series are listed; at first.
    Listing,
    /// Entries are taken.
    Trading,
    /// Prices of both editions may be asked for.
    Closed,
}

/// What moves a house on to its next phase.
#[derive(Clone, Copy, PartialEq, Eq, Debug)]
pub enum Bell {
    /// From listing to trading.
    Open,
    /// From trading to closed.
    Close,
}
