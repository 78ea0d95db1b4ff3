// The day record, as it is described.

/// A day record. Stamps count seconds from the midnight that begins the evening session's date.
#[derive(Clone, Copy, PartialEq, Eq, Debug)]
pub struct Day {
    /// The opening of the night session.
    pub night: i64,
    /// The opening of the day session.
    pub opening: i64,
    /// The opening of the afternoon session.
    pub afternoon: i64,
    /// The close of the day session.
    pub close: i64,
    /// The morning cut.
    pub cut: i64,
}
