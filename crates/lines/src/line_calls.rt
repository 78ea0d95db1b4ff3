// Calls as lines write them.
use book::days::Day;
use calls::call::Call;

/// What a line says.
#[derive(Clone, Copy, PartialEq, Eq, Debug)]
pub enum LineCall {
    /// A new day begins.
    Day {
        /// The times of the day, in seconds from the midnight that begins the evening session's date.
        day: Day,
        /// The ticks of the four even ladders, in points.
        ticks: [i64; 4],
    },
    /// A call of the house.
    Call(Call),
}
