// The price limit.
ghost use Rattle.std.specs.Prelude.{◌≡◌};
ghost use Rattle.ladders.specs.Prices.{within};

/// A price lies from -LIMIT to LIMIT points; a point is one thousandth. It stands in `book` too, as PRICE_LIMIT: neither
/// crate knows the other.
pub const LIMIT: i64 = 1_000_000_000;

/// Whether v points lie within the price limit.
pub fn is_within(v: i64) -> bool
    ensures { result ≡ within v }
{
    (-LIMIT..=LIMIT).contains(&v)
}
