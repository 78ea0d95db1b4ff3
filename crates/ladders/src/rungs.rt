// One ladder: which whole numbers are lawful prices, without end on either side.
ghost use Rattle.std.specs.Prelude.{Bool, ℤ};
ghost use Rattle.ladders.specs.Prices.{within};
ghost use Rattle.ladders.specs.Rounding.{AnswersWhere, Above, Below, Near};

/// A ladder, known by its lawful prices.
pub trait Ladder: Copy {
    // The ladder's meaning: its lawful prices.
    ghost holds: { Self → ℤ → Bool };

    /// The least lawful price not under v, in points, for v within the price limit; nothing for any other.
    fn above(&self, v: i64) -> Option<i64>
        ensures { AnswersWhere (within v) (Above (holds self.now) v) result };

    /// The greatest lawful price not over v, in points, for v within the price limit; nothing for any other.
    fn below(&self, v: i64) -> Option<i64>
        ensures { AnswersWhere (within v) (Below (holds self.now) v) result };

    // Neighbouring lawful prices are at most 1,000,000 points apart.
    ghost dense: { (l : Self) (z : ℤ) → Near (holds l) z };
}
