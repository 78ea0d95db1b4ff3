// What describes a ladder, unchecked: a tick for an even ladder, bands for a stepped one.
ghost use Rattle.std.specs.Prelude.{◌≡◌, Bool, ℤ, is_none, Option, Decides, unsigned_abs, refl};
ghost use Rattle.ladders.specs.Bands.{in_bands, ladder_fault};
ghost use Rattle.ladders.specs.ByBand.{prices_by_band};
ghost use Rattle.ladders.specs.Descriptions.{tick_decided, bands_decided};
ghost use Rattle.ladders.specs.Faults.{TakenUnless, tick_fault};
ghost use Rattle.ladders.specs.Lawful.{LawfulTick, LawfulBands};
ghost use Rattle.ladders.specs.LawfulPrices.{PricesByTick, PricesByBand};
ghost use Rattle.ladders.specs.Multiples.{multiple};
ghost use Rattle.ladders.specs.declared.faults.LadderFault.{LadderFault as Fault};

use crate::bands::Band;
use crate::faults::LadderFault;
use crate::rungs::Ladder;
use crate::stepping::SteppedLadder;
use crate::ticks::Tick;

/// What describes a ladder: a tick, or bands.
// No TryFrom, whose impls have no place for what a description means.
pub trait Describes<L: Ladder> {
    // What is wrong with the description, if anything.
    ghost fault: { Self → Option Fault };

    // That it is lawful: of ticks and of bands in the words of the rules.
    ghost keeps_rules: { Self → Type 0 };

    // The lawful prices that are described.
    ghost prices: { Self → ℤ → Bool };

    // That these are the lawful prices described, likewise.
    ghost lawful_prices: { Self → (ℤ → Bool) → Type 0 };

    /// The ladder with these lawful prices; the error is the first fault of the description.
    fn checked(&self) -> Result<L, LadderFault>
        ensures { TakenUnless (fault self.now) (λ l. (v : ℤ) → L.Ladder.holds l v ≡ prices self.now v) result };

    // Nothing is wrong exactly if it is lawful.
    ghost decided: { (d : Self) → Decides (is_none (fault d)) (keeps_rules d) };

    // Where the description is lawful, the prices are those.
    ghost told: { (d : Self) → keeps_rules d → lawful_prices d (prices d) };
}

impl Describes<Tick> for i64 {
    ghost fault = { tick_fault };

    ghost keeps_rules = { LawfulTick };

    ghost prices = { λ k. multiple (unsigned_abs k) };

    ghost lawful_prices = { PricesByTick };

    ghost decided = { tick_decided };

    ghost told = { λ k h v. refl };

    fn checked(&self) -> Result<Tick, LadderFault> {
        Tick::new(*self)
    }
}

impl Describes<SteppedLadder> for &[Band] {
    ghost fault = { λ bands. ladder_fault bands.now };

    ghost keeps_rules = { λ bands. LawfulBands bands.now };

    ghost prices = { λ bands. in_bands bands.now };

    ghost lawful_prices = { λ bands. PricesByBand bands.now };

    ghost decided = { λ bands. bands_decided bands.now };

    ghost told = { λ bands h. prices_by_band bands.now h };

    fn checked(&self) -> Result<SteppedLadder, LadderFault> {
        SteppedLadder::new(self)
    }
}
