// Frozen ground: what a day does to the frost index, by its mean temperature.
ghost use Rattle.std.specs.Prelude.{◌≡◌, ◌-◌};
ghost use Rattle.paper.specs.Frost.{frost_after};
ghost use Rattle.records.specs.Days.{tenths};

use crate::quantities::{FrostIndex, TenthF};

// A thaw can take more than is there.
fn left_of(kept: u64, lost: u64) -> u64
    ensures { result ≡ kept - lost }
{
    if kept <= lost { 0 } else { kept - lost }
}

// Answers every index and every mean. Whole hundreds of the index are taken apart from the rest, so that no product passes 64 bits; a floor below zero, taken
// away, is a quotient rounded up that is added.
pub fn frost_after(index: FrostIndex, mean: TenthF) -> FrostIndex
    ensures { result.0 ≡ frost_after index.0 (tenths mean) }
{
    let hundreds = index.0 / FrostIndex::KEPT_OF;
    let rest = index.0 % FrostIndex::KEPT_OF;
    let kept = FrostIndex::KEPT * hundreds + FrostIndex::KEPT * rest / FrostIndex::KEPT_OF;
    let lost = FrostIndex::DEGREE_DAY.0 * mean.above_freezing() / FrostIndex::DEGREE_TENTHS;
    let cold = FrostIndex::DEGREE_DAY.0 * mean.below_freezing();
    let gained = (cold + FrostIndex::DEGREE_TENTHS - 1) / FrostIndex::DEGREE_TENTHS;
    FrostIndex(left_of(kept, lost) + gained)
}
