// Rule 3: snow or rain, and melt.
ghost use Rattle.std.specs.Prelude.{◌≡◌};
ghost use Rattle.paper.specs.Snow.{falls_as_snow, meltable as rule3, melt as melt_of};
ghost use Rattle.records.specs.Days.{tenths};
ghost use Rattle.weather.specs.Today.{Measured};

use records::{Depth, TenthF};

// Three times the mean less the span of the day's temperatures, held to three times the freezing point.
pub(crate) fn falls_as_snow(minimum: TenthF, mean: TenthF, maximum: TenthF) -> bool
    requires { Measured minimum × Measured mean × Measured maximum }
    ensures { result ≡ falls_as_snow (tenths minimum) (tenths mean) (tenths maximum) }
{
    let freezing = TenthF::FREEZING.0;
    let span = maximum.0 - minimum.0;
    3 * mean.0 - span <= 3 * freezing
}

// What the day's warmth can melt of any store.
pub(crate) fn meltable(maximum: TenthF) -> Depth
    ensures { result.0 ≡ rule3 (tenths maximum) }
{
    let above = maximum.above_freezing();
    Depth(Depth::MELT.0 * above / Depth::MELT_TENTHS)
}

pub fn melt(store: Depth, most: Depth) -> Depth
    ensures { result.0 ≡ melt_of store.0 most.0 }
{
    store.smaller(most)
}
