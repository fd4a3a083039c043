// The day record and its limits: test 7.
ghost use Rattle.std.specs.Prelude.{◌≡◌};
ghost use Rattle.std.specs.Int.Signed.{le_z};
ghost use Rattle.paper.specs.Limits.{withinℤ, least_temperature, most_temperature};
ghost use Rattle.paper.specs.State.{day_fits};
ghost use Rattle.records.specs.Days.{tenths, day_as};

use crate::grids::Season;
use crate::quantities::{Depth, TenthF};

#[derive(Clone, Copy)]
pub struct DayRecord {
    pub serial: u32,
    pub day_of_year: u32,
    pub gross: Depth,
    pub minimum: TenthF,
    pub mean: TenthF,
    pub maximum: TenthF,
    pub potential: Depth,
}

fn measured(t: TenthF) -> bool
    ensures { result ≡ withinℤ least_temperature most_temperature (tenths t) }
{
    (TenthF::LEAST.0 <= t.0) & (t.0 <= TenthF::MOST.0)
}

fn not_above(low: TenthF, high: TenthF) -> bool
    ensures { result ≡ le_z (tenths low) (tenths high) }
{
    low.0 <= high.0
}

impl DayRecord {
    pub const MOST_SERIAL: u32 = 9999999;

    #[tactic(auto, unfolding(paper::specs::State::day_fits))]
    pub fn fits(self) -> bool
        ensures { result ≡ day_fits (day_as self) }
    {
        let minimum = self.minimum;
        let mean = self.mean;
        let maximum = self.maximum;
        (self.serial <= DayRecord::MOST_SERIAL)
            & ((1 <= self.day_of_year) & (self.day_of_year <= Season::LAST_DAY_OF_YEAR))
            & (self.gross.0 <= Depth::MOST_GROSS.0)
            & measured(minimum)
            & measured(mean)
            & measured(maximum)
            & not_above(minimum, mean)
            & not_above(mean, maximum)
            & (self.potential.0 <= Depth::MOST_POTENTIAL.0)
    }
}
