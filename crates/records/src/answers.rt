// What the calls hand back.
ghost use Rattle.std.specs.Prelude.{◌≡◌};
ghost use Rattle.paper.specs.Day.{no_totals};
ghost use Rattle.records.specs.Answers.{totals_as};

use crate::quantities::Depth;

// Sums over the cells; of what is gone and rejected, only where water leaves: over the edge and from open water, and in closed depressions.
#[derive(Clone, Copy)]
pub struct Totals {
    pub gross: Depth,
    pub intercepted: Depth,
    pub evapotranspired: Depth,
    pub recharged: Depth,
    pub rejected: Depth,
    pub gone: Depth,
    pub stored: Depth,
}

impl Totals {
    pub fn none() -> Totals
        ensures { totals_as result ≡ no_totals }
    {
        Totals {
            gross: Depth(0),
            intercepted: Depth(0),
            evapotranspired: Depth(0),
            recharged: Depth(0),
            rejected: Depth(0),
            gone: Depth(0),
            stored: Depth(0),
        }
    }
}
