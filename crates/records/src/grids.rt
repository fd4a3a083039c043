// The grid, the growing season and the setpoints of the frost index, with their limits: tests 1 and 6.
ghost use Rattle.std.specs.Prelude.{◌≡◌};
ghost use Rattle.paper.specs.Setup.{cells_of, grid_fits, season_fits, setpoints_fit, climate_fits, growing};
ghost use Rattle.records.specs.Grids.{grid_as, season_as, setpoints_as, climate_as};

use crate::lent::index_of;
use crate::quantities::FrostIndex;

#[derive(Clone, Copy)]
pub struct Grid {
    pub width: u32,
    pub height: u32,
}

// The first and the last growing day.
#[derive(Clone, Copy)]
pub struct Season {
    pub first: u32,
    pub last: u32,
}

// From the first on condition I counts as II, from the second on every day as III.
#[derive(Clone, Copy)]
pub struct Setpoints {
    pub first: FrostIndex,
    pub second: FrostIndex,
}

// What a setup says of the whole year.
#[derive(Clone, Copy)]
pub struct Climate {
    pub season: Season,
    pub setpoints: Setpoints,
}

pub const MOST_CELLS: usize = 4096;

impl Grid {
    pub fn cells(self) -> usize
        ensures { result ≡ cells_of (grid_as self) }
    {
        let width = self.width;
        let height = self.height;
        index_of(width) * index_of(height)
    }

    #[tactic(auto, unfolding(paper::specs::Setup::grid_fits))]
    pub fn fits(self) -> bool
        ensures { result ≡ grid_fits (grid_as self) }
    {
        (1 <= self.width) & (1 <= self.height) & (self.cells() <= MOST_CELLS)
    }
}

impl Season {
    pub const LAST_DAY_OF_YEAR: u32 = 366;

    #[tactic(auto, unfolding(paper::specs::Setup::season_fits))]
    pub fn fits(self) -> bool
        ensures { result ≡ season_fits (season_as self) }
    {
        ((1 <= self.first) & (self.first <= Season::LAST_DAY_OF_YEAR))
            & ((1 <= self.last) & (self.last <= Season::LAST_DAY_OF_YEAR))
            & (self.first <= self.last)
    }

    // Both ends of the season count.
    #[tactic(auto, unfolding(paper::specs::Setup::growing))]
    pub fn grows(self, day_of_year: u32) -> bool
        ensures { result ≡ growing (season_as self) day_of_year }
    {
        (self.first <= day_of_year) & (day_of_year <= self.last)
    }
}

impl Setpoints {
    #[tactic(auto, unfolding(paper::specs::Setup::setpoints_fit))]
    pub fn fit(self) -> bool
        ensures { result ≡ setpoints_fit (setpoints_as self) }
    {
        let most = FrostIndex::MOST_SETPOINT.0;
        (self.first.0 <= most) & (self.second.0 <= most) & (self.first.0 <= self.second.0)
    }
}

impl Climate {
    #[tactic(auto, unfolding(paper::specs::Setup::climate_fits))]
    pub fn fits(self) -> bool
        ensures { result ≡ climate_fits (climate_as self) }
    {
        let season = self.season;
        let setpoints = self.setpoints;
        season.fits() & setpoints.fit()
    }
}
