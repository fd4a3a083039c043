// What C hands over by value, number by number under its name.
ghost use Rattle.std.specs.Prelude.{◌≡◌, ◌<◌};
ghost use Rattle.records.specs.Grids.{grid_as, climate_as, setup_of};
ghost use Rattle.records.specs.Days.{day_as};
ghost use Rattle.clib.specs.Given.{grid_from, climate_from, setup_from, day_from};
ghost use Rattle.clib.specs.Narrow.{narrow};

use crate::numbers::{depth, index};
use records::{Climate, DayRecord, Grid, Season, Setpoints, Setup, TenthF};

// The grid's size and the climate.
#[repr(C)]
#[derive(Clone, Copy)]
pub struct Site {
    pub width: u32,
    pub height: u32,
    pub first_growing: u32,
    pub last_growing: u32,
    pub first_setpoint: u32,
    pub second_setpoint: u32,
}

#[repr(C)]
#[derive(Clone, Copy)]
pub struct DayNumbers {
    pub serial: u32,
    pub day_of_year: u32,
    pub gross: u32,
    pub minimum: i32,
    pub mean: i32,
    pub maximum: i32,
    pub potential: u32,
}

fn grid_of(site: Site) -> Grid
    ensures { grid_as result ≡ grid_from site }
{
    Grid {
        width: site.width,
        height: site.height,
    }
}

fn climate_of(site: Site) -> Climate
    ensures { climate_as result ≡ climate_from site }
{
    let season = Season {
        first: site.first_growing,
        last: site.last_growing,
    };
    let setpoints = Setpoints {
        first: index(site.first_setpoint),
        second: index(site.second_setpoint),
    };
    Climate { season, setpoints }
}

// What C lends, as the library takes it.
pub fn setup_given<'a>(
    site: Site,
    covers: &'a [u32],
    direction: &'a [u32],
    cover: &'a [u32],
    group: &'a [u32],
    available: &'a [u32],
) -> Setup<'a>
    ensures { setup_of result ≡ setup_from site covers.now direction.now cover.now group.now available.now }
{
    Setup {
        grid: grid_of(site),
        climate: climate_of(site),
        covers,
        direction,
        cover,
        group,
        available,
    }
}

pub(crate) fn record_of(day: DayNumbers) -> DayRecord
    ensures { (day_as result ≡ day_from day) × (result.gross.0 < narrow) }
{
    DayRecord {
        serial: day.serial,
        day_of_year: day.day_of_year,
        gross: depth(day.gross),
        minimum: TenthF(day.minimum),
        mean: TenthF(day.mean),
        maximum: TenthF(day.maximum),
        potential: depth(day.potential),
    }
}
