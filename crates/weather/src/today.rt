// What the rules read of the day: alike for every cell, and worked out once.
ghost use Rattle.std.specs.Prelude.{true, ◌≡◌};
ghost use Rattle.paper.specs.State.{memory_fits, day_fits};
ghost use Rattle.paper.specs.CellDay.{today as paperDay};
ghost use Rattle.records.specs.Grids.{climate_as};
ghost use Rattle.records.specs.Past.{memory_as, past_as};
ghost use Rattle.records.specs.Days.{day_as};
ghost use Rattle.weather.specs.Today.{today_as, no_weather, weather_of};

use crate::conditions::{Condition, condition_of, counted_as};
use crate::snow::{falls_as_snow, meltable as melts};
use records::{Climate, DayRecord, Depth, Past, frost_after};

#[derive(Clone, Copy)]
pub struct Today {
    pub gross: Depth,
    pub potential: Depth,
    pub growing: bool,
    // The day's net precipitation falls as snow.
    pub snows: bool,
    // What a store can lose to melt.
    pub meltable: Depth,
    pub condition: Condition,
}

// Of a day and a memory within their limits.
fn weather_of(climate: Climate, past: Past, day: DayRecord) -> Today
    requires { (day_fits (day_as day) ≡ true) × (memory_fits (memory_as past.memory) ≡ true) }
    ensures { today_as result ≡ paperDay (climate_as climate) (past_as past) (day_as day) }
{
    let gross = day.gross;
    let potential = day.potential;
    let mean = day.mean;
    let maximum = day.maximum;
    let memory = past.memory;
    let season = climate.season;
    let growing = season.grows(day.day_of_year);
    let snows = falls_as_snow(day.minimum, mean, maximum);
    let meltable = melts(maximum);
    let frost = frost_after(past.frost, mean);
    let condition = counted_as(climate.setpoints, frost, condition_of(growing, memory));
    Today {
        gross,
        potential,
        growing,
        snows,
        meltable,
        condition,
    }
}

fn no_weather() -> Today
    ensures { today_as result ≡ no_weather }
{
    Today {
        gross: Depth(0),
        potential: Depth(0),
        growing: false,
        snows: false,
        meltable: Depth(0),
        condition: Condition::II,
    }
}

pub fn today_of(climate: Climate, past: Past, day: DayRecord) -> Today
    ensures { today_as result ≡ weather_of (climate_as climate) (past_as past) (day_as day) }
{
    let memory = past.memory;
    if !day.fits() {
        return no_weather();
    }
    if !memory.fits() {
        return no_weather();
    }
    weather_of(climate, past, day)
}
