// The weather of a folder, and the library's run over it.
ghost use Rattle.std.specs.Prelude.{◌≤◌};

use crate::folder::{Folder, Source};
use crate::ground::read_front;
use crate::refusals::{DAY_NUMBERS, bad_weather_word, cut_off, refusal_of};
use crate::setup::Site;
use crate::wrong::{What, Wrong};
use season::{WeatherError, read_days};
use std::rt::Files;

// What a run is worked out in.
#[derive(Drop)]
pub(crate) struct Lent<'a> {
    pub(crate) days: &'a mut [i32],
    pub(crate) totals: &'a mut [u64],
    pub(crate) sums: &'a mut [u64],
    pub(crate) soil: &'a mut [u32],
    pub(crate) snow: &'a mut [u32],
}

const LONGEST_WEATHER: usize = 524288;

// Of each cell.
const SUMS: usize = 5;

// How many days the weather has, if its numbers are whole days.
fn days_in<'a>(folder: Folder<'a>, weather: &[u8], days: &mut [i32]) -> Result<usize, Wrong<'a>> {
    match read_days(weather, days) {
        Ok(count) => Ok(count),
        Err(WeatherError::BadWord(place)) => Err(bad_weather_word(folder, weather, place)),
        Err(WeatherError::CutOff(count)) => Err(cut_off(folder, weather, count)),
        Err(WeatherError::TooMany(_)) => Err(Wrong::At(
            folder.source(Source::Weather),
            What::TooManyDays,
        )),
    }
}

// How many numbers so many have, as many each, as far as there is room.
fn numbers_of(count: usize, each: usize, room: usize) -> usize
    ensures { result ≤ room }
{
    count.saturating_mul(each).min(room)
}

// The days' numbers, and their totals, are as many.
pub(crate) fn day_numbers(days: usize, room: usize) -> usize
    ensures { result ≤ room }
{
    numbers_of(days, DAY_NUMBERS, room)
}

// Reads the weather to a lent room, and runs over it: how many days it has, all of them accepted.
pub(crate) fn run_weather<'a>(
    rt: &impl Files,
    folder: Folder<'a>,
    site: &Site<'_>,
    lent: Lent<'_>,
    room: &mut [u8],
) -> Result<usize, Wrong<'a>> {
    let Lent {
        days,
        totals,
        sums,
        soil,
        snow,
    } = lent;
    let place = folder.source(Source::Weather);
    let (weather, _) = read_front(rt, place, LONGEST_WEATHER, room)?;
    let count = days_in(folder, weather, days)?;
    let numbers = day_numbers(count, days.len());
    let held = day_numbers(count, totals.len());
    let summed = numbers_of(site.cells(), SUMS, sums.len());
    let run = site.run(
        &days[..numbers],
        soil,
        snow,
        &mut sums[..summed],
        &mut totals[..held],
    );
    match run.verdict {
        Ok(()) => Ok(count),
        Err(why) => Err(refusal_of(folder, site, weather, run.days, why)),
    }
}
