// The days as they are handed over, seven numbers each, with each one's totals, and what is gathered of all of them for a look at the input.
ghost use Rattle.std.specs.Iterator.{at_most};
ghost use Rattle.std.specs.Prelude.{length};

use crate::totals::{Part, TOTALS};
use records::TenthF;
use std::iter::{Skip, Zip};

// Serial, day of the year, gross precipitation, minimum, mean and maximum temperature, potential evapotranspiration.
const DAY_NUMBERS: usize = 7;

// A leap year's last day but one, which ends any other year.
const YEAR_DAYS: u64 = 365;

// Rule 3 of document 01: it snows where 3 x mean - (maximum - minimum) is at most 960. Of lifted temperatures, which are 1,000 tenths more each, that is 3 x mean +
// minimum at most 3,960 + maximum. Snow melts where the maximum is above freezing.
const SNOW_RULE: u64 = 3960;

const FREEZING: u64 = 1320;

// So far below freezing is the lowest temperature that document 01 allows, -100 F.
const LOWEST_BELOW_FREEZING: u64 = 1320;

// July and August.
const SUMMER_FROM: u64 = 182;

const SUMMER_TO: u64 = 243;

// A day's numbers, its temperatures lifted.
#[derive(Clone, Copy)]
pub(crate) struct Day {
    pub(crate) serial: u64,
    pub(crate) day_of_year: u64,
    pub(crate) gross: u64,
    pub(crate) minimum: u64,
    pub(crate) mean: u64,
    pub(crate) maximum: u64,
    pub(crate) potential: u64,
}

// A whole number that is not below zero; 0 for one that is.
fn whole(n: i32) -> u64 {
    u64::try_from(n).unwrap_or(0)
}

// A temperature in tenths above -100 F, so that none is below zero.
fn lifted(tenths: i32) -> u64 {
    let temperature = TenthF(tenths);
    let below = LOWEST_BELOW_FREEZING.saturating_sub(temperature.below_freezing());
    below.saturating_add(temperature.above_freezing())
}

impl Day {
    fn of(numbers: [i32; DAY_NUMBERS]) -> Day {
        let [
            serial,
            day_of_year,
            gross,
            minimum,
            mean,
            maximum,
            potential,
        ] = numbers;
        Day {
            serial: whole(serial),
            day_of_year: whole(day_of_year),
            gross: whole(gross),
            minimum: lifted(minimum),
            mean: lifted(mean),
            maximum: lifted(maximum),
            potential: whole(potential),
        }
    }

    // Does something fall, and as snow?
    pub(crate) fn snows(&self) -> bool {
        let cold = self.mean.saturating_mul(3).saturating_add(self.minimum);
        0 < self.gross && cold <= self.maximum.saturating_add(SNOW_RULE)
    }

    fn is_summer(&self) -> bool {
        SUMMER_FROM <= self.day_of_year && self.day_of_year <= SUMMER_TO
    }

    fn follows(&self, before: &Day) -> bool {
        let is_new_year = self.day_of_year == 1 && YEAR_DAYS <= before.day_of_year;
        self.day_of_year == before.day_of_year.saturating_add(1) || is_new_year
    }

    // A year begins where the day of year is not above the day before's.
    fn begins_year(&self, before: &Day) -> bool {
        self.day_of_year <= before.day_of_year
    }
}

// Depths in units on one cell.
#[derive(Clone, Copy)]
pub(crate) struct Gathered {
    pub(crate) days: u64,
    pub(crate) gross: u64,
    pub(crate) potential: u64,
    pub(crate) wettest: u64,
    pub(crate) wet_days: u64,
    pub(crate) snow_days: u64,
    pub(crate) summer_snow_days: u64,
    pub(crate) thaw_days: u64,
    // Days whose day of year does not follow, and the serial of the first.
    pub(crate) breaks: u64,
    pub(crate) first_break: Option<u64>,
}

// Days, one after another, as they are handed over.
#[derive(Drop)]
pub(crate) struct Days<'a>(&'a [i32]);

impl Iterator for Days<'_> {
    type Item = Day;

    ghost remaining = { λ s. at_most (length s.0.now) };

    fn next(&mut self) -> Option<Day> {
        let (day, rest) = self.0.split_first_chunk::<DAY_NUMBERS>()?;
        self.0 = rest;
        Some(Day::of(*day))
    }
}

// Some days and the totals of each.
#[derive(Clone, Copy)]
pub(crate) struct Period<'a> {
    pub(crate) days: &'a [i32],
    pub(crate) totals: &'a [u64],
}

// Numbers, so many of each day, up to a day and from it on.
fn parted<T>(numbers: &[T], of_a_day: usize, day: usize) -> (&[T], &[T]) {
    let place = day.saturating_mul(of_a_day).min(numbers.len());
    numbers.split_at(place)
}

impl<'a> Period<'a> {
    pub(crate) fn days(&self) -> Days<'a> {
        Days(self.days)
    }

    pub(crate) fn count(&self) -> usize {
        self.days.len() / DAY_NUMBERS
    }

    // Each day but the last, with the day after it.
    fn pairs(&self) -> Zip<Days<'a>, Skip<Days<'a>>> {
        self.days().zip(self.days().skip(1))
    }

    fn count_days<F: Fn(&Day) -> bool>(&self, is_counted: F) -> u64
        requires { F.IsAlwaysCallable is_counted }
    {
        self.days().filter(|day| is_counted(day)).count() as u64
    }

    fn sum_days<F: Fn(&Day) -> u64>(&self, depth: F) -> u64
        requires { F.IsAlwaysCallable depth }
    {
        self.days()
            .fold(0, |sum: u64, day| sum.saturating_add(depth(&day)))
    }

    pub(crate) fn gather(&self) -> Gathered {
        let breaks = self.pairs().filter(|(before, day)| !day.follows(before));
        let first_break = self.pairs().find(|(before, day)| !day.follows(before));
        Gathered {
            days: self.count() as u64,
            gross: self.sum_days(|day| day.gross),
            potential: self.sum_days(|day| day.potential),
            wettest: self.days().map(|day| day.gross).max().unwrap_or(0),
            wet_days: self.count_days(|day| 0 < day.gross),
            snow_days: self.count_days(|day| day.snows()),
            summer_snow_days: self.count_days(|day| day.snows() && day.is_summer()),
            thaw_days: self.count_days(|day| FREEZING < day.maximum),
            breaks: breaks.count() as u64,
            first_break: first_break.map(|(_, day)| day.serial),
        }
    }

    // How many years begin in it.
    pub(crate) fn years(&self) -> usize {
        let begun = self
            .pairs()
            .filter(|(before, day)| day.begins_year(before))
            .count();
        begun.saturating_add(self.count().min(1))
    }

    // Its first year and the days after that, where it has days.
    pub(crate) fn split_year(&self) -> Option<(Period<'a>, Period<'a>)> {
        let next = self
            .pairs()
            .position(|(before, day)| day.begins_year(&before));
        let length = next.map_or(self.count(), |day| day.saturating_add(1));
        if length == 0 {
            return None;
        }
        let (days, later_days) = parted(self.days, DAY_NUMBERS, length);
        let (totals, later_totals) = parted(self.totals, TOTALS, length);
        let year = Period { days, totals };
        let rest = Period {
            days: later_days,
            totals: later_totals,
        };
        Some((year, rest))
    }

    // The sums of its totals; `stored` is what is stored before them.
    pub(crate) fn sum(&self, stored: u64) -> Part {
        let mut part = Part {
            stored,
            ..Part::default()
        };
        for (day, totals) in self.days().zip(self.totals.chunks_exact(TOTALS)) {
            part.add(totals, day.gross);
        }
        part
    }
}
