// The months of all years together, by the day of the year, and what is seen in their means.
use crate::daily::{Day, Period};
use crate::figure::nearest;
use std::fmt;
use std::fmt::{Display, Formatter};

const MONTHS: usize = 12;

// A month's mean is only looked at where it has so many days.
const MONTH_LEAST_DAYS: u64 = 20;

#[derive(Clone, Copy, PartialEq, Eq)]
pub(crate) enum Month {
    January,
    February,
    March,
    April,
    May,
    June,
    July,
    August,
    September,
    October,
    November,
    December,
}

// Each month and its last day, in a year of 365 days; day 366 counts as December's.
pub(crate) const YEAR: [(Month, u64); MONTHS] = [
    (Month::January, 31),
    (Month::February, 59),
    (Month::March, 90),
    (Month::April, 120),
    (Month::May, 151),
    (Month::June, 181),
    (Month::July, 212),
    (Month::August, 243),
    (Month::September, 273),
    (Month::October, 304),
    (Month::November, 334),
    (Month::December, 365),
];

impl Month {
    fn of(day_of_year: u64) -> Month {
        for (month, last) in YEAR {
            if day_of_year <= last {
                return month;
            }
        }
        Month::December
    }

    fn name(self) -> &'static str {
        match self {
            Month::January => "January",
            Month::February => "February",
            Month::March => "March",
            Month::April => "April",
            Month::May => "May",
            Month::June => "June",
            Month::July => "July",
            Month::August => "August",
            Month::September => "September",
            Month::October => "October",
            Month::November => "November",
            Month::December => "December",
        }
    }
}

impl Display for Month {
    fn fmt<W: fmt::Write>(&self, f: &mut Formatter<W>) -> fmt::Result {
        f.pad(self.name())
    }
}

// How a month's mean is against that of the third month before.
#[derive(Clone, Copy, PartialEq, Eq)]
pub(crate) enum Trend {
    Warmer,
    Colder,
}

impl Display for Trend {
    fn fmt<W: fmt::Write>(&self, f: &mut Formatter<W>) -> fmt::Result {
        match self {
            Trend::Warmer => f.write_str("warmer"),
            Trend::Colder => f.write_str("colder"),
        }
    }
}

// In the northern year each month from April to July is warmer than the third month before it, and each from October to January colder, however odd the year.
const COURSE: [(Month, Trend, Month); 8] = [
    (Month::April, Trend::Warmer, Month::January),
    (Month::May, Trend::Warmer, Month::February),
    (Month::June, Trend::Warmer, Month::March),
    (Month::July, Trend::Warmer, Month::April),
    (Month::October, Trend::Colder, Month::July),
    (Month::November, Trend::Colder, Month::August),
    (Month::December, Trend::Colder, Month::September),
    (Month::January, Trend::Colder, Month::October),
];

// Two months that are against the course of the year, the later one first, and the means of both.
#[derive(Clone, Copy)]
pub(crate) struct Against {
    pub(crate) month: Month,
    pub(crate) mean: u64,
    pub(crate) trend: Trend,
    pub(crate) before: Month,
    pub(crate) mean_before: u64,
}

// How many pairs of months are against the course of the year, and the first of them.
#[derive(Clone, Copy, Default)]
pub(crate) struct Course {
    pub(crate) pairs: u64,
    pub(crate) first: Option<Against>,
}

// What is summed of a month's days; temperatures are lifted.
#[derive(Clone, Copy)]
pub(crate) struct MonthSums {
    pub(crate) days: u64,
    pub(crate) mean_sum: u64,
    pub(crate) lowest: u64,
    pub(crate) highest: u64,
    pub(crate) gross: u64,
    pub(crate) potential: u64,
    pub(crate) snow_days: u64,
}

impl MonthSums {
    // Of no days.
    const NONE: MonthSums = MonthSums {
        days: 0,
        mean_sum: 0,
        lowest: u64::MAX,
        highest: 0,
        gross: 0,
        potential: 0,
        snow_days: 0,
    };

    fn add(&mut self, day: &Day) {
        self.days = self.days.saturating_add(1);
        self.mean_sum = self.mean_sum.saturating_add(day.mean);
        self.lowest = self.lowest.min(day.mean);
        self.highest = self.highest.max(day.mean);
        self.gross = self.gross.saturating_add(day.gross);
        self.potential = self.potential.saturating_add(day.potential);
        self.snow_days = self.snow_days.saturating_add(u64::from(day.snows()));
    }

    // Lifted, as its sum is: halves go up, also below zero.
    pub(crate) fn mean(&self) -> u64 {
        nearest(self.mean_sum, self.days)
    }

    // The mean, where the month has days enough to look at it.
    fn known_mean(&self) -> Option<u64> {
        (MONTH_LEAST_DAYS <= self.days).then(|| self.mean())
    }
}

#[derive(Drop)]
pub(crate) struct Months([MonthSums; MONTHS]);

impl Months {
    pub(crate) fn gather(period: &Period) -> Months {
        let mut months = Months([MonthSums::NONE; MONTHS]);
        for day in period.days() {
            months.0[Month::of(day.day_of_year) as usize].add(&day);
        }
        months
    }

    pub(crate) fn of(&self, month: Month) -> MonthSums {
        self.0[month as usize]
    }

    // The mean of the warmest of June, July and August.
    pub(crate) fn summer(&self) -> Option<u64> {
        [Month::June, Month::July, Month::August]
            .iter()
            .filter_map(|month| self.of(*month).known_mean())
            .max()
    }

    // The mean of the coldest of December, January and February.
    pub(crate) fn winter(&self) -> Option<u64> {
        [Month::December, Month::January, Month::February]
            .iter()
            .filter_map(|month| self.of(*month).known_mean())
            .min()
    }

    fn against(&self, month: Month, trend: Trend, before: Month) -> Option<Against> {
        let mean = self.of(month).known_mean()?;
        let mean_before = self.of(before).known_mean()?;
        let follows = match trend {
            Trend::Warmer => mean_before < mean,
            Trend::Colder => mean < mean_before,
        };
        if follows {
            return None;
        }
        Some(Against {
            month,
            mean,
            trend,
            before,
            mean_before,
        })
    }

    pub(crate) fn course(&self) -> Course {
        let mut course = Course::default();
        for (month, trend, before) in COURSE {
            if let Some(against) = self.against(month, trend, before) {
                course.pairs = course.pairs.saturating_add(1);
                course.first = course.first.or(Some(against));
            }
        }
        course
    }
}
