// The warnings. Document 01 allows many mistakes, which then give wrong figures in silence; where a figure of the input is far from what the sources' climates
// know, that is said. A warning changes nothing and refuses nothing.
//
// The thresholds are generous: a real year in the northern or central United States gives no warning. Each says which document, and which figure of it, it is
// taken from; "document 000" and so on are the office's sources.
use crate::daily::Gathered;
use crate::figure::nearest;
use crate::land::Drained;
use crate::monthly::Course;
use std::fmt;
use std::fmt::{Display, Formatter};

// Only so many days are called a year.
pub(crate) const YEAR_LEAST_DAYS: u64 = 300;

// W1, precipitation a year, in hundredths of an inch: a quarter of the driest year at Madison, 21.08 inches in 1976, and twice the wettest, 43.34 inches in 1993
// (document 000, table 9). Minnesota's years are between them (document 002, table 6.8: 724.9 and 933.2 mm), and so is Florida's mean (document 001: 51 inches).
const PRECIPITATION_LEAST: u64 = 527;

const PRECIPITATION_MOST: u64 = 8668;

// W2, the wettest of at least so many days, in units: the driest two months at Madison, November and December 1976, have 0.48 inch (document 000, table 9).
// Spread over as many as nine days, one of them has 0.05 inch.
const WETTEST_LEAST_DAYS: u64 = 60;

const WETTEST_LEAST: u64 = 500;

// W3, potential evapotranspiration a year, in hundredths of an inch: half of the least in Minnesota, 584.1 mm or 23.00 inches, and two and a half times the most,
// 722.5 mm or 28.44 inches (document 002, table 6.8). An arid climate's 3.8 mm a day, 54.6 inches a year (document 002, table B.7), is between them.
const POTENTIAL_LEAST: u64 = 1150;

const POTENTIAL_MOST: u64 = 7110;

// W4, the mean of the warmest of June, July and August, in tenths above -100 F, so 50.0 to 95.0 F: potential evapotranspiration by Thornthwaite and Mather is
// worked out for months from 32 to 79.7 F (document 000, appendix B), and summer days in Florida pass 32 C, 89.6 F, at their warmest (document 001). No source
// has a range for the month: 50 F, well below any summer in which things grow, and 95 F, well above the warmest days' means, are ours.
const SUMMER_LEAST: u64 = 1500;

const SUMMER_MOST: u64 = 1950;

// W5, the mean of the coldest of December, January and February, -30.0 to 55.0 F: eight days of a January have means of 14 to 37 F (document 003, table 3). No
// source has a range for the month: -30 F, below the coldest, and 55 F, a month without frost, are ours.
const WINTER_LEAST: u64 = 700;

const WINTER_MOST: u64 = 1550;

// W7, days of snow among the days with precipitation, in percent, of a year: between freeze and thaw are December to March, a third of the year (document 002,
// chapter 1: recharge from April through November). More than twice that share is ours, and so is none at all.
const SNOW_MOST: u64 = 75;

// W9, more days than these without a thaw: those of December to March, between freeze and thaw in Minnesota (document 002, chapter 1).
const FROST_MOST_DAYS: u64 = 121;

// W12, so many cells of land without a direction above 8. Directions go up to 128 (document 000, figure 3); a small slope to the lower right can have none above
// 8, so the number of cells is ours.
const LOW_CODE: u32 = 8;

const LOW_CODES_LEAST_CELLS: u64 = 100;

// W13, closed depressions in percent of the land, where it has so many cells. Document 003 (figure 2) says what they are, and no source how many there are: one
// cell in ten is ours.
const DEPRESSIONS_MOST: u64 = 10;

const DEPRESSIONS_LEAST_CELLS: u64 = 20;

// W1 to W13, in their order. W6 is given where two months are against the course of the year, W8 for snow in July or August, W10 where a day of year does not
// follow, and W11 where a number of a tool that counts 1 to 8 is no direction here.
#[derive(Clone, Copy, PartialEq, Eq)]
pub(crate) enum Warning {
    Precipitation,
    Wettest,
    Potential,
    Summer,
    Winter,
    Course,
    Snow,
    SummerSnow,
    Thaw,
    Follows,
    Counted,
    LowCodes,
    Depressions,
}

impl Warning {
    pub(crate) const ALL: [Warning; 13] = [
        Warning::Precipitation,
        Warning::Wettest,
        Warning::Potential,
        Warning::Summer,
        Warning::Winter,
        Warning::Course,
        Warning::Snow,
        Warning::SummerSnow,
        Warning::Thaw,
        Warning::Follows,
        Warning::Counted,
        Warning::LowCodes,
        Warning::Depressions,
    ];

    fn name(self) -> &'static str {
        match self {
            Warning::Precipitation => "W1",
            Warning::Wettest => "W2",
            Warning::Potential => "W3",
            Warning::Summer => "W4",
            Warning::Winter => "W5",
            Warning::Course => "W6",
            Warning::Snow => "W7",
            Warning::SummerSnow => "W8",
            Warning::Thaw => "W9",
            Warning::Follows => "W10",
            Warning::Counted => "W11",
            Warning::LowCodes => "W12",
            Warning::Depressions => "W13",
        }
    }

    // The file to look at.
    pub(crate) fn file(self) -> &'static str {
        match self {
            Warning::Counted | Warning::LowCodes | Warning::Depressions => "direction.asc",
            _ => "weather.txt",
        }
    }
}

// Hundredths of an inch: of a year, or of all days where they are fewer.
fn inches_a_year(units: u64, days: u64) -> u64 {
    if days < YEAR_LEAST_DAYS {
        return nearest(units, 100);
    }
    nearest(units.saturating_mul(365), days.saturating_mul(100))
}

fn is_outside(n: u64, least: u64, most: u64) -> bool {
    n < least || most < n
}

// Is it more than so many percent?
fn is_above(n: u64, percent: u64, of: u64) -> bool {
    of.saturating_mul(percent) < n.saturating_mul(100)
}

impl Gathered {
    pub(crate) fn is_year(&self) -> bool {
        YEAR_LEAST_DAYS <= self.days
    }

    pub(crate) fn precipitation(&self) -> u64 {
        inches_a_year(self.gross, self.days)
    }

    pub(crate) fn demand(&self) -> u64 {
        inches_a_year(self.potential, self.days)
    }

    fn has_odd_precipitation(&self) -> bool {
        self.is_year()
            && is_outside(
                self.precipitation(),
                PRECIPITATION_LEAST,
                PRECIPITATION_MOST,
            )
    }

    fn has_no_wet_day(&self) -> bool {
        WETTEST_LEAST_DAYS <= self.days && self.wettest < WETTEST_LEAST
    }

    fn has_odd_demand(&self) -> bool {
        self.is_year() && is_outside(self.demand(), POTENTIAL_LEAST, POTENTIAL_MOST)
    }

    fn has_odd_snow(&self) -> bool {
        let odd = self.snow_days == 0 || is_above(self.snow_days, SNOW_MOST, self.wet_days);
        self.is_year() && 0 < self.wet_days && odd
    }

    fn has_no_thaw(&self) -> bool {
        FROST_MOST_DAYS < self.days && self.thaw_days == 0
    }
}

impl Drained {
    fn has_low_codes(&self) -> bool {
        LOW_CODES_LEAST_CELLS <= self.land && self.highest <= LOW_CODE
    }

    fn has_many_depressions(&self) -> bool {
        DEPRESSIONS_LEAST_CELLS <= self.land
            && is_above(self.depressions, DEPRESSIONS_MOST, self.land)
    }
}

// What is seen in the input's figures: of the days, of the means of summer and winter and the course of the months, and of the cells.
#[derive(Clone, Copy)]
pub(crate) struct Seen {
    pub(crate) days: Gathered,
    pub(crate) summer: Option<u64>,
    pub(crate) winter: Option<u64>,
    pub(crate) course: Course,
    pub(crate) cells: Drained,
}

impl Seen {
    pub(crate) fn warns(&self, warning: Warning) -> bool {
        match warning {
            Warning::Precipitation => self.days.has_odd_precipitation(),
            Warning::Wettest => self.days.has_no_wet_day(),
            Warning::Potential => self.days.has_odd_demand(),
            Warning::Summer => self
                .summer
                .is_some_and(|mean| is_outside(mean, SUMMER_LEAST, SUMMER_MOST)),
            Warning::Winter => self
                .winter
                .is_some_and(|mean| is_outside(mean, WINTER_LEAST, WINTER_MOST)),
            Warning::Course => self.course.first.is_some(),
            Warning::Snow => self.days.has_odd_snow(),
            Warning::SummerSnow => 0 < self.days.summer_snow_days,
            Warning::Thaw => self.days.has_no_thaw(),
            Warning::Follows => self.days.first_break.is_some(),
            Warning::Counted => 0 < self.cells.counted,
            Warning::LowCodes => self.cells.has_low_codes(),
            Warning::Depressions => self.cells.has_many_depressions(),
        }
    }

    // A warning's mark, where it is given.
    pub(crate) fn mark(&self, warning: Warning) -> Mark {
        Mark(self.warns(warning).then_some(warning))
    }
}

impl Display for Warning {
    fn fmt<W: fmt::Write>(&self, f: &mut Formatter<W>) -> fmt::Result {
        f.pad(self.name())
    }
}

// The mark of a warning, behind its figure.
#[derive(Clone, Copy)]
pub(crate) struct Mark(Option<Warning>);

impl Mark {
    pub(crate) const NONE: Mark = Mark(None);
}

impl Display for Mark {
    fn fmt<W: fmt::Write>(&self, f: &mut Formatter<W>) -> fmt::Result {
        match self.0 {
            None => Ok(()),
            Some(warning) => write!(f, "  <- {warning}"),
        }
    }
}
