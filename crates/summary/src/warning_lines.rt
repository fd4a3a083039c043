// Each warning as a line: its number, the file to look at, what was seen, and what the sources know.
use crate::daily::Gathered;
use crate::figure::{Figure, degrees};
use crate::land::Drained;
use crate::monthly::Course;
use crate::warnings::{Seen, Warning};
use std::fmt;
use std::fmt::Write;
use words::{Inches, Page};

fn put_precipitation(page: &mut Page, days: &Gathered) -> fmt::Result {
    let inches = Figure::hundredths(days.precipitation());
    write!(
        page,
        "precipitation of {inches} inches a year; the sources have 21.08 to 43.34. Other units?"
    )
}

fn put_wettest(page: &mut Page, days: &Gathered) -> fmt::Result {
    let wettest = Inches(days.wettest);
    let days = days.days;
    write!(
        page,
        "{wettest} inches on the wettest of {days} days; the sources' driest two months have 0.48. Units?"
    )
}

fn put_potential(page: &mut Page, days: &Gathered) -> fmt::Result {
    let inches = Figure::hundredths(days.demand());
    write!(
        page,
        "potential evapotranspiration of {inches} inches a year; the sources have 23.00 to 28.44."
    )
}

fn put_summer(page: &mut Page, mean: Option<u64>) -> fmt::Result {
    let mean = mean.map_or(Figure::Missing, degrees);
    write!(
        page,
        "{mean} F is the warmest summer month's mean; 50.0 to 95.0 is expected. Tenths of F?"
    )
}

fn put_winter(page: &mut Page, mean: Option<u64>) -> fmt::Result {
    let mean = mean.map_or(Figure::Missing, degrees);
    write!(
        page,
        "{mean} F is the coldest winter month's mean; -30.0 to 55.0 is expected. Day of year?"
    )
}

// The first pair of months that is against the course of the year.
fn put_course(page: &mut Page, course: &Course) -> fmt::Result {
    let Some(pair) = course.first else {
        return Ok(());
    };
    let month = pair.month;
    let mean = degrees(pair.mean);
    let trend = pair.trend;
    let before = pair.before;
    let mean_before = degrees(pair.mean_before);
    write!(page, "{month}, {mean} F, is not {trend} than ")?;
    write!(
        page,
        "{before}, {mean_before} F. Day of year and serial swapped?"
    )
}

fn put_snow(page: &mut Page, days: &Gathered) -> fmt::Result {
    let snow = days.snow_days;
    let wet = days.wet_days;
    write!(
        page,
        "snow on {snow} of {wet} days with precipitation; some, and at most 75 percent, is expected."
    )
}

fn put_summer_snow(page: &mut Page, days: &Gathered) -> fmt::Result {
    let snow = days.summer_snow_days;
    write!(
        page,
        "days of snow in July and August: {snow}; the sources have none then. Tenths of F?"
    )
}

fn put_thaw(page: &mut Page, days: &Gathered) -> fmt::Result {
    let days = days.days;
    write!(
        page,
        "none of {days} days has a maximum above 32.0 F, so no snow melts. Tenths of F?"
    )
}

fn put_follows(page: &mut Page, days: &Gathered) -> fmt::Result {
    let breaks = days.breaks;
    let first = days.first_break.unwrap_or_default();
    write!(
        page,
        "days whose day of year does not follow: {breaks}, the first at serial {first}. A day missing?"
    )
}

fn put_counted(page: &mut Page, cells: &Drained) -> fmt::Result {
    let counted = cells.counted;
    write!(
        page,
        "cells of land with 3, 5, 6 or 7: {counted}, closed depressions here. Codes 1 to 8?"
    )
}

fn put_low_codes(page: &mut Page, cells: &Drained) -> fmt::Result {
    let land = cells.land;
    write!(
        page,
        "no number above 8 on {land} cells of land; they go to 128. Codes of another tool?"
    )
}

fn put_depressions(page: &mut Page, cells: &Drained) -> fmt::Result {
    let depressions = cells.depressions;
    let land = cells.land;
    write!(
        page,
        "{depressions} of {land} cells of land are closed depressions, over 10 percent. Other codes?"
    )
}

fn put_line(page: &mut Page, warning: Warning, seen: &Seen) -> fmt::Result {
    let file = warning.file();
    write!(page, "  {warning:<4} {file}: ")?;
    match warning {
        Warning::Precipitation => put_precipitation(page, &seen.days),
        Warning::Wettest => put_wettest(page, &seen.days),
        Warning::Potential => put_potential(page, &seen.days),
        Warning::Summer => put_summer(page, seen.summer),
        Warning::Winter => put_winter(page, seen.winter),
        Warning::Course => put_course(page, &seen.course),
        Warning::Snow => put_snow(page, &seen.days),
        Warning::SummerSnow => put_summer_snow(page, &seen.days),
        Warning::Thaw => put_thaw(page, &seen.days),
        Warning::Follows => put_follows(page, &seen.days),
        Warning::Counted => put_counted(page, &seen.cells),
        Warning::LowCodes => put_low_codes(page, &seen.cells),
        Warning::Depressions => put_depressions(page, &seen.cells),
    }?;
    writeln!(page)
}

fn put_none(page: &mut Page, days: &Gathered) -> fmt::Result {
    if days.is_year() {
        return page.write_str(
            "Warnings    none: no figure below is far from what the sources' climates know\n\n",
        );
    }
    page.write_str("Warnings    none, of what fewer than 300 days can show\n\n")
}

pub(crate) fn put_warnings(page: &mut Page, seen: &Seen) -> fmt::Result {
    let count = Warning::ALL
        .iter()
        .filter(|warning| seen.warns(**warning))
        .count();
    if count == 0 {
        return put_none(page, &seen.days);
    }
    writeln!(
        page,
        "Warnings    {count}, each marked beside its figure below; they change nothing and refuse nothing"
    )?;
    for warning in Warning::ALL {
        if seen.warns(warning) {
            put_line(page, warning, seen)?;
        }
    }
    writeln!(page)
}
