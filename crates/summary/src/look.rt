// A look at the input: its own figures, each beside what the sources know and with the mark of its warning, so that a person sees mistakes that document 01
// allows. The weather and its months are here, the cells in `ground`.
use crate::daily::Gathered;
use crate::figure::{Figure, degrees, nearest};
use crate::monthly::{Month, MonthSums, Months, YEAR};
use crate::warnings::{Mark, Seen, Warning};
use std::fmt;
use std::fmt::{InlineText, Write};
use words::{Inches, Page};

const NAME_WIDTH: usize = 44;

// A name, its figure, words on it, and the mark of its warning.
fn put_line(page: &mut Page, name: &str, figure: Figure, words: &str, mark: Mark) -> fmt::Result {
    writeln!(page, "  {name:<NAME_WIDTH$}{figure:>10}{words}{mark}")
}

fn put_waters(page: &mut Page, seen: &Seen) -> fmt::Result {
    let days = &seen.days;
    let span = if days.is_year() {
        "a year"
    } else {
        "of all days"
    };
    let fell = InlineText::<NAME_WIDTH>::of(format_args!("precipitation {span}"));
    let asked = InlineText::<NAME_WIDTH>::of(format_args!("potential evapotranspiration {span}"));
    put_line(
        page,
        fell.as_str(),
        Figure::hundredths(days.precipitation()),
        " inches; the sources: 21.08 to 43.34 a year",
        seen.mark(Warning::Precipitation),
    )?;
    put_line(
        page,
        asked.as_str(),
        Figure::hundredths(days.demand()),
        " inches; the sources: 23.00 to 28.44 a year",
        seen.mark(Warning::Potential),
    )?;
    put_line(
        page,
        "wettest day",
        Figure::Inches(Inches(days.wettest)),
        " inches",
        seen.mark(Warning::Wettest),
    )
}

fn put_seasons(page: &mut Page, seen: &Seen) -> fmt::Result {
    put_line(
        page,
        "warmest of June, July and August",
        seen.summer.map_or(Figure::Missing, degrees),
        " F; expected: 50.0 to 95.0",
        seen.mark(Warning::Summer),
    )?;
    put_line(
        page,
        "coldest of December, January and February",
        seen.winter.map_or(Figure::Missing, degrees),
        " F; expected: -30.0 to 55.0",
        seen.mark(Warning::Winter),
    )?;
    put_line(
        page,
        "months against the course of the year",
        Figure::Whole(seen.course.pairs),
        "; expected: none, each beside the third before",
        seen.mark(Warning::Course),
    )
}

fn put_course_of_days(page: &mut Page, seen: &Seen) -> fmt::Result {
    put_line(
        page,
        "days with a maximum above 32.0 F",
        Figure::Whole(seen.days.thaw_days),
        "",
        seen.mark(Warning::Thaw),
    )?;
    put_line(
        page,
        "days whose day of year does not follow",
        Figure::Whole(seen.days.breaks),
        "; expected: none",
        seen.mark(Warning::Follows),
    )
}

fn put_snow(page: &mut Page, seen: &Seen) -> fmt::Result {
    put_line(
        page,
        "days with precipitation",
        Figure::Whole(seen.days.wet_days),
        "",
        Mark::NONE,
    )?;
    put_line(
        page,
        "of these, days of snow",
        Figure::Whole(seen.days.snow_days),
        "",
        seen.mark(Warning::Snow),
    )?;
    put_line(
        page,
        "of these, in July and August",
        Figure::Whole(seen.days.summer_snow_days),
        "; expected: none",
        seen.mark(Warning::SummerSnow),
    )
}

fn put_weather(page: &mut Page, seen: &Seen) -> fmt::Result {
    page.write_str("Weather (weather.txt)\n")?;
    put_waters(page, seen)?;
    put_seasons(page, seen)?;
    put_course_of_days(page, seen)?;
    put_snow(page, seen)
}

// Of a month: its days, the range of its days' means and the mean of them, and what fell and was asked for on its days, of all years together.
fn put_month(page: &mut Page, month: Month, sums: MonthSums) -> fmt::Result {
    let days = sums.days;
    let lowest = degrees(sums.lowest);
    let mean = degrees(sums.mean());
    let highest = degrees(sums.highest);
    write!(
        page,
        "  {month:<10}{days:>6}{lowest:>12}{mean:>10}{highest:>10}"
    )?;
    let gross = Figure::hundredths(nearest(sums.gross, 100));
    let potential = Figure::hundredths(nearest(sums.potential, 100));
    let snow_days = sums.snow_days;
    writeln!(page, "{gross:>15}{potential:>12}{snow_days:>12}")
}

fn put_months(page: &mut Page, days: &Gathered, months: &Months) -> fmt::Result {
    if days.days == 0 {
        return Ok(());
    }
    page.write_str(
        "\n                                  daily means in F  precipitation   potential     days of\n",
    )?;
    page.write_str(
        "  month       days      lowest      mean   highest         inches      inches        snow\n",
    )?;
    for (month, _) in YEAR {
        let sums = months.of(month);
        if 0 < sums.days {
            put_month(page, month, sums)?;
        }
    }
    Ok(())
}

pub(crate) fn put_days(page: &mut Page, seen: &Seen, months: &Months) -> fmt::Result {
    page.write_str("A LOOK AT THE INPUT\n")?;
    page.write_str(
        "Mistakes within the limits are not refused, and give wrong figures. Compare this with what you know.\n\n",
    )?;
    put_weather(page, seen)?;
    put_months(page, &seen.days, months)
}
