// The sheet for a person to read, from its title to the look at the input. How each figure is rounded is said in the plain C's bench/plain_sheet_text.c, to which
// the gate holds every byte of it.
use crate::best::Ends;
use crate::daily::Period;
use crate::ground::{put_covers, put_directions, put_groups};
use crate::land::{Drained, Land, OpenWater};
use crate::look::put_days;
use crate::monthly::Months;
use crate::totals::{Account, Area, put_years};
use crate::warning_lines::put_warnings;
use crate::warnings::Seen;
use records::{Climate, Grid, Season};
use std::fmt;
use std::fmt::Write;
use words::Page;

// What the sheet tells of.
#[derive(Clone, Copy)]
struct Input<'a> {
    season: Season,
    covers: &'a [u32],
    direction: &'a [u32],
    group: &'a [u32],
    land: Land<'a>,
    stored_at_start: u64,
    period: Period<'a>,
    recharged: &'a [u64],
}

fn put_period(page: &mut Page, period: &Period) -> fmt::Result {
    let (Some(first), Some(last)) = (period.days().next(), period.days().last()) else {
        return page.write_str("Period      no days\n");
    };
    let days = period.count();
    let from = first.serial;
    let to = last.serial;
    write!(page, "Period      serial {from} to {to}, {days} days, ")?;
    let from = first.day_of_year;
    let to = last.day_of_year;
    writeln!(page, "from day of year {from} to {to}")
}

fn put_grid(page: &mut Page, land: &Land, drained: &Drained) -> fmt::Result {
    let width = land.grid.width;
    let height = land.grid.height;
    let cells = land.cells();
    write!(
        page,
        "Grid        {width} columns, {height} rows, {cells} cells: "
    )?;
    let on_land = drained.land;
    let open_water = drained.open_water;
    let depressions = drained.depressions;
    writeln!(page, "{on_land} of land, {open_water} of open water")?;
    writeln!(
        page,
        "            closed depressions on land: {depressions}"
    )
}

impl Input<'_> {
    fn put_head(&self, page: &mut Page, drained: &Drained) -> fmt::Result {
        page.write_str("RECHARGE SHEET\n")?;
        page.write_str(
            "A daily soil-water balance over a grid. Inches are means over its cells; a unit is 0.0001 inch.\n\n",
        )?;
        put_period(page, &self.period)?;
        put_grid(page, &self.land, drained)?;
        let first = self.season.first;
        let last = self.season.last;
        writeln!(page, "Growing     from day of year {first} to {last}\n")
    }

    // Totals, years, account and cells.
    fn put_figures(&self, page: &mut Page, drained: &Drained) -> fmt::Result {
        let grid = Area {
            cells: self.land.cells() as u64,
            open_water: 0,
        };
        let land = Area {
            cells: drained.land,
            open_water: drained.open_water,
        };
        let account = Account {
            stored_at_start: self.stored_at_start,
            all: self.period.sum(self.stored_at_start),
            grid,
            land,
        };
        account.put_totals(page)?;
        put_years(page, self.period, grid, land)?;
        account.put_account(page)?;
        Ends::find(&self.land, self.recharged).put(page, &self.land)
    }

    // The look at the input.
    fn put_input(&self, page: &mut Page, seen: &Seen, months: &Months) -> fmt::Result {
        put_days(page, seen, months)?;
        put_directions(page, self.direction, &self.land, seen)?;
        put_covers(page, self.covers, &self.land)?;
        put_groups(page, self.group, &self.land)
    }

    fn put(&self, page: &mut Page) -> fmt::Result {
        let months = Months::gather(&self.period);
        let seen = Seen {
            days: self.period.gather(),
            summer: months.summer(),
            winter: months.winter(),
            course: months.course(),
            cells: self.land.drain(self.direction),
        };
        self.put_head(page, &seen.cells)?;
        put_warnings(page, &seen)?;
        self.put_figures(page, &seen.cells)?;
        self.put_input(page, &seen, &months)
    }
}

// Writes the sheet from the front of a text, as much of it as fits, and returns where all of it would end.
pub fn put_sheet(
    text: &mut [u8],
    grid: Grid,
    climate: Climate,
    covers: &[u32],
    direction: &[u32],
    cover: &[u32],
    group: &[u32],
    stored_at_start: u64,
    days: &[i32],
    totals: &[u64],
    recharged: &[u64],
) -> usize {
    let open = OpenWater::of(covers);
    let input = Input {
        season: climate.season,
        covers,
        direction,
        group,
        land: Land {
            grid,
            cover,
            open: &open,
        },
        stored_at_start,
        period: Period { days, totals },
        recharged,
    };
    let mut page = Page::new(text);
    // A page takes every text.
    let _ = input.put(&mut page);
    page.end()
}
