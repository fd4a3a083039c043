// The totals of the period and of its years, as inches over the grid and over the land and as shares of precipitation, and the account.
use crate::daily::Period;
use crate::figure::{Figure, Sign, inches_over, share};
use std::fmt;
use std::fmt::Write;
use words::Page;

// Gross precipitation, intercepted, evapotranspired, recharged, rejected in closed depressions, gone from the grid, stored at the end.
pub(crate) const TOTALS: usize = 7;

// Lines of years: a file whose day of year falls from day to day would make one of each day.
const MOST_YEARS: usize = 60;

// The totals of some days: sums over the cells in units.
#[derive(Clone, Copy, Default)]
pub(crate) struct Part {
    pub(crate) gross: u64,
    pub(crate) intercepted: u64,
    pub(crate) evapotranspired: u64,
    pub(crate) recharged: u64,
    pub(crate) rejected: u64,
    pub(crate) gone: u64,
    pub(crate) stored: u64,
    // On each cell.
    pub(crate) fell: u64,
}

impl Part {
    // A day's totals, and what fell on each cell.
    pub(crate) fn add(&mut self, totals: &[u64], fell: u64) {
        let &[
            gross,
            intercepted,
            evapotranspired,
            recharged,
            rejected,
            gone,
            stored,
        ] = totals
        else {
            return;
        };
        self.gross = self.gross.saturating_add(gross);
        self.intercepted = self.intercepted.saturating_add(intercepted);
        self.evapotranspired = self.evapotranspired.saturating_add(evapotranspired);
        self.recharged = self.recharged.saturating_add(recharged);
        self.rejected = self.rejected.saturating_add(rejected);
        self.gone = self.gone.saturating_add(gone);
        self.stored = stored;
        self.fell = self.fell.saturating_add(fell);
    }

    // What of the totals is the area's. It rained on all cells alike; of what is gone, what fell on open water is not the land's; all else is the land's alone.
    fn over(self, area: Area) -> Part {
        let on_open_water = self.fell.saturating_mul(area.open_water);
        Part {
            gross: self.fell.saturating_mul(area.cells),
            gone: self.gone.saturating_sub(on_open_water),
            ..self
        }
    }

    // In the order of a year's line.
    fn seven(&self) -> [u64; TOTALS] {
        [
            self.gross,
            self.intercepted,
            self.evapotranspired,
            self.recharged,
            self.rejected,
            self.gone,
            self.stored,
        ]
    }

    fn used(&self) -> u64 {
        self.intercepted
            .saturating_add(self.evapotranspired)
            .saturating_add(self.recharged)
            .saturating_add(self.rejected)
            .saturating_add(self.gone)
            .saturating_add(self.stored)
    }
}

// How depths are spread: over all cells, or over the land, which has no part in what fell on open water and is gone.
#[derive(Clone, Copy)]
pub(crate) struct Area {
    pub(crate) cells: u64,
    pub(crate) open_water: u64,
}

// How a year's figures are told.
#[derive(Clone, Copy)]
enum Measure {
    InchesOver(Area),
    PercentOfPrecipitation,
}

impl Measure {
    fn figures(self, year: Part) -> [Figure; TOTALS] {
        match self {
            Measure::InchesOver(area) => {
                let own = year.over(area);
                own.seven().map(|units| inches_over(units, area.cells))
            }
            Measure::PercentOfPrecipitation => year.seven().map(|units| share(units, year.gross)),
        }
    }
}

// The period's totals, what is stored before its days, and the areas that both are told over.
#[derive(Clone, Copy)]
pub(crate) struct Account {
    pub(crate) stored_at_start: u64,
    pub(crate) all: Part,
    pub(crate) grid: Area,
    pub(crate) land: Area,
}

impl Account {
    // A line of units on the grid and on the land, and of all units as a share.
    fn put_line(
        &self,
        page: &mut Page,
        name: &str,
        on_grid: u64,
        on_land: u64,
        units: u64,
        sign: Sign,
    ) -> fmt::Result {
        let grid = inches_over(on_grid, self.grid.cells).with(sign);
        let land = inches_over(on_land, self.land.cells).with(sign);
        let shared = share(units, self.all.gross).with(sign);
        writeln!(page, "  {name:<34}{grid:>15}{land:>15}{shared:>17}")
    }

    // A line of what the land has the whole of.
    fn put_whole(&self, page: &mut Page, name: &str, units: u64) -> fmt::Result {
        self.put_line(page, name, units, units, units, Sign::Plus)
    }

    fn put_change(&self, page: &mut Page) -> fmt::Result {
        let start = self.stored_at_start;
        let end = self.all.stored;
        let sign = if end < start { Sign::Minus } else { Sign::Plus };
        let size = end.abs_diff(start);
        self.put_line(page, "change of what is stored", size, size, size, sign)
    }

    // What fell, the same depth on every cell, and what is gone, of which what fell on open water is not the land's, stand around what the land has the whole of.
    fn put_flows(&self, page: &mut Page) -> fmt::Result {
        let all = self.all;
        let grid = all.over(self.grid);
        let land = all.over(self.land);
        self.put_line(
            page,
            "precipitation",
            grid.gross,
            land.gross,
            all.gross,
            Sign::Plus,
        )?;
        self.put_whole(page, "intercepted", all.intercepted)?;
        self.put_whole(page, "evapotranspired", all.evapotranspired)?;
        self.put_whole(page, "recharged", all.recharged)?;
        self.put_whole(page, "rejected in closed depressions", all.rejected)?;
        let gone = "gone over the edge, to open water";
        self.put_line(page, gone, grid.gone, land.gone, all.gone, Sign::Plus)
    }

    pub(crate) fn put_totals(&self, page: &mut Page) -> fmt::Result {
        page.write_str(
            "Totals                                  inches over    inches over       percent of\n",
        )?;
        page.write_str(
            "                                           the grid       the land    precipitation\n",
        )?;
        self.put_flows(page)?;
        self.put_whole(page, "stored at the start", self.stored_at_start)?;
        self.put_whole(page, "stored at the end", self.all.stored)?;
        self.put_change(page)?;
        writeln!(page)
    }

    fn put_sum(&self, page: &mut Page) -> fmt::Result {
        let start = self.stored_at_start;
        let [
            gross,
            intercepted,
            evapotranspired,
            recharged,
            rejected,
            gone,
            stored,
        ] = self.all.seven();
        write!(
            page,
            "  {start} + {gross} = {intercepted} + {evapotranspired}"
        )?;
        write!(page, " + {recharged} + {rejected} + {gone} + {stored}")
    }

    // The account as one line in units. That it closes is proved of each day; it is added up here all the same.
    pub(crate) fn put_account(&self, page: &mut Page) -> fmt::Result {
        let before = self.stored_at_start.saturating_add(self.all.gross);
        let after = self.all.used();
        page.write_str(
            "The account, in units over all cells: stored at the start + precipitation =\n",
        )?;
        page.write_str(
            "intercepted + evapotranspired + recharged + rejected + gone + stored at the end\n",
        )?;
        self.put_sum(page)?;
        if before == after {
            return page.write_str(", to the last unit\n\n");
        }
        let off = before.abs_diff(after);
        let way = if before < after { "too many" } else { "short" };
        writeln!(page, ", WHICH DOES NOT CLOSE: it is {off} units {way}\n")
    }
}

fn put_year(page: &mut Page, year: Period, measure: Measure) -> fmt::Result {
    let serial = year.days().next().map_or(0, |first| first.serial);
    let days = year.count();
    write!(page, "{serial:>10}{days:>6}")?;
    for figure in measure.figures(year.sum(0)) {
        write!(page, "{figure:>10}")?;
    }
    writeln!(page)
}

// The years' lines, up to the most that are listed.
fn put_lines(page: &mut Page, period: Period, measure: Measure) -> fmt::Result {
    let mut left = period;
    for _ in 0..MOST_YEARS {
        let Some((year, rest)) = left.split_year() else {
            return Ok(());
        };
        put_year(page, year, measure)?;
        left = rest;
    }
    let years = left.years();
    if years == 0 {
        return Ok(());
    }
    writeln!(page, "  and {years} more years, which are not listed")
}

fn put_table(page: &mut Page, title: &str, period: Period, measure: Measure) -> fmt::Result {
    writeln!(page, "{title}")?;
    page.write_str(
        "    serial  days   precip.   interc.  evapotr. recharged  rejected      gone    stored\n",
    )?;
    put_lines(page, period, measure)?;
    writeln!(page)
}

// Year by year, where there are several.
pub(crate) fn put_years(page: &mut Page, period: Period, grid: Area, land: Area) -> fmt::Result {
    if period.years() <= 1 {
        return Ok(());
    }
    let over_grid =
        "Year by year, inches over the grid; a year begins where the day of year does not rise";
    put_table(page, over_grid, period, Measure::InchesOver(grid))?;
    let over_land = "Year by year, inches over the land";
    put_table(page, over_land, period, Measure::InchesOver(land))?;
    let shares = "Year by year, percent of the year's precipitation";
    put_table(page, shares, period, Measure::PercentOfPrecipitation)
}
