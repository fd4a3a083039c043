// The five cells of land with the most and the five with the least recharge, found in one pass.
use crate::figure::Figure;
use crate::land::Land;
use std::fmt;
use std::fmt::Write;
use words::{Inches, Page};

const LISTED: usize = 5;

#[derive(Clone, Copy)]
struct Entry {
    units: u64,
    cell: usize,
}

// Which cells stand in front.
#[derive(Clone, Copy)]
enum Order {
    MostFirst,
    LeastFirst,
}

impl Order {
    // Of equal ones the lower cell is in front.
    fn puts_before(self, a: Entry, b: Entry) -> bool {
        if a.units == b.units {
            return a.cell < b.cell;
        }
        match self {
            Order::MostFirst => b.units < a.units,
            Order::LeastFirst => a.units < b.units,
        }
    }
}

// The first five in an order.
#[derive(Clone, Copy)]
struct Ranking {
    order: Order,
    entries: [Option<Entry>; LISTED],
}

impl Ranking {
    fn new(order: Order) -> Ranking {
        Ranking {
            order,
            entries: [None; LISTED],
        }
    }

    // An entry takes the place of the first that it stands before, which then takes that of the next.
    fn enter(&mut self, entry: Entry) {
        let mut coming = entry;
        for place in self.entries.iter_mut() {
            let Some(standing) = *place else {
                *place = Some(coming);
                return;
            };
            if self.order.puts_before(coming, standing) {
                *place = Some(coming);
                coming = standing;
            }
        }
    }
}

// Most and least.
#[derive(Drop)]
pub(crate) struct Ends {
    most: Ranking,
    least: Ranking,
}

impl Ends {
    pub(crate) fn find(land: &Land, recharged: &[u64]) -> Ends {
        let mut most = Ranking::new(Order::MostFirst);
        let mut least = Ranking::new(Order::LeastFirst);
        for cell in 0..land.cells() {
            if land.has(cell) {
                let units = recharged.get(cell).copied().unwrap_or(0);
                most.enter(Entry { units, cell });
                least.enter(Entry { units, cell });
            }
        }
        Ends { most, least }
    }

    pub(crate) fn put(&self, page: &mut Page, land: &Land) -> fmt::Result {
        page.write_str("Most recharge on land                       Least recharge on land\n")?;
        page.write_str(
            "    row  column       inches                    row  column       inches\n",
        )?;
        for ends in self.most.entries.iter().zip(self.least.entries.iter()) {
            if let (Some(most), Some(least)) = ends {
                put_cell(page, land, *most)?;
                page.write_str("                ")?;
                put_cell(page, land, *least)?;
                writeln!(page)?;
            }
        }
        match self.most.entries.first() {
            Some(Some(_)) => page.write_str(
                "  rows from the top, columns from the left, both from 1\n\n",
            ),
            _ => page.write_str("  there is no land\n\n"),
        }
    }
}

// Row and column from 1, and inches.
fn put_cell(page: &mut Page, land: &Land, entry: Entry) -> fmt::Result {
    let place = land.place(entry.cell);
    let row = place.row.saturating_add(1);
    let column = place.column.saturating_add(1);
    let depth = Figure::Inches(Inches(entry.units));
    write!(page, "{row:>7}{column:>8}{depth:>13}")
}
