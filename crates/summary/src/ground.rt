// The look at the input, its cells: where they drain, and which covers and soil groups they have.
use crate::land::{Cover, Covers, Land, Tally};
use crate::warnings::{Seen, Warning};
use std::fmt;
use std::fmt::{Display, Formatter, Write};
use words::Page;

// Other numbers than the eight directions that are listed, the lowest first.
const LISTED_OTHERS: usize = 5;

// Covers on a line: with their cells, and without.
const USED_ON_A_LINE: u64 = 6;

const UNUSED_ON_A_LINE: u64 = 12;

// The eight directions, two on a line.
const DIRECTIONS: [[(u32, &str); 2]; 4] = [
    [(1, "right"), (16, "left")],
    [(2, "lower right"), (32, "upper left")],
    [(4, "down"), (64, "up")],
    [(8, "lower left"), (128, "upper right")],
];

fn put_direction(page: &mut Page, tally: &Tally, code: u32, name: &str) -> fmt::Result {
    let cells = tally.of(code);
    write!(page, "{code:>6} {name:<12}{cells:>6}")
}

fn put_eight(page: &mut Page, tally: &Tally) -> fmt::Result {
    for [(code, name), (beside, second)] in DIRECTIONS {
        put_direction(page, tally, code, name)?;
        page.write_str("  ")?;
        put_direction(page, tally, beside, second)?;
        writeln!(page)?;
    }
    Ok(())
}

fn put_depressions(page: &mut Page, seen: &Seen) -> fmt::Result {
    let depressions = seen.cells.depressions;
    let counted = seen.mark(Warning::Counted);
    let many = seen.mark(Warning::Depressions);
    writeln!(
        page,
        "  closed depressions, which have any other number: {depressions}{counted}{many}"
    )
}

// The other numbers, each with its cells, while some of their cells are left.
fn put_others(page: &mut Page, direction: &[u32], land: &Land, depressions: u64) -> fmt::Result {
    if depressions == 0 {
        return Ok(());
    }
    let mut left = depressions;
    let mut lead = "         these are ";
    let mut past = None;
    for _ in 0..LISTED_OTHERS {
        let Some(other) = land.next_other(direction, past) else {
            break;
        };
        let found = land.cells_with(direction, other);
        write!(page, "{lead}{other} ({found})")?;
        left = left.saturating_sub(found);
        lead = ", ";
        past = Some(other);
    }
    if left == 0 {
        return writeln!(page);
    }
    writeln!(page, ", and others ({left})")
}

fn put_edges(page: &mut Page, seen: &Seen) -> fmt::Result {
    let top = seen.cells.top;
    let bottom = seen.cells.bottom;
    let left = seen.cells.left;
    let right = seen.cells.right;
    write!(
        page,
        "  off the grid: over the top {top}, the bottom {bottom}"
    )?;
    writeln!(page, ", the left {left}, the right {right}")?;
    page.write_str("  (over a corner counts as over the top or the bottom)\n")
}

pub(crate) fn put_directions(
    page: &mut Page,
    direction: &[u32],
    land: &Land,
    seen: &Seen,
) -> fmt::Result {
    let mark = seen.mark(Warning::LowCodes);
    writeln!(page, "\nDirections (direction.asc), cells of land{mark}")?;
    put_eight(page, &land.tally(direction))?;
    put_depressions(page, seen)?;
    put_others(page, direction, land, seen.cells.depressions)?;
    put_edges(page, seen)
}

// A cover that cells have, with their number.
#[derive(Clone, Copy)]
struct Used {
    cover: Cover,
    cells: u64,
}

impl Display for Used {
    fn fmt<W: fmt::Write>(&self, f: &mut Formatter<W>) -> fmt::Result {
        let code = self.cover.code;
        let sign = if self.cover.is_open_water { '*' } else { ':' };
        let cells = self.cells;
        write!(f, "{code:>7}{sign}{cells:>6}")
    }
}

// A cover that no cell has.
#[derive(Clone, Copy)]
struct Unused(Cover);

impl Display for Unused {
    fn fmt<W: fmt::Write>(&self, f: &mut Formatter<W>) -> fmt::Result {
        let code = self.0.code;
        write!(f, "{code:>7}")
    }
}

// What is listed of the table's covers, so much on a line.
fn put_list<D: Display + Drop, F: Fn(Cover) -> Option<D>>(
    page: &mut Page,
    covers: Covers,
    on_a_line: u64,
    listed: F,
) -> fmt::Result
    requires { F.IsAlwaysCallable listed }
{
    let mut count = 0u64;
    for cover in covers {
        if let Some(item) = listed(cover) {
            if 0 < count && count.is_multiple_of(on_a_line) {
                writeln!(page)?;
            }
            write!(page, "{item}")?;
            count = count.saturating_add(1);
        }
    }
    if count == 0 {
        return page.write_str("   none\n");
    }
    writeln!(page)
}

// Of all cells, open water among them.
pub(crate) fn put_covers(page: &mut Page, covers: &[u32], land: &Land) -> fmt::Result {
    let tally = land.tally_covers();
    page.write_str("\nCovers (cover.asc), code and cells; * is open water\n")?;
    put_list(page, Covers(covers), USED_ON_A_LINE, |cover| {
        let cells = tally.of(cover.code);
        (0 < cells).then_some(Used { cover, cells })
    })?;
    page.write_str("  covers of the table (covers.txt) that no cell has:\n")?;
    put_list(page, Covers(covers), UNUSED_ON_A_LINE, |cover| {
        (tally.of(cover.code) == 0).then_some(Unused(cover))
    })
}

pub(crate) fn put_groups(page: &mut Page, group: &[u32], land: &Land) -> fmt::Result {
    let tally = land.tally(group);
    let a = tally.of(1);
    let b = tally.of(2);
    let c = tally.of(3);
    let d = tally.of(4);
    page.write_str("\nSoil groups (group.asc), cells of land\n")?;
    writeln!(page, "  A {a}, B {b}, C {c}, D {d}")
}
