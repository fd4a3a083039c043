// The cells: which are land, where they drain, and how many have a number.
ghost use Rattle.std.specs.Iterator.{at_most};
ghost use Rattle.std.specs.Prelude.{length};

use records::{Grid, MOST_CELLS};

// One more than the largest code of a cover.
const CODES: usize = 256;

// Numbers in an entry of the cover table: the first is the code, the second is 1 for open water.
const ENTRY_NUMBERS: usize = 16;

// What a table entry says of a cover, as far as it is told here.
#[derive(Clone, Copy)]
pub(crate) struct Cover {
    pub(crate) code: u32,
    pub(crate) is_open_water: bool,
}

// The covers of the table, one after another.
#[derive(Drop)]
pub(crate) struct Covers<'a>(pub(crate) &'a [u32]);

impl Iterator for Covers<'_> {
    type Item = Cover;

    ghost remaining = { λ s. at_most (length s.0.now) };

    fn next(&mut self) -> Option<Cover> {
        let (entry, rest) = self.0.split_first_chunk::<ENTRY_NUMBERS>()?;
        self.0 = rest;
        Some(Cover {
            code: entry[0],
            is_open_water: entry[1] == 1,
        })
    }
}

// Which codes of covers are open water: a fixed table, since there is no heap.
#[derive(Drop)]
pub(crate) struct OpenWater([bool; CODES]);

impl OpenWater {
    fn none() -> OpenWater {
        OpenWater([false; CODES])
    }

    pub(crate) fn of(covers: &[u32]) -> OpenWater {
        let mut open = OpenWater::none();
        for cover in Covers(covers) {
            if let Some(is_open) = open.0.get_mut(cover.code as usize) {
                *is_open = cover.is_open_water;
            }
        }
        open
    }

    fn has(&self, code: u32) -> bool {
        self.0.get(code as usize).copied().unwrap_or(false)
    }
}

// How many cells have each number below 256: a fixed table, since there is no heap.
#[derive(Drop)]
pub(crate) struct Tally([u64; CODES]);

impl Tally {
    fn none() -> Tally {
        Tally([0; CODES])
    }

    fn add(&mut self, number: u32) {
        if let Some(cells) = self.0.get_mut(number as usize) {
            *cells = cells.saturating_add(1);
        }
    }

    pub(crate) fn of(&self, number: u32) -> u64 {
        self.0.get(number as usize).copied().unwrap_or(0)
    }
}

// What a slice has for a cell; 0 past its end.
fn number_of(numbers: &[u32], cell: usize) -> u32 {
    numbers.get(cell).copied().unwrap_or(0)
}

// Where a cell lies, from 0, from the top left.
#[derive(Clone, Copy)]
pub(crate) struct Place {
    pub(crate) row: usize,
    pub(crate) column: usize,
}

// The edge of the grid that a cell drains over.
#[derive(Clone, Copy, PartialEq, Eq)]
enum Edge {
    Top,
    Bottom,
    Left,
    Right,
}

// The grid's cells, the cover of each, and which covers are open water: all else is land.
#[derive(Clone, Copy)]
pub(crate) struct Land<'a> {
    pub(crate) grid: Grid,
    pub(crate) cover: &'a [u32],
    pub(crate) open: &'a OpenWater,
}

impl Land<'_> {
    pub(crate) fn cells(&self) -> usize {
        self.grid.cells().min(MOST_CELLS)
    }

    pub(crate) fn has(&self, cell: usize) -> bool {
        !self.open.has(number_of(self.cover, cell))
    }

    pub(crate) fn place(&self, cell: usize) -> Place {
        let width = self.grid.width as usize;
        Place {
            row: cell.checked_div(width).unwrap_or(0),
            column: cell.checked_rem(width).unwrap_or(cell),
        }
    }

    // How many cells of land have each number.
    pub(crate) fn tally(&self, numbers: &[u32]) -> Tally {
        let mut tally = Tally::none();
        for cell in 0..self.cells() {
            if self.has(cell) {
                tally.add(number_of(numbers, cell));
            }
        }
        tally
    }

    // How many cells have each cover, open water among them.
    pub(crate) fn tally_covers(&self) -> Tally {
        let none = OpenWater::none();
        let all = Land {
            open: &none,
            ..*self
        };
        all.tally(self.cover)
    }

    pub(crate) fn cells_with(&self, numbers: &[u32], number: u32) -> u64 {
        let found = (0..self.cells())
            .filter(|cell| self.has(*cell) && number_of(numbers, *cell) == number)
            .count();
        found as u64
    }

    // The lowest number past one, or of all, that is the direction of a cell of land and none of the eight.
    pub(crate) fn next_other(&self, direction: &[u32], past: Option<u32>) -> Option<u32> {
        (0..self.cells())
            .filter(|cell| self.has(*cell))
            .map(|cell| number_of(direction, cell))
            .filter(|number| !is_direction(*number) && past.is_none_or(|past| past < *number))
            .min()
    }

    // A direction over a corner counts as over the top or the bottom.
    fn edge_over(&self, cell: usize, direction: u32) -> Option<Edge> {
        let place = self.place(cell);
        let is_last_row = place.row.saturating_add(1) == self.grid.height as usize;
        let is_last_column = place.column.saturating_add(1) == self.grid.width as usize;
        if is_up(direction) && place.row == 0 {
            return Some(Edge::Top);
        }
        if is_down(direction) && is_last_row {
            return Some(Edge::Bottom);
        }
        if is_left(direction) && place.column == 0 {
            return Some(Edge::Left);
        }
        if is_right(direction) && is_last_column {
            return Some(Edge::Right);
        }
        None
    }

    // Open water points nowhere, whatever its number, so only the land is looked at.
    pub(crate) fn drain(&self, direction: &[u32]) -> Drained {
        let mut drained = Drained::default();
        for cell in 0..self.cells() {
            let number = number_of(direction, cell);
            if self.has(cell) {
                drained.add(number);
                drained.add_edge(self.edge_over(cell, number));
            } else {
                drained.open_water = drained.open_water.saturating_add(1);
            }
        }
        drained
    }
}

// Of the cells of land, but for open water itself.
#[derive(Clone, Copy, Default)]
pub(crate) struct Drained {
    pub(crate) land: u64,
    pub(crate) open_water: u64,
    // Any other number than the eight directions.
    pub(crate) depressions: u64,
    // 3, 5, 6 and 7, which tools that count the directions 1 to 8 have.
    pub(crate) counted: u64,
    pub(crate) highest: u32,
    pub(crate) top: u64,
    pub(crate) bottom: u64,
    pub(crate) left: u64,
    pub(crate) right: u64,
}

impl Drained {
    fn add(&mut self, direction: u32) {
        self.land = self.land.saturating_add(1);
        self.depressions = self
            .depressions
            .saturating_add(u64::from(!is_direction(direction)));
        self.counted = self
            .counted
            .saturating_add(u64::from(is_counted(direction)));
        self.highest = self.highest.max(direction);
    }

    fn add_edge(&mut self, edge: Option<Edge>) {
        match edge {
            Some(Edge::Top) => self.top = self.top.saturating_add(1),
            Some(Edge::Bottom) => self.bottom = self.bottom.saturating_add(1),
            Some(Edge::Left) => self.left = self.left.saturating_add(1),
            Some(Edge::Right) => self.right = self.right.saturating_add(1),
            None => {}
        }
    }
}

fn is_right(direction: u32) -> bool {
    matches!(direction, 1 | 2 | 128)
}

fn is_down(direction: u32) -> bool {
    matches!(direction, 2 | 4 | 8)
}

fn is_left(direction: u32) -> bool {
    matches!(direction, 8 | 16 | 32)
}

fn is_up(direction: u32) -> bool {
    matches!(direction, 32 | 64 | 128)
}

// Is it one of the eight?
fn is_direction(number: u32) -> bool {
    matches!(number, 1 | 2 | 4 | 8 | 16 | 32 | 64 | 128)
}

fn is_counted(number: u32) -> bool {
    matches!(number, 3 | 5 | 6 | 7)
}
