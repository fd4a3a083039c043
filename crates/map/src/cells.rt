// The cells of the map, and what is known of each.
use crate::directions::Direction;
use crate::marks::{Ink, Mark, Sign};

// Lists that the program lends (no heap), a number for each cell; numbers that are not there are 0.
#[derive(Clone, Copy)]
pub(crate) struct Cells<'a> {
    pub(crate) columns: usize,
    pub(crate) marks: &'a [Mark],
    pub(crate) direction: &'a [u32],
    pub(crate) recharged: &'a [u64],
}

// `direction` is none where water leaves it in no direction.
#[derive(Clone, Copy)]
pub(crate) struct Cell {
    pub(crate) number: usize,
    pub(crate) row: usize,
    pub(crate) column: usize,
    pub(crate) mark: Mark,
    pub(crate) direction: Option<Direction>,
    pub(crate) recharge: u64,
}

impl Cells<'_> {
    pub(crate) fn len(&self) -> usize {
        self.marks.len()
    }

    // No cell is drawn where there are no columns.
    pub(crate) fn at(&self, number: usize) -> Cell {
        let columns = self.columns.max(1);
        let direction = self.direction.get(number).copied().unwrap_or(0);
        Cell {
            number,
            row: number / columns,
            column: number % columns,
            mark: self.marks.get(number).copied().unwrap_or(Mark::OpenWater),
            direction: Direction::of(direction),
            recharge: self.recharged.get(number).copied().unwrap_or(0),
        }
    }

    pub(crate) fn count_marked(&self, mark: Mark) -> usize {
        self.marks.iter().filter(|m| **m == mark).count()
    }

    pub(crate) fn count_depressions(&self) -> usize {
        (0..self.len())
            .filter(|i| self.at(*i).is_depression())
            .count()
    }
}

impl Cell {
    pub(crate) fn is_land(self) -> bool {
        self.mark != Mark::OpenWater
    }

    // A closed one: land that no water leaves.
    pub(crate) fn is_depression(self) -> bool {
        self.is_land() && self.direction.is_none()
    }

    // The arrow to where its water goes, if it is drawn with this ink.
    pub(crate) fn arrow(self, ink: Ink) -> Option<Sign> {
        if self.mark.ink() != Some(ink) {
            return None;
        }
        self.direction.map(Sign::Arrow)
    }

    pub(crate) fn diamond(self) -> Option<Sign> {
        if self.is_depression() {
            return Some(Sign::Diamond);
        }
        None
    }
}
