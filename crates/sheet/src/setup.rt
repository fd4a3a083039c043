// The setup of a run, and what a run over it gives.
use crate::wrong::Cell;
use grids::Header;
use recharge::{Ended, period};
use records::{MOST_CELLS, Setup, index_of};

#[derive(Clone, Copy)]
pub(crate) struct Site<'a> {
    // What stands above each grid that is written.
    pub(crate) header: Header,
    pub(crate) setup: Setup<'a>,
}

// What a run has worked out: the days' numbers and totals, each cell's sums, and its stores at the end; and what all cells stored before the first day.
#[derive(Clone, Copy)]
pub(crate) struct Outcome<'a> {
    pub(crate) days: &'a [i32],
    pub(crate) totals: &'a [u64],
    pub(crate) sums: &'a [u64],
    pub(crate) soil: &'a [u32],
    pub(crate) snow: &'a [u32],
    pub(crate) stored_at_start: u64,
}

impl Site<'_> {
    pub(crate) fn cells(&self) -> usize {
        self.setup.direction.len()
    }

    pub(crate) fn cell(&self, number: usize) -> Cell {
        Cell {
            number,
            columns: index_of(self.setup.grid.width),
        }
    }

    // What a fresh state stores: it has no snow.
    pub(crate) fn stored_at_start(&self) -> u64 {
        let mut soil = [0u32; MOST_CELLS];
        let mut snow = [0u32; MOST_CELLS];
        let cells = self.cells().min(MOST_CELLS);
        let _ = recharge::fresh(&self.setup, &mut soil[..cells], &mut snow[..cells]);
        soil.iter()
            .fold(0, |sum: u64, &depth| sum.saturating_add(u64::from(depth)))
    }

    // The run over all days, from the fresh state on.
    pub(crate) fn run(
        &self,
        days: &[i32],
        soil: &mut [u32],
        snow: &mut [u32],
        sums: &mut [u64],
        totals: &mut [u64],
    ) -> Ended {
        period(&self.setup, days, soil, snow, sums, totals)
    }
}
