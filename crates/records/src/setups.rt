// A setup as it is handed over.
use crate::grids::{Climate, Grid};

// The grid, the climate and the cover table, and of each cell its direction, its cover code, its group and its available water.
#[derive(Clone, Copy)]
pub struct Setup<'a> {
    pub grid: Grid,
    pub climate: Climate,
    pub covers: &'a [u32],
    pub direction: &'a [u32],
    pub cover: &'a [u32],
    pub group: &'a [u32],
    pub available: &'a [u32],
}
