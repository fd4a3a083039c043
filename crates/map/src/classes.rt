// The classes of the land's recharge. bench/plain_map.c says in words how they are chosen.
use crate::cells::{Cell, Cells};
use crate::marks::{Mark, SHADES};

// As many as there are shades.
const MOST_CLASSES: usize = SHADES as usize;

// 0.01 inch.
const NARROWEST_STEP: u64 = 100;

// By then a step is so wide that no number is past the last class.
const MOST_TURNS: usize = 66;

// At most one land cell in so many is past the last class, besides closed depressions.
const ONE_IN: usize = 50;

// How many cells are land, and the least and the most that recharged on one.
#[derive(Clone, Copy)]
pub(crate) struct Land {
    cells: usize,
    pub(crate) least: u64,
    pub(crate) most: u64,
}

// Where classes begin: each is a step wide, and the first one begins at `first` steps.
#[derive(Clone, Copy)]
pub(crate) struct Scale {
    pub(crate) step: u64,
    first: u64,
}

// An open one, the last, has no upper limit.
#[derive(Clone, Copy)]
pub(crate) struct Classes {
    pub(crate) land: Land,
    pub(crate) scale: Scale,
    pub(crate) count: usize,
    open: bool,
}

impl Land {
    fn one(recharge: u64) -> Land {
        Land {
            cells: 1,
            least: recharge,
            most: recharge,
        }
    }

    fn and(self, recharge: u64) -> Land {
        Land {
            cells: self.cells.saturating_add(1),
            least: self.least.min(recharge),
            most: self.most.max(recharge),
        }
    }

    fn of(cells: &Cells) -> Option<Land> {
        let mut land: Option<Land> = None;
        for i in 0..cells.len() {
            let cell = cells.at(i);
            if cell.is_land() {
                land = Some(land.map_or(Land::one(cell.recharge), |land| land.and(cell.recharge)));
            }
        }
        land
    }
}

impl Scale {
    // With the least recharge in the first class.
    fn new(step: u64, least: u64) -> Scale {
        Scale {
            step,
            first: least.checked_div(step).unwrap_or(0),
        }
    }

    // The class of a recharge, from 0, if there were as many as are needed.
    fn class(self, recharge: u64) -> usize {
        let steps = recharge.checked_div(self.step).unwrap_or(0);
        steps.saturating_sub(self.first) as usize
    }

    // A class has its lower limit and not its upper one, which is the next one's.
    fn limit(self, class: usize) -> u64 {
        self.first
            .saturating_add(class as u64)
            .saturating_mul(self.step)
    }

    // Whether water leaves the cell and it is past the last class that there can be.
    fn is_past(self, cell: Cell) -> bool {
        cell.is_land() && cell.direction.is_some() && MOST_CLASSES <= self.class(cell.recharge)
    }

    fn fits(self, cells: &Cells, land: Land) -> bool {
        let past = (0..cells.len())
            .filter(|i| self.is_past(cells.at(*i)))
            .count();
        past.saturating_mul(ONE_IN) <= land.cells
    }
}

// The steps are 1, 2, 2.5, 5, 10, .. times the narrowest.
fn wider(step: u64, turn: usize) -> u64 {
    if turn % 4 == 1 {
        return (step / 4).saturating_mul(5);
    }
    step.saturating_mul(2)
}

fn scale_for(cells: &Cells, land: Land) -> Scale {
    let mut step = NARROWEST_STEP;
    for turn in 0..MOST_TURNS {
        let scale = Scale::new(step, land.least);
        if scale.fits(cells, land) {
            return scale;
        }
        step = wider(step, turn);
    }
    Scale::new(step, land.least)
}

impl Classes {
    // None where all is open water.
    pub(crate) fn of(cells: &Cells) -> Option<Classes> {
        let land = Land::of(cells)?;
        let scale = scale_for(cells, land);
        let needed = scale.class(land.most).saturating_add(1);
        Some(Classes {
            land,
            scale,
            count: needed.min(MOST_CLASSES),
            open: MOST_CLASSES < needed,
        })
    }

    // Spread over all shades, the first class in the lightest and the last in the darkest.
    pub(crate) fn shade(self, class: usize) -> u8 {
        let steps = self.count.saturating_sub(1);
        let spread = class
            .saturating_mul(MOST_CLASSES - 1)
            .saturating_add(steps / 2);
        let shade = spread.checked_div(steps).unwrap_or(0);
        (shade % MOST_CLASSES) as u8
    }

    // Gives land its shades.
    pub(crate) fn mark_land(self, recharged: &[u64], marks: &mut [Mark]) {
        for (i, mark) in marks.iter_mut().enumerate() {
            if *mark != Mark::OpenWater {
                let class = self.scale.class(recharged.get(i).copied().unwrap_or(0));
                *mark = Mark::Land(self.shade(class.min(MOST_CLASSES - 1)));
            }
        }
    }

    pub(crate) fn lower(self, class: usize) -> u64 {
        self.scale.limit(class)
    }

    pub(crate) fn upper(self, class: usize) -> Option<u64> {
        let next = class.saturating_add(1);
        if self.open && next == self.count {
            return None;
        }
        Some(self.scale.limit(next))
    }
}
