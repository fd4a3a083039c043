// Days of one cell that drains over the edge.
use records::{
    Climate, DayRecord, Depth, FrostIndex, Grid, Memory, Past, Refusal, Season, Setpoints, Setup,
    TenthF,
};

pub(crate) const CLIMATE: Climate = Climate {
    season: Season {
        first: 100,
        last: 200,
    },
    setpoints: Setpoints {
        first: FrostIndex::FIRST_SETPOINT,
        second: FrostIndex::SECOND_SETPOINT,
    },
};

const ONE_CELL: Grid = Grid {
    width: 1,
    height: 1,
};

// A day's temperatures, in tenths of a degree Fahrenheit.
#[derive(Clone, Copy)]
pub(crate) struct Temperatures {
    pub(crate) minimum: i32,
    pub(crate) mean: i32,
    pub(crate) maximum: i32,
}

// A day without snow or melt.
pub(crate) const MILD: Temperatures = Temperatures {
    minimum: 600,
    mean: 700,
    maximum: 800,
};

// What a day leaves of the cell.
#[derive(Clone, Copy)]
pub(crate) struct Cell {
    pub(crate) outflow: u32,
    pub(crate) soil: u32,
    pub(crate) snow: u32,
    pub(crate) frost: u64,
}

#[derive(Clone, Copy)]
pub(crate) struct Ground {
    pub(crate) curve: u32,
    pub(crate) root: u32,
    pub(crate) water: u32,
}

// Ground that passes all its water on.
pub(crate) const BARE: Ground = Ground {
    curve: 100,
    root: 0,
    water: 0,
};

pub(crate) fn remembered(yesterday: u64, frost: u64) -> Past {
    let memory = Memory {
        oldest: Depth(0),
        fourth: Depth(0),
        third: Depth(0),
        second: Depth(0),
        yesterday: Depth(yesterday),
    };
    Past {
        memory,
        last: None,
        frost: FrostIndex(frost),
    }
}

pub(crate) fn weather(gross: u64, temperatures: Temperatures, potential: u64) -> DayRecord {
    DayRecord {
        serial: 1,
        day_of_year: 150,
        gross: Depth(gross),
        minimum: TenthF(temperatures.minimum),
        mean: TenthF(temperatures.mean),
        maximum: TenthF(temperatures.maximum),
        potential: Depth(potential),
    }
}

// The cell with a table of its cover and its available water.
pub(crate) fn one_cell<'a>(covers: &'a [u32], water: &'a [u32]) -> Setup<'a> {
    Setup {
        grid: ONE_CELL,
        climate: CLIMATE,
        covers,
        direction: &[1],
        cover: &[3],
        group: &[2],
        available: water,
    }
}

impl Cell {
    pub(crate) const DRY: Cell = Cell {
        outflow: 0,
        soil: 0,
        snow: 0,
        frost: 0,
    };

    // One growing day of the cell, from its soil and snow on. No interception, and no excess may recharge.
    pub(crate) fn lived(self, ground: Ground, past: Past, day: DayRecord) -> Result<Cell, Refusal> {
        let Ground { curve, root, water } = ground;
        let covers = [
            3, 0, curve, curve, curve, curve, 0, 0, 0, 0, 0, 0, root, root, root, root,
        ];
        let mut soil = [self.soil];
        let mut snow = [self.snow];
        let mut outflow = [0];
        let mut past = past;
        recharge::day(
            &one_cell(&covers, &[water]),
            &mut soil,
            &mut snow,
            &mut [0],
            &mut outflow,
            &mut [0],
            &mut [0],
            &mut [0],
            &mut past,
            day,
        )?;
        Ok(Cell {
            outflow: outflow[0],
            soil: soil[0],
            snow: snow[0],
            frost: past.frost.0,
        })
    }
}
