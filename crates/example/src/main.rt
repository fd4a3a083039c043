// Document 01's worked example through the library: a fresh state and two days, then a day that is refused, since its serial
// does not follow. It prints what the program `balance` prints of the same days; examples/c has them from C.
#![tactic(auto)]

use records::{
    Climate, DayRecord, Depth, FrostIndex, Grid, Past, Refusal, Season, Setpoints, Setup, TenthF,
    Totals,
};
use std::fmt;
use std::fmt::{Display, Formatter};

// Two cells in a row, of one cover: the left one drains to the right one, a closed depression.
const GRID: Grid = Grid {
    width: 2,
    height: 1,
};

const CLIMATE: Climate = Climate {
    season: Season {
        first: 120,
        last: 270,
    },
    setpoints: Setpoints {
        first: FrostIndex::FIRST_SETPOINT,
        second: FrostIndex::SECOND_SETPOINT,
    },
};

const COVERS: [u32; 16] = [
    3, 0, 75, 75, 75, 75, 6000, 6000, 6000, 6000, 900, 0, 250, 250, 250, 250,
];

const DIRECTIONS: [u32; 2] = [1, 0];

const CODES: [u32; 2] = [3, 3];

const GROUPS: [u32; 2] = [2, 2];

const WATER: [u32; 2] = [200, 200];

const SETUP: Setup<'static> = Setup {
    grid: GRID,
    climate: CLIMATE,
    covers: &COVERS,
    direction: &DIRECTIONS,
    cover: &CODES,
    group: &GROUPS,
    available: &WATER,
};

// A day's answer, as the program prints it.
#[derive(Clone, Copy)]
struct Line {
    serial: u32,
    answer: Result<Totals, Refusal>,
}

// The two cells from day to day.
#[derive(Clone, Copy)]
struct State {
    soil: [u32; 2],
    snow: [u32; 2],
    past: Past,
}

impl Display for Line {
    fn fmt<W: fmt::Write>(&self, f: &mut Formatter<W>) -> fmt::Result {
        match self.answer {
            Ok(
                Totals {
                    gross,
                    intercepted,
                    evapotranspired,
                    recharged,
                    rejected,
                    gone,
                    stored,
                },
            ) => write!(
                f,
                "{} {} {} {} {} {} {} {}",
                self.serial,
                gross.0,
                intercepted.0,
                evapotranspired.0,
                recharged.0,
                rejected.0,
                gone.0,
                stored.0
            ),
            Err(why) => write!(f, "refused {} at {}", why.number(), why.place()),
        }
    }
}

impl State {
    fn fresh() -> Result<State, Refusal> {
        let mut soil = [0, 0];
        let mut snow = [0, 0];
        let past = recharge::fresh(&SETUP, &mut soil, &mut snow)?;
        Ok(State { soil, snow, past })
    }

    // One day of the two cells. What each cell gives besides its stores is in the totals, and is not looked at.
    fn day(&mut self, serial: u32, day_of_year: u32, gross: u64) -> Line {
        let record = DayRecord {
            serial,
            day_of_year,
            gross: Depth(gross),
            minimum: TenthF(600),
            mean: TenthF(700),
            maximum: TenthF(800),
            potential: Depth(2000),
        };
        let answer = recharge::day(
            &SETUP,
            &mut self.soil,
            &mut self.snow,
            &mut [0, 0],
            &mut [0, 0],
            &mut [0, 0],
            &mut [0, 0],
            &mut [0, 0],
            &mut self.past,
            record,
        );
        Line { serial, answer }
    }
}

fn main(rt: HostRuntime) {
    let Ok(mut state) = State::fresh() else {
        return;
    };
    for (serial, day_of_year, gross) in [(1, 150, 30900), (2, 151, 0), (2, 152, 0)] {
        let _ = rt.println(state.day(serial, day_of_year, gross));
    }
}
