// Refusals 2 and 9: the text lends whole slices and starts fresh, so they are reached here.
ghost use Rattle.std.specs.Prelude.{◌≤◌};

use crate::one_cell::{CLIMATE, MILD, remembered, weather};
use records::{Grid, Setup};

const TWO_CELLS: Grid = Grid {
    width: 2,
    height: 1,
};

// A dry day of two cells, each of which holds 50,000 at most: the lengths of three of the eleven lent slices, and the state before it.
#[derive(Clone, Copy)]
struct Trial {
    directions: usize,
    soils: usize,
    results: usize,
    soil: [u32; 2],
    second_snow: u32,
    yesterday: u64,
    frost: u64,
}

// A dry state, lent whole.
const DRY: Trial = Trial {
    directions: 2,
    soils: 2,
    results: 2,
    soil: [0, 0],
    second_snow: 0,
    yesterday: 0,
    frost: 0,
};

// Full soils under the deepest snow.
const FULL: Trial = Trial {
    directions: 2,
    soils: 2,
    results: 2,
    soil: [50000, 50000],
    second_snow: 10000000,
    yesterday: 0,
    frost: 0,
};

// The paper's number and place of the day's refusal, 0 and 0 where the day is accepted.
fn tried(rt: &impl Print, trial: Trial)
    requires { (trial.directions ≤ 3) × (trial.soils ≤ 3) × (trial.results ≤ 3) }
{
    let covers = [3, 0, 75, 75, 75, 75, 0, 0, 0, 0, 0, 0, 250, 250, 250, 250];
    let direction = [1, 0, 0];
    let setup = Setup {
        grid: TWO_CELLS,
        climate: CLIMATE,
        covers: &covers,
        direction: &direction[..trial.directions],
        cover: &[3, 3],
        group: &[2, 2],
        available: &[200, 200],
    };
    let mut soil = [trial.soil[0], trial.soil[1], 0];
    let mut rejected = [0, 0, 0];
    let mut past = remembered(trial.yesterday, trial.frost);
    let answer = recharge::day(
        &setup,
        &mut soil[..trial.soils],
        &mut [0, trial.second_snow],
        &mut [0, 0],
        &mut [0, 0],
        &mut [0, 0],
        &mut [0, 0],
        &mut rejected[..trial.results],
        &mut past,
        weather(0, MILD, 0),
    );
    let (number, place) = match answer {
        Ok(_) => (0, 0),
        Err(why) => (why.number(), why.place()),
    };
    let _ = println!(rt; "refused {number} {place}");
}

fn lent(rt: &impl Print, directions: usize, soils: usize, results: usize)
    requires { (directions ≤ 3) × (soils ≤ 3) × (results ≤ 3) }
{
    tried(
        rt,
        Trial {
            directions,
            soils,
            results,
            ..DRY
        },
    );
}

pub(crate) fn refusals(rt: &impl Print) {
    lent(rt, 1, 2, 2);
    lent(rt, 3, 2, 2);
    lent(rt, 2, 1, 2);
    lent(rt, 2, 3, 2);
    lent(rt, 2, 2, 1);
    lent(rt, 2, 2, 3);
    lent(rt, 0, 0, 0);
    tried(
        rt,
        Trial {
            soil: [50001, 0],
            ..DRY
        },
    );
    tried(
        rt,
        Trial {
            soil: [0, 50001],
            ..DRY
        },
    );
    tried(
        rt,
        Trial {
            second_snow: 10000001,
            ..FULL
        },
    );
    tried(
        rt,
        Trial {
            yesterday: 400001,
            ..FULL
        },
    );
    tried(
        rt,
        Trial {
            yesterday: 400000,
            frost: 2500001,
            ..FULL
        },
    );
    tried(
        rt,
        Trial {
            soil: [u32::MAX, u32::MAX],
            second_snow: u32::MAX,
            yesterday: 4294967295,
            frost: 4294967295,
            ..FULL
        },
    );
}
