// A run from the input's numbers: the setup in slices of its own lengths, the fresh state, then the days.
ghost use Rattle.text.specs.Laying.{Laid};
ghost use Rattle.text.specs.Program.{run_text};
ghost use Rattle.text.specs.Run.{Coded, Complete, Lent, most_text};
ghost use Rattle.words.specs.Writing.{Wrote};

use crate::days::days;
use crate::fields::{
    FRONT_NUMBERS, climate_in, covers_in, directions_in, grid_in, groups_in, waters_in,
};
use crate::taking::Layout;
use lines::refusal;
use records::{MOST_CELLS, Setup};

// The fresh state, and the days from it on; or its refusal.
fn begun(
    numbers: &[u32],
    layout: Layout,
    setup: &Setup<'_>,
    soil: &mut [u32],
    snow: &mut [u32],
    output: &mut [u8],
) -> usize
    requires { Laid numbers.now setup.now × Lent numbers.now layout soil.old snow.old }
    ensures { Wrote most_text 0 (run_text numbers.now) output.old output.new result }
{
    match recharge::fresh(setup, soil, snow) {
        Err(why) => refusal(output, 0, why),
        Ok(past) => days(numbers, layout, setup, soil, snow, past, output),
    }
}

// Numbers that are ready for the run: the cover table is lent from among them, and the cells' four numbers stand each at the front of an array.
pub(crate) fn started(numbers: &[u32], layout: Layout, output: &mut [u8]) -> usize
    requires { Complete numbers.now layout × Coded numbers.now }
    ensures { Wrote most_text 0 (run_text numbers.now) output.old output.new result }
{
    let cells = layout.cells;
    let direction = directions_in(numbers);
    let cover = covers_in(numbers);
    let group = groups_in(numbers);
    let water = waters_in(numbers);
    let mut soil = [0u32; MOST_CELLS];
    let mut snow = [0u32; MOST_CELLS];
    let setup = Setup {
        grid: grid_in(numbers),
        climate: climate_in(numbers),
        covers: &numbers[FRONT_NUMBERS..layout.cells_from],
        direction: &direction[..cells],
        cover: &cover[..cells],
        group: &group[..cells],
        available: &water[..cells],
    };
    begun(
        numbers,
        layout,
        &setup,
        &mut soil[..cells],
        &mut snow[..cells],
        output,
    )
}
