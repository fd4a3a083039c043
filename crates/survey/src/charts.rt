// The survey of a setup: tests 1 to 6, and what a day needs of it: every cell's slot, where it points, and the order of the cells.
ghost use Rattle.std.specs.Prelude.{◌≡◌};
ghost use Rattle.paper.specs.Day.{check_of};
ghost use Rattle.records.specs.Grids.{setup_of};
ghost use Rattle.records.specs.Verdicts.{verdict_in};
ghost use Rattle.survey.specs.Charts.{Wiped, Surveyable, Chart, Surveyed};

use crate::cells::lay_cells;
use crate::order::put_in_order;
use crate::ways::CLOSED;
use covers::{CODES, read_covers};
use records::{MOST_CELLS, Refusal, Setup, one_each};

// Tests 3 to 6, for a grid within its limits and one entry a cell.
fn chart(
    setup: &Setup<'_>,
    slots: &mut [u8; MOST_CELLS],
    ways: &mut [u32; MOST_CELLS],
    order: &mut [u32; MOST_CELLS],
) -> Result<(), Refusal>
    requires { Surveyable (setup_of setup.now) }
    ensures { Chart (setup_of setup.now)
        slots.old ways.old result slots.new ways.new order.new }
{
    let mut index = [0u8; CODES];
    read_covers(setup.covers, &mut index)?;
    let cell = lay_cells(
        setup.grid.width,
        setup.grid.height,
        &index,
        setup.covers,
        setup.direction,
        setup.cover,
        setup.group,
        setup.available,
        slots,
        ways,
        order,
    );
    if let Some(i) = cell {
        return Err(Refusal::CellNumbers(i));
    }
    let ring = put_in_order(setup.direction.len(), ways, order);
    if let Some(i) = ring {
        return Err(Refusal::Ring(i));
    }
    if !setup.climate.fits() {
        return Err(Refusal::Climate);
    }
    Ok(())
}

// Arrays that hold nothing, as a survey that refuses leaves them.
fn wipe(slots: &mut [u8; MOST_CELLS], ways: &mut [u32; MOST_CELLS], order: &mut [u32; MOST_CELLS])
    ensures { Wiped slots.new ways.new order.new }
{
    *slots = [0u8; MOST_CELLS];
    *ways = [CLOSED; MOST_CELLS];
    *order = [0u32; MOST_CELLS];
}

// Tests 1 to 6. The cells' slots, ways and order are written over whatever the arrays held, and nothing reads past the cells. Where a test fails, the
// arrays are wiped.
pub fn survey(
    setup: &Setup<'_>,
    slots: &mut [u8; MOST_CELLS],
    ways: &mut [u32; MOST_CELLS],
    order: &mut [u32; MOST_CELLS],
) -> Result<(), Refusal>
    ensures { Surveyed (setup_of setup.now)
        slots.old ways.old result slots.new ways.new order.new }
{
    if !setup.grid.fits() {
        wipe(slots, ways, order);
        return Err(Refusal::Grid);
    }
    let lengths = [
        setup.direction.len(),
        setup.cover.len(),
        setup.group.len(),
        setup.available.len(),
    ];
    if !one_each(setup.grid.cells(), &lengths) {
        wipe(slots, ways, order);
        return Err(Refusal::Lent);
    }
    match chart(setup, slots, ways, order) {
        Ok(()) => Ok(()),
        Err(why) => {
            wipe(slots, ways, order);
            Err(why)
        }
    }
}

// The setup check.
pub fn check(setup: &Setup<'_>) -> Result<(), Refusal>
    ensures { result ≡ verdict_in (check_of
        (setup_of setup.now)) }
{
    let mut slots = [0u8; MOST_CELLS];
    let mut ways = [0u32; MOST_CELLS];
    let mut order = [0u32; MOST_CELLS];
    survey(setup, &mut slots, &mut ways, &mut order)
}
