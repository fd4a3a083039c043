// Test 10: whether the day's snowfall would take a cell's store past its limit.
ghost use Rattle.std.specs.Prelude.{◌≡◌, ◌+◌, ltb};
ghost use Rattle.paper.specs.Limits.{most_snow};
ghost use Rattle.paper.specs.Refusals.{verdict};
ghost use Rattle.records.specs.Verdicts.{verdict_in};
ghost use Rattle.stores.specs.Snowfall.{fall_by, snow_tests};

use crate::states::within_32;
use covers::{PLOT_NUMBERS, PLOT_ROOM, SNOWFALL, small_index};
use records::{Depth, MOST_CELLS, Refusal};

fn is_deep(plots: &[u32; PLOT_ROOM], slot: u8, snow: u32) -> bool
    ensures { result ≡ ltb most_snow (snow + fall_by plots.now slot) }
{
    let at = small_index(slot);
    Depth::MOST_SNOW.0 < within_32(snow) + within_32(plots[PLOT_NUMBERS * at + SNOWFALL])
}

// The lowest cell whose store the snowfall of its slot would take past its limit. There are slots for 4,096 stores: no store past them is looked at.
pub fn snow_verdict(
    plots: &[u32; PLOT_ROOM],
    slots: &[u8; MOST_CELLS],
    snow: &[u32],
) -> Result<(), Refusal>
    ensures { result ≡ verdict_in (verdict (snow_tests plots.now slots.now snow.now)) }
{
    for i in 0..snow.len().min(MOST_CELLS) {
        if is_deep(plots, slots[i], snow[i]) {
            return Err(Refusal::Snowfall(i));
        }
    }
    Ok(())
}
