// Test 9: each cell's stores, found by its slot, and then what a state has besides them.
ghost use Rattle.std.specs.Prelude.{cond, not, ◌≡◌, ◌≤◌, ◌<◌, leb, length};
ghost use Rattle.theory.specs.Lists.{made};
ghost use Rattle.theory.specs.Lowest.{lowest};
ghost use Rattle.paper.specs.Limits.{most_snow};
ghost use Rattle.paper.specs.Refusals.{verdict};
ghost use Rattle.records.specs.Grids.{grid_as};
ghost use Rattle.records.specs.Past.{past_as};
ghost use Rattle.records.specs.Places.{place_in};
ghost use Rattle.records.specs.Verdicts.{verdict_in};
ghost use Rattle.covers.specs.Slots.{open_at, group_number_at};
ghost use Rattle.stores.specs.States.{stores_from, stores_at, state_tests};

use covers::{MOST_SLOTS, is_open, root_depths, small_index};
use records::{Depth, Grid, MOST_CELLS, Past, Refusal, one_each, wide};

// A lent number has 32 bits, so that a product of two fits 64.
pub(crate) fn within_32(x: u32) -> u64
    ensures { (result ≡ x) × (result < 4294967296) }
{
    x as u64
}

// A store without snow fits everywhere, so that the table is looked into only where snow lies. On open water none may lie.
fn snow_fits(covers: &[u32], slot: usize, snow: u32) -> bool
    ensures { result ≡ leb snow (cond (open_at covers.now slot) 0 most_snow) }
{
    if snow == 0 {
        return true;
    }
    if is_open(covers, slot) {
        return false;
    }
    wide(snow) <= Depth::MOST_SNOW.0
}

// The soil's limit needs no branch on open water, where the root depth is 0: a processor often guesses a lake wrong.
fn stores_fit(
    covers: &[u32],
    roots: &[u32; MOST_SLOTS],
    slot: u8,
    available: u32,
    soil: u32,
    snow: u32,
) -> bool
    requires { roots.now ≡ made 256 (group_number_at covers.now 11) }
    ensures { result ≡ stores_from covers.now slot available soil snow }
{
    let at = small_index(slot);
    (wide(soil) <= within_32(available) * within_32(roots[at])) & snow_fits(covers, at, snow)
}

// The lowest cell with a store outside its limits.
fn bad_store(
    covers: &[u32],
    slots: &[u8; MOST_CELLS],
    available: &[u32],
    soil: &[u32],
    snow: &[u32],
) -> Option<usize>
    requires { (length available.now ≤ 4096) × (length soil.now ≡ length available.now) × (length snow.now ≡ length available.now) }
    ensures { result ≡ place_in (lowest (length available.now)
        (λ i. not (stores_at covers.now slots.now available.now soil.now snow.now i))) }
{
    let roots = root_depths(covers);
    for i in 0..available.len() {
        if !stores_fit(covers, &roots, slots[i], available[i], soil[i], snow[i]) {
            return Some(i);
        }
    }
    None
}

// Test 9, after tests 1 and 2 on the slices that it looks at. Slots that the table lacks have no roots and are not open water.
pub fn state_verdict(
    grid: Grid,
    covers: &[u32],
    slots: &[u8; MOST_CELLS],
    available: &[u32],
    soil: &[u32],
    snow: &[u32],
    past: Past,
) -> Result<(), Refusal>
    ensures { result ≡ verdict_in (verdict (state_tests (grid_as grid) covers.now slots.now available.now
        soil.now snow.now (past_as past))) }
{
    if !grid.fits() {
        return Err(Refusal::Grid);
    }
    let n = grid.cells();
    if !one_each(n, &[available.len(), soil.len(), snow.len()]) {
        return Err(Refusal::Lent);
    }
    let store = bad_store(covers, slots, available, soil, snow);
    if let Some(i) = store {
        return Err(Refusal::StateAt(i));
    }
    if !past.fits() {
        return Err(Refusal::StateAt(n));
    }
    Ok(())
}
