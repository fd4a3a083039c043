// The cells' own numbers, test 4, where each cell points, and how many lead to it.
ghost use Rattle.std.specs.Prelude.{◌≡◌, ◌*◌, ◌≤◌, ◌<◌};
ghost use Rattle.survey.specs.Cells.{slot_by, slot_at, IndexFits, way_from, way_at, Layable, LaidOrBad};

use crate::order::{none_waiting, wait_for};
use crate::ways::{OPEN_WATER, way};
use covers::{CODES, ENTRY_NUMBERS, MOST_SLOTS, OPEN_FLAG, small_index};
use records::{MOST_CELLS, index_of};

// Past every slot.
const NO_SLOT: usize = MOST_SLOTS;

// Soil groups A to D are 1 to 4.
const GROUPS: u32 = 4;

// In hundredths of an inch per foot.
const MOST_AVAILABLE_WATER: u32 = 600;

// A cell's slot, 4 × its cover's entry + its group - 1, where its three numbers are within their limits.
fn slot(index: &[u8; CODES], code: u32, group: u32, available: u32) -> usize
    requires { IndexFits index.now }
    ensures { (result ≡ slot_by index.now code group available) × (result ≤ 256) }
{
    let at = index_of(code);
    if CODES <= at {
        return NO_SLOT;
    }
    let entry = small_index(index[at]);
    if entry == 0 {
        return NO_SLOT;
    }
    if !(((1 <= group) & (group <= GROUPS)) & (available <= MOST_AVAILABLE_WATER)) {
        return NO_SLOT;
    }
    4 * (entry - 1) + (index_of(group) - 1)
}

// Where a cell of that row and column points: open water nowhere, whatever its byte.
fn cell_way(width: u32, height: u32, row: u32, column: u32, lake: u32, byte: u32) -> u32
    requires { (row < height) × (column < width) × (width * height ≤ 4096) }
    ensures { result ≡ way_from width height row column lake byte }
{
    if lake == 1 {
        return OPEN_WATER;
    }
    way(width, height, row, column, byte)
}

// Each cell's slot, where it points, and how many cells lead to each, in one pass row by row; or the lowest cell whose numbers do not fit.
pub(crate) fn lay_cells(
    width: u32,
    height: u32,
    index: &[u8; CODES],
    covers: &[u32],
    direction: &[u32],
    cover: &[u32],
    group: &[u32],
    available: &[u32],
    slots: &mut [u8],
    ways: &mut [u32],
    order: &mut [u32; MOST_CELLS],
) -> Option<usize>
    requires { Layable width height index.now covers.now direction.now cover.now group.now available.now
        slots.old ways.old }
    ensures { LaidOrBad (width * height)
        (slot_at index.now cover.now group.now available.now)
        (way_at width height covers.now
        (slot_at index.now cover.now group.now available.now) direction.now)
        result slots.old slots.new ways.old ways.new order.new }
{
    let n = cover.len();
    none_waiting(n, order);
    let mut row = 0;
    let mut column = 0;
    for i in 0..n {
        let found = slot(index, cover[i], group[i], available[i]);
        if found == NO_SLOT {
            return Some(i);
        }
        slots[i] = found as u8;
        let lake = covers[ENTRY_NUMBERS * (found / 4) + OPEN_FLAG];
        let way = cell_way(width, height, row, column, lake, direction[i]);
        ways[i] = way;
        wait_for(n, way, order);
        column += 1;
        if column == width {
            column = 0;
            row += 1;
        }
    }
    None
}
