// What the cover table says of a slot, 4 × an entry + a soil group - 1. Where the table has no such number it says 0.
ghost use Rattle.std.specs.Prelude.{cond, ◌≡◌, ◌+◌, ◌*◌, ◌/◌, ◌%◌, ◌≤◌, ◌<◌};
ghost use Rattle.theory.specs.Lists.{made};
ghost use Rattle.paper.specs.Covers.{number_of};
ghost use Rattle.covers.specs.Slots.{open_at, group_number_at};

use crate::table::{ENTRY_NUMBERS, MOST_ENTRIES, OPEN_FLAG, ROOT_DEPTHS};

// Four slots an entry.
pub const MOST_SLOTS: usize = 4 * MOST_ENTRIES;

// Open water has no soil: no roots, and no recharge.
const NO_SOIL: u32 = 0;

// A slot has 8 bits, since 64 entries have 256 slots; so has an entry of the index.
pub fn small_index(x: u8) -> usize
    ensures { (result ≡ x) × (result < 256) }
{
    x as usize
}

// Number k of the slot's entry.
pub(crate) fn number_at(covers: &[u32], slot: usize, k: usize) -> u32
    requires { k < 16 }
    ensures { result ≡ number_of covers.now (slot / 4) k }
{
    let e = slot / 4;
    if covers.len() / ENTRY_NUMBERS < e {
        return 0;
    }
    let at = ENTRY_NUMBERS * e + k;
    if covers.len() <= at {
        return 0;
    }
    covers[at]
}

pub fn is_open(covers: &[u32], slot: usize) -> bool
    ensures { result ≡ open_at covers.now slot }
{
    number_at(covers, slot, OPEN_FLAG) == 1
}

// Number k of the slot's entry; none on open water.
fn soil_number(covers: &[u32], lake: bool, slot: usize, k: usize) -> u32
    requires { k < 16 }
    ensures { result ≡ cond lake 0 (number_of covers.now (slot / 4) k) }
{
    if lake {
        return NO_SOIL;
    }
    number_at(covers, slot, k)
}

// The root depth of every slot, an entry at a time. Only the slots of which the table has a number are looked at: the others have none.
pub fn root_depths(covers: &[u32]) -> [u32; MOST_SLOTS]
    ensures { result ≡ made 256 (group_number_at covers.now 11) }
{
    let mut roots = [0u32; MOST_SLOTS];
    let begun = (covers.len() + (ENTRY_NUMBERS - 1)) / ENTRY_NUMBERS;
    for entry in 0..begun.min(MOST_ENTRIES) {
        let slot = 4 * entry;
        let lake = is_open(covers, slot);
        roots[slot] = soil_number(covers, lake, slot, ROOT_DEPTHS + 1);
        roots[slot + 1] = soil_number(covers, lake, slot, ROOT_DEPTHS + 2);
        roots[slot + 2] = soil_number(covers, lake, slot, ROOT_DEPTHS + 3);
        roots[slot + 3] = soil_number(covers, lake, slot, ROOT_DEPTHS + 4);
    }
    roots
}
