// What a cell's soil and cover can take, by its own numbers.
ghost use Rattle.std.specs.Prelude.{◌≡◌, ◌+◌, ◌*◌, ◌≤◌, ◌<◌, length, get_or};
ghost use Rattle.paper.specs.Covers.{entries, number_of};
ghost use Rattle.reasons.specs.Grounds.{entry_for, ground_as, ground_by};

use covers::{ENTRY_NUMBERS, LARGEST_RECHARGES, OPEN_FLAG, ROOT_DEPTHS, capacity};
use records::{Depth, depth, index_of};

#[derive(Clone, Copy)]
pub(crate) struct Ground {
    pub(crate) open_water: bool,
    pub(crate) capacity: Depth,
    pub(crate) largest_recharge: Depth,
}

// The entry of a code; past the last one where the table does not have it.
fn entry_for(covers: &[u32], code: u32) -> usize
    ensures { (result ≡ entry_for covers.now code) × (16 * result ≤ length covers.now) }
{
    let count = covers.len() / ENTRY_NUMBERS;
    for e in 0..count {
        if covers[ENTRY_NUMBERS * e] == code {
            return e;
        }
    }
    count
}

// Number k of an entry; 0 where the table ends before it.
fn number_of(covers: &[u32], entry: usize, k: usize) -> u32
    requires { (16 * entry ≤ length covers.now) × (k ≤ 4294967306) }
    ensures { result ≡ number_of covers.now entry k }
{
    let at = ENTRY_NUMBERS * entry + k;
    if covers.len() <= at {
        return 0;
    }
    covers[at]
}

#[tactic(auto, unfolding(crate::specs::Grounds::ground_by))]
pub(crate) fn ground_of(covers: &[u32], code: u32, group: u32, available: u32) -> Ground
    ensures { ground_as result ≡ ground_by covers.now code group available }
{
    let entry = entry_for(covers, code);
    let of_group = index_of(group);
    let roots = number_of(covers, entry, ROOT_DEPTHS + of_group);
    let largest = number_of(covers, entry, LARGEST_RECHARGES + of_group);
    Ground {
        open_water: number_of(covers, entry, OPEN_FLAG) == 1,
        capacity: capacity(available, roots),
        largest_recharge: depth(largest),
    }
}

// Of one of the cells.
pub(crate) fn ground_at(
    covers: &[u32],
    cover: &[u32],
    group: &[u32],
    available: &[u32],
    cell: usize,
) -> Ground
    requires { (cell < length cover.now) × (cell < length group.now) × (cell < length available.now) }
    ensures { ground_as result ≡ ground_by covers.now (get_or cover.now cell 0) (get_or group.now cell 0) (get_or available.now cell 0) }
{
    ground_of(covers, cover[cell], group[cell], available[cell])
}
