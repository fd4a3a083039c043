// Where what a cell hands on or rejects goes: to another cell, or by a number past the cells.
ghost use Rattle.std.specs.Prelude.{not, ◌≡◌, ◌+◌, ◌≤◌, ◌<◌, get_or};
ghost use Rattle.theory.specs.Lists.{added_at};
ghost use Rattle.theory.specs.Sums.{given};
ghost use Rattle.recharge.specs.CellDay.{closed_by, gone_by};
ghost use Rattle.recharge.specs.Depths.{past32};

use records::{Depth, MOST_CELLS, index_of};
use survey::{CLOSED, OPEN_WATER, OVER_THE_EDGE};

#[derive(Clone, Copy)]
pub(crate) struct Way(pub(crate) u32);

impl Way {
    pub(crate) const OVER_THE_EDGE: Way = Way(OVER_THE_EDGE);

    pub(crate) const CLOSED: Way = Way(CLOSED);

    pub(crate) const OPEN_WATER: Way = Way(OPEN_WATER);
}

// What the soil rejects runs on with the runoff, but not from a closed depression.
pub(crate) fn runs_on(way: Way, rejected: Depth) -> Depth
    ensures { result.0 ≡ given (not (closed_by way.0)) rejected.0 }
{
    if way.0 == Way::CLOSED.0 {
        return Depth(0);
    }
    rejected
}

// There it leaves the balance, and only there.
pub(crate) fn left_in(way: Way, rejected: u32) -> u32
    ensures { result ≡ given (closed_by way.0) rejected }
{
    if way.0 == Way::CLOSED.0 {
        return rejected;
    }
    0
}

// All of it leaves the grid over the edge and from open water.
pub(crate) fn gone_from(way: Way, handed: u32) -> u32
    ensures { result ≡ given (gone_by way.0) handed }
{
    if way.0 == Way::OVER_THE_EDGE.0 {
        return handed;
    }
    if way.0 == Way::OPEN_WATER.0 {
        return handed;
    }
    0
}

// The cell to which the way leads, if it leads to one of the n, takes it up.
pub(crate) fn hand_on(n: usize, way: Way, handed: u32, arrived: &mut [u32; MOST_CELLS])
    requires { (n ≤ 4096) × (way.0 < n → get_or arrived.old way.0 0 + handed < past32) }
    ensures { arrived.new ≡ added_at n way.0 handed arrived.old }
{
    let j = index_of(way.0);
    if j < n {
        arrived[j] += handed;
    }
}
