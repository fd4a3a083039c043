// The order of the cells, upslope first, by peeling in one array: entry i is 8192 times the number of cells that cell i still waits
// for, plus the cell at place i of a queue of cells that wait for none. Where no ring is left over, the array ends as the order.
ghost use Rattle.std.specs.Prelude.{◌≡◌, ◌≤◌, ◌<◌, ltb, length, get_or};
ghost use Rattle.theory.specs.Lists.{made_over};
ghost use Rattle.theory.specs.Lowest.{lowest};
ghost use Rattle.survey.specs.Charts.{next_as, WaysFit};
ghost use Rattle.survey.specs.Order.{OrderOrRing, waits, wait_for, Counted, Blank, GatheredHeld, PeeledHeld};
ghost use Rattle.records.specs.Places.{place_in};

use records::{MOST_CELLS, index_of};

// One cell to wait for: past every number of a cell.
const ONE: u32 = 8192;

// No cell waits yet, and no queue stands there. The array is lent as a slice, whose length the prover knows.
pub(crate) fn none_waiting(n: usize, order: &mut [u32])
    requires { n ≤ length order.old }
    ensures { order.new ≡ made_over n (λ i. 0) order.old }
{
    for i in 0..n {
        order[i] = 0;
    }
}

// The cell to which the way leads, if it leads to one, is to wait for one more.
pub(crate) fn wait_for(n: usize, way: u32, order: &mut [u32; MOST_CELLS])
    requires { (n ≤ 4096) × (way < n → get_or order.old way 0 ≤ 33554432) }
    ensures { order.new ≡ wait_for n way order.old }
{
    let j = index_of(way);
    if j < n {
        order[j] += ONE;
    }
}

// Puts the cells that wait for none into the queue, and says how many they are.
fn sources(n: usize, order: &mut [u32; MOST_CELLS]) -> usize
    requires { Blank n order.old }
    ensures { GatheredHeld n (waits order.old) n result order.new }
{
    let mut tail = 0;
    for i in 0..n {
        if order[i] < ONE {
            order[tail] += i as u32;
            tail += 1;
        }
    }
    tail
}

// Takes the cells that wait for none, and says how many came by: from each source down, for as long as the next cell waits for no other. That
// one joins the queue and is taken at once, out of a local: through the queue, each step would wait for the last one's stores. Its own way is
// read before the stores: entry j of both arrays can have the same place in a page, and a read just after such a store waits for it.
fn peel(n: usize, ways: &[u32; MOST_CELLS], order: &mut [u32; MOST_CELLS], sources: usize) -> usize
    requires { (WaysFit n ways.now) × (PeeledHeld n (next_as n ways.now) 0 sources sources order.old) }
    ensures { PeeledHeld n (next_as n ways.now) sources sources result order.new }
{
    let mut tail = sources;
    for head in 0..sources {
        let cell = index_of(order[head] % ONE);
        let mut way = ways[cell];
        loop {
            let j = index_of(way);
            if n <= j {
                break;
            }
            let onward = ways[j];
            let left = order[j] - ONE;
            order[j] = left;
            if ONE <= left {
                break;
            }
            order[tail] += way;
            tail += 1;
            way = onward;
        }
    }
    tail
}

// The lowest cell that waits for another.
fn leftover(n: usize, order: &[u32; MOST_CELLS]) -> Option<usize>
    requires { n ≤ 4096 }
    ensures { result ≡ place_in (lowest n (λ i. ltb 0 (waits order.now i))) }
{
    for i in 0..n {
        if ONE <= order[i] {
            return Some(i);
        }
    }
    None
}

// The array holds how many cells lead to each, and then the order.
pub(crate) fn put_in_order(
    n: usize,
    ways: &[u32; MOST_CELLS],
    order: &mut [u32; MOST_CELLS],
) -> Option<usize>
    requires { (WaysFit n ways.now) × (Counted n (next_as n ways.now) n order.old) }
    ensures { OrderOrRing n (next_as n ways.now) result order.new }
{
    let first = sources(n, order);
    let taken = peel(n, ways, order, first);
    if taken < n {
        return leftover(n, order);
    }
    None
}
