// Rule 8: what a shortfall takes from the soil.
ghost use Rattle.std.specs.Prelude.{◌≡◌, ◌≤◌, ◌<◌};
ghost use Rattle.paper.specs.Limits.{most_potential};
ghost use Rattle.paper.specs.Retention.{L, loss as rule8};
ghost use Rattle.covers.specs.Slots.{most_capacity};
ghost use Rattle.retention.specs.Retention.{table};

use records::{Depth, index_of, wide};
use retention::{KNOTS, LAST_KNOT, WHOLE, retained};

// L of the paper: the share of the soil's water that is lost, in parts of 1,048,576 × capacity. Nothing is rounded in it.
fn share_lost(f: &[u32; KNOTS], capacity: Depth, shortfall: Depth) -> u64
    requires { (0 < capacity.0) × (capacity.0 ≤ most_capacity) × (shortfall.0 ≤ most_potential) × (f.now ≡ table) }
    ensures { result ≡ L capacity.0 shortfall.0 }
{
    let most = capacity.0;
    // Both fit 32 bits, where a processor divides faster.
    let parts = (256 * shortfall.0) as u32;
    let holds = most as u32;
    let k = parts / holds;
    let rest = wide(parts - k * holds);
    let i = index_of(k);
    let here = wide(retained(f, i));
    if i < LAST_KNOT {
        // To the next knot F falls by its own 256th part.
        (WHOLE - here) * most + here / 256 * rest
    } else {
        (WHOLE - here) * most
    }
}

pub(crate) fn loss(f: &[u32; KNOTS], capacity: Depth, soil: Depth, shortfall: Depth) -> Depth
    requires { (capacity.0 ≤ most_capacity) × (soil.0 ≤ capacity.0) × (shortfall.0 ≤ most_potential) × (f.now ≡ table) }
    ensures { result.0 ≡ rule8 capacity.0 soil.0 shortfall.0 }
{
    let most = capacity.0;
    if most == 0 {
        return Depth(0);
    }
    let water = soil.0;
    // Two divisions round down to the same number as rule 8's one; what the first leaves mostly fits 32 bits, where a processor divides faster.
    Depth(water * share_lost(f, capacity, shortfall) / WHOLE / most)
}
