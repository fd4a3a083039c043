// Rule 6: runoff by the curve number.
ghost use Rattle.std.specs.Prelude.{◌≡◌, ◌≤◌, ◌<◌};
ghost use Rattle.paper.specs.Limits.{most_curve_number};
ghost use Rattle.paper.specs.Runoff.{runoff as rule6};
ghost use Rattle.recharge.specs.Depths.{water_limit};

use records::{CurveNumber, Depth};

// The square of the paper's a can pass 64 bits. With k for 100,000(100 - c), b is a + k, and a² / b is b + k² / b - 2k.
pub(crate) fn runoff(c: CurveNumber, w: Depth) -> Depth
    requires { (c.0 ≤ most_curve_number) × (w.0 < water_limit) }
    ensures { result.0 ≡ rule6 c.0 w.0 }
{
    let n = c.0;
    let water = w.0;
    if n * (water + 20000) <= 2000000 {
        return Depth(0);
    }
    let k = 100000 * (100 - n);
    let b = n * water + 8000000 - 80000 * n;
    Depth((b + k * k / b - 2 * k) / n)
}
