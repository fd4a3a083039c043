// The curve numbers of rule 5, read off runoffs: documents 000 and 002 print such tables.
ghost use Rattle.std.specs.Prelude.{◌*◌, ◌≤◌, ◌≡◌};

use crate::one_cell::{Cell, Ground, MILD, remembered, weather};
use records::{Refusal, wide};

fn times(x: u64, y: u64) -> u64
    requires { (x ≤ 40000000) × (y ≤ 40000000) }
    ensures { result ≡ x * y }
{
    x * y
}

// Rule 6 at 40 inches of water, to read a curve number off a runoff.
fn flows(c: u64) -> u64
    requires { (5 ≤ c) × (c ≤ 100) }
{
    let a = c * 420000 - 2000000;
    let b = c * 320000 + 8000000;
    times(a, a) / times(c, b)
}

// The curve number with this runoff. At 40 inches no two curve numbers flow alike.
fn read_off(runoff: u64) -> Option<u64> {
    (5..=100).find(|&c| flows(c) == runoff)
}

// The curve number that the library takes for the table's n after this much rain in the five days before; 0 where none has the runoff. The soil is deep and dry,
// so that it rejects nothing and all that flows out is runoff.
fn taken(n: u32, sum: u64) -> Result<u64, Refusal> {
    let ground = Ground {
        curve: n,
        root: 1000,
        water: 600,
    };
    let cell = Cell::DRY.lived(ground, remembered(sum, 0), weather(400000, MILD, 0))?;
    Ok(read_off(wide(cell.outflow)).unwrap_or(0))
}

pub(crate) fn curve_numbers(rt: &impl Print) -> Result<(), Refusal> {
    for n in 30..=100 {
        let dry = taken(n, 13999)?;
        let average = taken(n, 14000)?;
        let wet = taken(n, 21001)?;
        let _ = println!(rt; "curve {n} {dry} {average} {wet}");
    }
    Ok(())
}
