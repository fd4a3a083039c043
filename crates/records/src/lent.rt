// Lent slices: one entry a cell, which is test 2. A lent number has 32 bits, and the rules work in 64.
ghost use Rattle.std.specs.Prelude.{◌≡◌};
ghost use Rattle.paper.specs.Refusals.{one_each};

use crate::quantities::Depth;

pub fn index_of(cell: u32) -> usize
    ensures { result ≡ cell }
{
    cell as usize
}

pub fn wide(cell: u32) -> u64
    ensures { result ≡ cell }
{
    cell as u64
}

pub fn depth(cell: u32) -> Depth
    ensures { result.0 ≡ cell }
{
    Depth(cell as u64)
}

// Test 2: each of the lent slices has one entry a cell.
pub fn one_each(n: usize, lengths: &[usize]) -> bool
    ensures { result ≡ one_each n lengths.now }
{
    for &length in lengths {
        if length != n {
            return false;
        }
    }
    true
}
