// Refusal 12, of a grid that is read and of one that is written alike.
ghost use Rattle.std.specs.Prelude.{◌≡◌};
ghost use Rattle.grids.specs.Judging.{judged as judgedBy, refused, grid_number, grid_place};
ghost use Rattle.grids.specs.Given.{header_as, verdict_as};

use crate::headers::Header;

const BAD_GRID: u32 = 12;

// A grid that is refused, at a cell or at 0.
#[derive(Clone, Copy, Debug, PartialEq, Eq)]
pub struct BadGrid(usize);

impl BadGrid {
    #[tactic(auto, unfolding(crate::specs::Judging::grid_number))]
    pub fn number(self) -> u32
        ensures { result ≡ grid_number (refused self.0) }
    {
        BAD_GRID
    }

    #[tactic(auto, unfolding(crate::specs::Judging::grid_place))]
    pub fn place(self) -> usize
        ensures { result ≡ grid_place (refused self.0) }
    {
        self.0
    }
}

// By the header, the count of the cells before the first that is refused, the count of all, and whether the buffer is long enough.
#[tactic(auto, unfolding(crate::specs::Judging::judged))]
pub(crate) fn judged(
    header: Header,
    passing: usize,
    count: usize,
    enough: bool,
) -> Result<(), BadGrid>
    ensures { verdict_as result ≡ judgedBy (header_as header) passing count enough }
{
    if !header.fits() {
        return Err(BadGrid(0));
    }
    if passing < count {
        return Err(BadGrid(passing));
    }
    if (count == header.grid.cells()) & enough {
        return Ok(());
    }
    Err(BadGrid(0))
}
