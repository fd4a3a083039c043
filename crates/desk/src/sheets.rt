// What can be wrong with the four grids.
ghost use Rattle.std.specs.Prelude.{◌&&◌, ◌≡◌, eqb};
ghost use Rattle.grids.specs.Headers.{same};
ghost use Rattle.grids.specs.Given.{text_as, header_as, verdict_as};
ghost use Rattle.desk.specs.Faults.{headed};
ghost use Rattle.desk.specs.Sheets.{test_read, test_match, test_grids, header_told, sheet_as};

use crate::faults::{Fault, GridFile};
use grids::{BadGrid, Header, Measure};
use records::Grid;

#[tactic(auto, using(crate::proofs::SheetLaws::same_pointwise))]
fn same_text(text: Measure, other: Measure) -> bool
    ensures { result ≡ same (text_as text) (text_as other) }
{
    text.text() == other.text()
}

#[tactic(auto, unfolding(crate::specs::Faults::headed, crate::specs::Sheets::test_read, grids::specs::Judging::grid_place))]
fn test_read(file: GridFile, grid: Result<Header, BadGrid>) -> Result<Header, Fault>
    ensures { result ≡ headed (test_read file (verdict_as grid)) (header_told grid) }
{
    grid.map_err(|bad| Fault::Refused(file, bad.place()))
}

// By its two numbers, since a Grid has no `==`.
fn same_size(grid: Grid, first: Grid) -> bool
    ensures { result ≡ (eqb grid.width first.width && eqb grid.height first.height) }
{
    (grid.width == first.width) & (grid.height == first.height)
}

fn same_corner(header: Header, first: Header) -> bool
    ensures { result ≡ (same (text_as header.x_corner) (text_as first.x_corner) && same (text_as header.y_corner) (text_as first.y_corner)) }
{
    same_text(header.x_corner, first.x_corner) & same_text(header.y_corner, first.y_corner)
}

fn test_match(file: GridFile, header: Header, first: Header) -> Result<(), Fault>
    ensures { result ≡ test_match file (header_as header) (header_as first) }
{
    if !same_size(header.grid, first.grid) {
        return Err(Fault::Size(file));
    }
    if !same_corner(header, first) {
        return Err(Fault::Corner(file));
    }
    if !same_text(header.cell_size, first.cell_size) {
        return Err(Fault::CellSize(file));
    }
    Ok(())
}

// Each is read, then each is compared with the first, whose header is handed back.
pub(crate) fn test_grids(
    direction: Result<Header, BadGrid>,
    cover: Result<Header, BadGrid>,
    group: Result<Header, BadGrid>,
    water: Result<Header, BadGrid>,
) -> Result<Header, Fault>
    ensures { result ≡ headed (test_grids (sheet_as direction) (sheet_as cover) (sheet_as group) (sheet_as water)) (header_told direction) }
{
    let first = test_read(GridFile::Direction, direction)?;
    let second = test_read(GridFile::Cover, cover)?;
    let third = test_read(GridFile::Group, group)?;
    let fourth = test_read(GridFile::Water, water)?;
    test_match(GridFile::Cover, second, first)?;
    test_match(GridFile::Group, third, first)?;
    test_match(GridFile::Water, fourth, first)?;
    Ok(first)
}
