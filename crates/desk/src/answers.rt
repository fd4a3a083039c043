// What is answered to the desk's files.
ghost use Rattle.std.specs.Prelude.{◌≤◌};
ghost use Rattle.paper.specs.Limits.{most_cells};
ghost use Rattle.paper.specs.Setup.{cells_of};
ghost use Rattle.records.specs.Grids.{grid_as};
ghost use Rattle.desk.specs.Texts.{files_by, cells_as, setup_text};
ghost use Rattle.desk.specs.Answers.{Fitted, Sets};

use crate::cover_file::is_cover_file;
use crate::faults::Fault;
use crate::sheets::test_grids;
use crate::texts::{Cells, put_text};
use grids::read_grid;
use records::{Grid, MOST_CELLS};

// Where the text would end is seen first, by writing it into nothing: an output that is too short stays as it was.
fn write_text(
    grid: Grid,
    covers: &[u8],
    cells: Cells,
    weather: &[u8],
    output: &mut [u8],
) -> Result<usize, Fault>
    requires { cells_of (grid_as grid) ≤ most_cells }
    ensures { Fitted (setup_text (grid_as grid) covers.now (cells_as cells.entry) weather.now)
        output.old output.new result }
{
    let end = put_text(&mut output[..0], grid, covers, cells, weather);
    if output.len() < end {
        return Err(Fault::TooLong(end));
    }
    put_text(output, grid, covers, cells, weather);
    Ok(end)
}

// What balance is to read of the desk's files: the grids of direction, cover, group and water, the cover file and the weather file. How many
// bytes of it stand at the front of the output.
pub fn setup_text(
    direction: &[u8],
    cover: &[u8],
    group: &[u8],
    water: &[u8],
    covers: &[u8],
    weather: &[u8],
    output: &mut [u8],
) -> Result<usize, Fault>
    ensures { Sets (files_by direction.now cover.now group.now water.now covers.now weather.now)
        output.old output.new result }
{
    let mut directions = [0i32; MOST_CELLS];
    let mut codes = [0i32; MOST_CELLS];
    let mut groups = [0i32; MOST_CELLS];
    let mut waters = [0i32; MOST_CELLS];
    let first = read_grid(direction, &mut directions);
    let second = read_grid(cover, &mut codes);
    let third = read_grid(group, &mut groups);
    let fourth = read_grid(water, &mut waters);
    let header = test_grids(first, second, third, fourth)?;
    if !is_cover_file(covers) {
        return Err(Fault::Covers);
    }
    write_text(
        header.grid,
        covers,
        Cells {
            direction: &directions,
            cover: &codes,
            group: &groups,
            water: &waters,
        },
        weather,
        output,
    )
}
