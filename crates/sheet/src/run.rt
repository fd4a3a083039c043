// From a folder to its sheet: the setup taken up, the days run over it, the texts worked out, and only then files written.
ghost use Rattle.std.specs.Prelude.{◌≤◌};
ghost use Rattle.text.specs.Run.{Complete};

use crate::folder::Folder;
use crate::ground::{Ground, read_ground};
use crate::refusals::bad_cover_word;
use crate::setup::{Outcome, Site};
use crate::texts::put_texts;
use crate::weather_file::{Lent, day_numbers, run_weather};
use crate::writing::write_files;
use crate::wrong::{What, Wrong};
use grids::Header;
use intake::filled;
use lines::MOST_NUMBERS;
use records::{MOST_CELLS, Setup};
use std::rt::Files;
use text::{
    FRONT_NUMBERS, Layout, climate_in, covers_in, directions_in, grid_in, groups_in, take_up,
    waters_in,
};

// Room for 20,000 days: seven numbers of each, and seven totals.
const DAY_ROOM: usize = 140000;

// Five sums of each cell.
const SUM_ROOM: usize = 20480;

// Room for the ten files of the longest weather over the most cells.
const SHEET_ROOM: usize = 3276800;

// Room for the setup's text.
const SETUP_ROOM: usize = 65536;

fn worked<'a>(
    rt: &(impl Files + Print + Eprint),
    folder: Folder<'a>,
    site: &Site<'_>,
    soil: &mut [u32],
    snow: &mut [u32],
    room: &mut [u8],
) -> Result<(), Wrong<'a>> {
    let mut days = filled::<i32, DAY_ROOM>(0);
    let mut totals = filled::<u64, DAY_ROOM>(0);
    let mut sums = filled::<u64, SUM_ROOM>(0);
    let lent = Lent {
        days: &mut days,
        totals: &mut totals,
        sums: &mut sums,
        soil: &mut *soil,
        snow: &mut *snow,
    };
    let count = run_weather(rt, folder, site, lent, room)?;
    let numbers = day_numbers(count, DAY_ROOM);
    let outcome = Outcome {
        days: &days[..numbers],
        totals: &totals[..numbers],
        sums: &sums,
        soil,
        snow,
        stored_at_start: site.stored_at_start(),
    };
    match put_texts(room, site, &outcome) {
        Some(texts) => write_files(rt, folder, texts),
        None => Err(Wrong::At(folder.sheet(), What::SheetTooLong)),
    }
}

// No more than the arrays hold.
fn cells_in(numbers: &[u32], layout: Layout) -> usize
    requires { Complete numbers.now layout }
    ensures { result ≤ 4096 }
{
    layout.cells
}

// Numbers that are ready for the run.
fn started<'a>(
    rt: &(impl Files + Print + Eprint),
    folder: Folder<'a>,
    header: Header,
    numbers: &[u32],
    layout: Layout,
    room: &mut [u8],
) -> Result<(), Wrong<'a>>
    requires { Complete numbers.now layout }
{
    let cells = cells_in(numbers, layout);
    let direction = directions_in(numbers);
    let cover = covers_in(numbers);
    let group = groups_in(numbers);
    let water = waters_in(numbers);
    let setup = Setup {
        grid: grid_in(numbers),
        climate: climate_in(numbers),
        covers: &numbers[FRONT_NUMBERS..layout.cells_from],
        direction: &direction[..cells],
        cover: &cover[..cells],
        group: &group[..cells],
        available: &water[..cells],
    };
    let site = Site { header, setup };
    let mut soil = [0u32; MOST_CELLS];
    let mut snow = [0u32; MOST_CELLS];
    worked(
        rt,
        folder,
        &site,
        &mut soil[..cells],
        &mut snow[..cells],
        room,
    )
}

// The setup's text, with no days behind it.
fn taken_up<'a>(
    rt: &(impl Files + Print + Eprint),
    folder: Folder<'a>,
    ground: Ground<'_>,
    room: &mut [u8],
) -> Result<(), Wrong<'a>> {
    let Ground { text, header } = ground;
    let mut numbers = [0u32; MOST_NUMBERS];
    match take_up(text, &mut numbers) {
        Err(bad) => Err(bad_cover_word(folder, text, bad.place as usize)),
        Ok(layout) => { started(rt, folder, header, &numbers[..layout.numbers], layout, room) }
    }
}

// One large room serves for all that is read, and then for all that is written: what was read from it stands in numbers by then.
pub(crate) fn sheet_of<'a>(
    rt: &(impl Files + Print + Eprint),
    folder: Folder<'a>,
) -> Result<(), Wrong<'a>> {
    let mut room = filled::<u8, SHEET_ROOM>(0);
    let mut text = filled::<u8, SETUP_ROOM>(0);
    let ground = read_ground(rt, folder, &mut room, &mut text)?;
    taken_up(rt, folder, ground, &mut room)
}
