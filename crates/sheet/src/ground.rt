// The setup: four grids and the cover file, as the text that `balance` begins with.
ghost use Rattle.intake.specs.Input.{Within};

use crate::folder::{Folder, Place, Source};
use crate::wrong::{Measure, What, Wrong};
use desk::{Fault, GridFile};
use grids::{Header, read_grid};
use intake::Unread;
use records::MOST_CELLS;
use std::rt::Files;

// The setup's text, and the grids' header.
#[derive(Clone, Copy)]
pub(crate) struct Ground<'a> {
    pub(crate) text: &'a [u8],
    pub(crate) header: Header,
}

const LONGEST_GRID: usize = 262144;

const LONGEST_COVERS: usize = 65536;

// A number for no data that no depth can equal.
const NO_DATA: i32 = -9999;

// What is written has the header of the grids, but a depth could equal a number for no data that is not below zero.
fn written_header(direction: &[u8]) -> Header {
    let mut cells = [0i32; MOST_CELLS];
    let mut header = read_grid(direction, &mut cells).unwrap_or(Header::none());
    if 0 <= header.no_data {
        header.no_data = NO_DATA;
    }
    header
}

// A grid that is not over the same cells as the first.
fn other(folder: Folder<'_>, file: GridFile, measure: Measure) -> Wrong<'_> {
    let first = folder.source(Source::Direction);
    Wrong::At(
        folder.source(Source::grid(file)),
        What::Other(measure, first),
    )
}

fn faulty(folder: Folder<'_>, fault: Fault) -> Wrong<'_> {
    let covers = folder.source(Source::Covers);
    match fault {
        Fault::Refused(file, place) => Wrong::At(
            folder.source(Source::grid(file)),
            What::NoGrid(place),
        ),
        Fault::Size(file) => other(folder, file, Measure::Size),
        Fault::Corner(file) => other(folder, file, Measure::Corner),
        Fault::CellSize(file) => other(folder, file, Measure::CellSize),
        Fault::Covers => Wrong::At(covers, What::NoCovers),
        Fault::TooLong(count) => Wrong::At(covers, What::SetupTooLong(count)),
    }
}

fn read_at(
    rt: &impl Files,
    place: Place<'_>,
    longest: usize,
    room: &mut [u8],
) -> Result<usize, Unread>
    ensures { Within result room.new }
{
    intake::read_file(rt, place.path()?.as_str().as_bytes(), longest, room)
}

// Reads a file to the front of the room, which has a place more than the longest, and hands on what is behind it.
pub(crate) fn read_front<'a, 'r>(
    rt: &impl Files,
    place: Place<'a>,
    longest: usize,
    room: &'r mut [u8],
) -> Result<(&'r [u8], &'r mut [u8]), Wrong<'a>> {
    let asked = longest.saturating_add(1).min(room.len());
    let (front, rest) = room.split_at_mut(asked);
    match read_at(rt, place, longest, front) {
        Ok(count) => Ok((&front[..count], rest)),
        Err(why) => Err(Wrong::At(place, What::Unread(why))),
    }
}

// Reads the five files to a lent room, and makes the setup's text of them in another.
pub(crate) fn read_ground<'a, 't>(
    rt: &impl Files,
    folder: Folder<'a>,
    room: &mut [u8],
    text: &'t mut [u8],
) -> Result<Ground<'t>, Wrong<'a>> {
    let (direction, room) = read_front(rt, folder.source(Source::Direction), LONGEST_GRID, room)?;
    let (cover, room) = read_front(rt, folder.source(Source::Cover), LONGEST_GRID, room)?;
    let (group, room) = read_front(rt, folder.source(Source::Group), LONGEST_GRID, room)?;
    let (water, room) = read_front(rt, folder.source(Source::Water), LONGEST_GRID, room)?;
    let (covers, _) = read_front(rt, folder.source(Source::Covers), LONGEST_COVERS, room)?;
    match desk::setup_text(direction, cover, group, water, covers, b"", text) {
        Ok(count) => Ok(Ground {
            text: &text[..count],
            header: written_header(direction),
        }),
        Err(fault) => Err(faulty(folder, fault)),
    }
}
