// The texts of the sheet's ten files, one behind another in a lent room. Where one does not fit, there are none.
use crate::setup::{Outcome, Site};
use crate::writing::SheetFile;
use grids::{Header, write_inches};
use map::put_map;
use records::MOST_CELLS;
use season::day_lines;
use summary::put_sheet;

#[derive(Clone, Copy)]
pub(crate) struct Texts<'a> {
    recharge: &'a [u8],
    evapotranspiration: &'a [u8],
    outflow: &'a [u8],
    interception: &'a [u8],
    rejected: &'a [u8],
    soil: &'a [u8],
    snow: &'a [u8],
    days: &'a [u8],
    person: &'a [u8],
    map: &'a [u8],
}

// Each cell's sums, by their kind.
#[derive(Clone, Copy)]
struct Sums<'a> {
    intercepted: &'a [u64],
    outflow: &'a [u64],
    evapotranspired: &'a [u64],
    recharged: &'a [u64],
    rejected: &'a [u64],
}

// A text that stands at the front of a room, and what is behind it.
type Cut<'a> = (&'a [u8], &'a mut [u8]);

impl<'a> Texts<'a> {
    pub(crate) fn of(self, file: SheetFile) -> &'a [u8] {
        match file {
            SheetFile::Recharge => self.recharge,
            SheetFile::Evapotranspiration => self.evapotranspiration,
            SheetFile::Outflow => self.outflow,
            SheetFile::Interception => self.interception,
            SheetFile::Rejected => self.rejected,
            SheetFile::Soil => self.soil,
            SheetFile::Snow => self.snow,
            SheetFile::Days => self.days,
            SheetFile::Person => self.person,
            SheetFile::Map => self.map,
        }
    }
}

impl<'a> Sums<'a> {
    // The sums of all cells stand kind by kind.
    fn by_kind(sums: &'a [u64], cells: usize) -> Option<Sums<'a>> {
        let (intercepted, rest) = sums.split_at_checked(cells)?;
        let (outflow, rest) = rest.split_at_checked(cells)?;
        let (evapotranspired, rest) = rest.split_at_checked(cells)?;
        let (recharged, rest) = rest.split_at_checked(cells)?;
        let (rejected, _) = rest.split_at_checked(cells)?;
        Some(Sums {
            intercepted,
            outflow,
            evapotranspired,
            recharged,
            rejected,
        })
    }
}

fn cut(room: &mut [u8], count: usize) -> Option<Cut<'_>> {
    let (text, rest) = room.split_at_mut_checked(count)?;
    Some((text, rest))
}

fn put_depths<'a>(room: &'a mut [u8], header: Header, units: &[u64]) -> Option<Cut<'a>> {
    let count = write_inches(header, units, room).ok()?;
    cut(room, count)
}

fn put_store<'a>(room: &'a mut [u8], header: Header, store: &[u32]) -> Option<Cut<'a>> {
    let mut units = [0u64; MOST_CELLS];
    for (unit, &depth) in units.iter_mut().zip(store) {
        *unit = u64::from(depth);
    }
    put_depths(room, header, &units[..store.len().min(MOST_CELLS)])
}

fn put_days<'a>(room: &'a mut [u8], outcome: &Outcome<'_>) -> Option<Cut<'a>> {
    let count = day_lines(outcome.days, outcome.totals, room);
    cut(room, count)
}

// The recharge of each cell, in words and as a picture.
fn put_person<'a>(
    room: &'a mut [u8],
    site: &Site<'_>,
    outcome: &Outcome<'_>,
    recharged: &[u64],
) -> Option<Cut<'a>> {
    let count = put_sheet(
        room,
        site.setup.grid,
        site.setup.climate,
        site.setup.covers,
        site.setup.direction,
        site.setup.cover,
        site.setup.group,
        outcome.stored_at_start,
        outcome.days,
        outcome.totals,
        recharged,
    );
    cut(room, count)
}

fn put_picture<'a>(
    room: &'a mut [u8],
    site: &Site<'_>,
    outcome: &Outcome<'_>,
    recharged: &[u64],
) -> Option<Cut<'a>> {
    let count = put_map(
        room,
        site.setup.grid,
        site.setup.covers,
        site.setup.direction,
        site.setup.cover,
        recharged,
        outcome.days,
    );
    cut(room, count)
}

pub(crate) fn put_texts<'a>(
    room: &'a mut [u8],
    site: &Site<'_>,
    outcome: &Outcome<'_>,
) -> Option<Texts<'a>> {
    let header = site.header;
    let sums = Sums::by_kind(outcome.sums, site.cells())?;
    let (recharge, room) = put_depths(room, header, sums.recharged)?;
    let (evapotranspiration, room) = put_depths(room, header, sums.evapotranspired)?;
    let (outflow, room) = put_depths(room, header, sums.outflow)?;
    let (interception, room) = put_depths(room, header, sums.intercepted)?;
    let (rejected, room) = put_depths(room, header, sums.rejected)?;
    let (soil, room) = put_store(room, header, outcome.soil)?;
    let (snow, room) = put_store(room, header, outcome.snow)?;
    let (days, room) = put_days(room, outcome)?;
    let (person, room) = put_person(room, site, outcome, sums.recharged)?;
    let (map, _) = put_picture(room, site, outcome, sums.recharged)?;
    Some(Texts {
        recharge,
        evapotranspiration,
        outflow,
        interception,
        rejected,
        soil,
        snow,
        days,
        person,
        map,
    })
}
