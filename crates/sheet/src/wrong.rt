// What can go wrong, as it is said on standard error: mostly of a file of the folder, of which its path comes first.
use crate::folder::Place;
use intake::{Failure, Reason, Unread};
use std::fmt;
use std::fmt::{Display, Formatter};
use std::io::Error;

#[derive(Clone, Copy)]
pub(crate) enum Wrong<'a> {
    Usage,
    NoFolder,
    At(Place<'a>, What<'a>),
    Unprinted(Failure<'a>),
}

#[derive(Clone, Copy)]
pub(crate) enum What<'a> {
    Unread(Unread),
    // A call of the system.
    Failed(Error),
    // The grid is over other cells than this one.
    Other(Measure, Place<'a>),
    // Refusal 12, at this place.
    NoGrid(usize),
    NoCovers,
    // The setup's text would have so many bytes.
    SetupTooLong(usize),
    SheetTooLong,
    TooManyDays,
    Refused(Refused),
}

// What is measured of a grid.
#[derive(Clone, Copy)]
pub(crate) enum Measure {
    Size,
    Corner,
    CellSize,
}

// A refusal: where it is in its file, its number and its place, and what it means.
#[derive(Clone, Copy)]
pub(crate) struct Refused {
    pub(crate) at: At,
    pub(crate) number: u32,
    pub(crate) place: usize,
    pub(crate) meaning: Meaning,
}

#[derive(Clone, Copy)]
pub(crate) enum At {
    File,
    Line(usize),
    // Of the cover table.
    Entry(usize),
    Cell(Cell),
}

#[derive(Clone, Copy)]
pub(crate) enum Meaning {
    // What it means is said by `./run` alone.
    Untold,
    Words(&'static str),
    TooMuchSnow(Cell),
}

// A cell of a grid that has so many columns.
#[derive(Clone, Copy)]
pub(crate) struct Cell {
    pub(crate) number: usize,
    pub(crate) columns: usize,
}

impl Measure {
    fn name(self) -> &'static str {
        match self {
            Measure::Size => "size",
            Measure::Corner => "corner",
            Measure::CellSize => "cell size",
        }
    }
}

// Rows and columns are counted from 1.
impl Display for Cell {
    fn fmt<W: fmt::Write>(&self, f: &mut Formatter<W>) -> fmt::Result {
        if self.columns == 0 {
            return Ok(());
        }
        let row = (self.number / self.columns).saturating_add(1);
        let column = (self.number % self.columns).saturating_add(1);
        write!(f, "row {row}, column {column}")
    }
}

// What stands before the refusal.
impl Display for At {
    fn fmt<W: fmt::Write>(&self, f: &mut Formatter<W>) -> fmt::Result {
        match self {
            At::File => Ok(()),
            At::Line(line) => write!(f, "line {line}: "),
            At::Entry(entry) => write!(f, "entry {entry}: "),
            At::Cell(cell) => write!(f, "{cell}: "),
        }
    }
}

// What stands behind the refusal.
impl Display for Meaning {
    fn fmt<W: fmt::Write>(&self, f: &mut Formatter<W>) -> fmt::Result {
        match self {
            Meaning::Untold => Ok(()),
            Meaning::Words(words) => write!(f, ": {words}"),
            Meaning::TooMuchSnow(cell) => {
                write!(f, ": the snow of {cell} passes 1,000 inches of water")
            }
        }
    }
}

impl Display for Refused {
    fn fmt<W: fmt::Write>(&self, f: &mut Formatter<W>) -> fmt::Result {
        write!(
            f,
            "{}refused {} at {}{}",
            self.at, self.number, self.place, self.meaning
        )
    }
}

impl Display for What<'_> {
    fn fmt<W: fmt::Write>(&self, f: &mut Formatter<W>) -> fmt::Result {
        match *self {
            What::Unread(why) => write!(f, "{why}"),
            What::Failed(error) => write!(f, "{}", Reason(error)),
            What::Other(measure, first) => write!(f, "another {} than {first}", measure.name()),
            What::NoGrid(place) => write!(f, "refused 12 at {place}"),
            What::NoCovers => {
                f.write_str("not a season, a count of covers and 16 numbers for each")
            }
            What::SetupTooLong(count) => write!(
                f,
                "the setup would have {count} bytes, and 65536 are the most"
            ),
            What::SheetTooLong => {
                f.write_str("the ten files together are longer than 3276800 bytes")
            }
            What::TooManyDays => f.write_str("more than 20000 days"),
            What::Refused(refused) => write!(f, "{refused}"),
        }
    }
}

impl Display for Wrong<'_> {
    fn fmt<W: fmt::Write>(&self, f: &mut Formatter<W>) -> fmt::Result {
        match *self {
            Wrong::Usage => f.write_str("usage: sheet FOLDER"),
            Wrong::NoFolder => {
                f.write_str("sheet: the folder's name is empty, or has more than 4096 bytes")
            }
            Wrong::At(place, what) => write!(f, "sheet: {place}: {what}"),
            Wrong::Unprinted(failure) => write!(f, "{failure}"),
        }
    }
}

impl<'a> From<Failure<'a>> for Wrong<'a> {
    fn from(failure: Failure<'a>) -> Self {
        Wrong::Unprinted(failure)
    }
}
