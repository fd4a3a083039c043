// How a cell is drawn: land in one of eight shades, the lightest first, or open water.
use crate::directions::Direction;
use std::fmt;
use std::fmt::{Display, Formatter};

pub(crate) const SHADES: u8 = 8;

const LIGHTEST: u8 = 0;

// The first shade on which arrows are white.
const FIRST_WHITE: u8 = 6;

// The numbers of a cover entry.
const COVER_NUMBERS: usize = 16;

#[derive(Clone, Copy, PartialEq, Eq)]
pub(crate) enum Mark {
    Land(u8),
    OpenWater,
}

// What an arrow is drawn with.
#[derive(Clone, Copy, PartialEq, Eq)]
pub(crate) enum Ink {
    Dark,
    White,
}

impl Mark {
    // The style's class.
    pub(crate) fn letter(self) -> char {
        match self {
            Mark::Land(shade) => char::from(b'a' + shade % SHADES),
            Mark::OpenWater => 'w',
        }
    }

    // Open water has no arrow.
    pub(crate) fn ink(self) -> Option<Ink> {
        match self {
            Mark::Land(shade) if shade < FIRST_WHITE => Some(Ink::Dark),
            Mark::Land(_) => Some(Ink::White),
            Mark::OpenWater => None,
        }
    }
}

// What is drawn on a cell.
#[derive(Clone, Copy)]
pub(crate) enum Sign {
    Arrow(Direction),
    Diamond,
}

// Begins with what is behind the point in the row's number.
impl Display for Sign {
    fn fmt<W: fmt::Write>(&self, f: &mut Formatter<W>) -> fmt::Result {
        match *self {
            Sign::Arrow(direction) => write!(f, ".5{}", direction.arrow()),
            Sign::Diamond => write!(f, ".2l.3 .3l-.3 .3l-.3-.3z"),
        }
    }
}

// Whether the first entry of that cover has a 1 behind its code.
fn is_open_water(covers: &[u32], code: u32) -> bool {
    for entry in covers.chunks_exact(COVER_NUMBERS) {
        if let [first, mark, ..] = entry
            && *first == code
        {
            return *mark == 1;
        }
    }
    false
}

// Marks open water, and all else as land of the lightest shade.
pub(crate) fn mark_water(covers: &[u32], cover: &[u32], marks: &mut [Mark]) {
    for (i, mark) in marks.iter_mut().enumerate() {
        let code = cover.get(i).copied().unwrap_or(0);
        *mark = if is_open_water(covers, code) {
            Mark::OpenWater
        } else {
            Mark::Land(LIGHTEST)
        };
    }
}
