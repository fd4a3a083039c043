// Figures as they are told, each with its own decimals. The format that a figure stands in gives its column.
use std::fmt;
use std::fmt::{Display, Formatter, InlineText};
use words::Inches;

// A sign, a number of 20 digits, and a point.
const LONGEST: usize = 22;

// A lifted temperature is in tenths above -100 F.
const LIFT: u64 = 1000;

#[derive(Clone, Copy, PartialEq, Eq)]
pub(crate) enum Sign {
    Plus,
    Minus,
}

// A figure; the numbers are of its last digit.
#[derive(Clone, Copy, PartialEq, Eq)]
pub(crate) enum Figure {
    // There is none: its divisor is 0.
    Missing,
    Whole(u64),
    Tenths(Sign, u64),
    Hundredths(Sign, u64),
    Inches(Inches),
}

impl Figure {
    pub(crate) fn hundredths(n: u64) -> Figure {
        Figure::Hundredths(Sign::Plus, n)
    }

    // The same figure with a sign, unless it is rounded to 0.
    pub(crate) fn with(self, sign: Sign) -> Figure {
        match self {
            Figure::Tenths(_, n) if 0 < n => Figure::Tenths(sign, n),
            Figure::Hundredths(_, n) if 0 < n => Figure::Hundredths(sign, n),
            _ => self,
        }
    }
}

// a / b to the nearest whole number, halves up; 0 where b is 0.
pub(crate) fn nearest(a: u64, b: u64) -> u64 {
    if b == 0 {
        return 0;
    }
    let rest = a % b;
    let is_up = b - rest <= rest;
    (a / b).saturating_add(u64::from(is_up))
}

// Units over so many cells in hundredths of an inch.
pub(crate) fn inches_over(units: u64, cells: u64) -> Figure {
    if cells == 0 {
        return Figure::Missing;
    }
    Figure::hundredths(nearest(units, cells.saturating_mul(100)))
}

// A share in percent, with one decimal.
pub(crate) fn share(units: u64, of: u64) -> Figure {
    if of == 0 {
        return Figure::Missing;
    }
    Figure::Tenths(Sign::Plus, nearest(units.saturating_mul(1000), of))
}

// Degrees Fahrenheit.
pub(crate) fn degrees(lifted: u64) -> Figure {
    let sign = if lifted < LIFT {
        Sign::Minus
    } else {
        Sign::Plus
    };
    Figure::Tenths(sign, lifted.abs_diff(LIFT))
}

impl Display for Sign {
    fn fmt<W: fmt::Write>(&self, f: &mut Formatter<W>) -> fmt::Result {
        match self {
            Sign::Plus => Ok(()),
            Sign::Minus => f.write_str("-"),
        }
    }
}

// A text in the column that the format gives.
fn pad<W: fmt::Write, D: Display + Drop>(f: &mut Formatter<W>, text: D) -> fmt::Result {
    f.pad(InlineText::<LONGEST>::of(text).as_str())
}

impl Display for Figure {
    fn fmt<W: fmt::Write>(&self, f: &mut Formatter<W>) -> fmt::Result {
        match *self {
            Figure::Missing => f.pad("-"),
            Figure::Whole(n) => pad(f, n),
            Figure::Tenths(sign, n) => {
                let whole = n / 10;
                let rest = n % 10;
                pad(f, format_args!("{sign}{whole}.{rest}"))
            }
            Figure::Hundredths(sign, n) => {
                let whole = n / 100;
                let rest = n % 100;
                pad(f, format_args!("{sign}{whole}.{rest:02}"))
            }
            Figure::Inches(depth) => pad(f, depth),
        }
    }
}
