// A depth as it is told: in inches with four decimals.
ghost use Rattle.std.specs.Prelude.{Some};
ghost use Rattle.words.specs.Writing.{Put, Wrote};
ghost use Rattle.words.specs.Inches.{four_digits, inches, most_inches};

use crate::putting::{put_item, put_number};
use std::fmt;
use std::fmt::{Display, Formatter};

const UNITS_PER_INCH: u64 = 10000;

// The last four digits of a number, zeros among them.
fn put_four(buffer: &mut [u8], at: usize, n: u64) -> usize
    ensures { Put at (four_digits n) buffer.old buffer.new result }
{
    let a = put_number(buffer, at, n / 1000 % 10);
    let b = put_number(buffer, a, n / 100 % 10);
    let c = put_number(buffer, b, n / 10 % 10);
    put_number(buffer, c, n % 10)
}

pub fn put_inches(buffer: &mut [u8], at: usize, units: u64) -> usize
    ensures { Wrote most_inches at (inches units) buffer.old buffer.new result }
{
    let point = put_item(buffer, at, units / UNITS_PER_INCH, b'.');
    put_four(buffer, point, units % UNITS_PER_INCH)
}

// A depth in units, printed in inches.
#[derive(Clone, Copy, PartialEq, Eq)]
pub struct Inches(pub u64);

impl Display for Inches {
    ghost output = { λ depth. Some (inches depth.0) };

    fn fmt<W: fmt::Write>(&self, f: &mut Formatter<W>) -> fmt::Result {
        let whole = self.0 / UNITS_PER_INCH;
        let parts = self.0 % UNITS_PER_INCH;
        write!(f, "{whole}.{parts:04}")
    }
}
