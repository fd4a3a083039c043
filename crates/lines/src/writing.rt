// Lines written into a lent buffer: each function writes from a place on and returns the place after.
ghost use Rattle.std.specs.Prelude.{[], ◌∷◌, ◌++◌, ◌≡◌};
ghost use Rattle.words.specs.Digits.{digits};
ghost use Rattle.records.specs.Answers.{totals_as};
ghost use Rattle.records.specs.Verdicts.{refusal_as};
ghost use Rattle.lines.specs.Lines.{day_line, end_line, refused_line, refusal as refusalLine};
ghost use Rattle.words.specs.Writing.{Wrote};
ghost use Rattle.lines.specs.Writing.{most_pair, most_line, most_end, most_refusal};

use records::{Refusal, Totals, wide};
use words::{put_bytes, put_item};

// Two numbers with a space between them, and the byte after them.
fn pair(buffer: &mut [u8], at: usize, m: u64, n: u64, end: u8) -> usize
    ensures { Wrote most_pair at (digits m ++ 32 ∷ (digits n ++ end ∷ [])) buffer.old buffer.new result }
{
    let next = put_item(buffer, at, m, b' ');
    put_item(buffer, next, n, end)
}

// A day's line: its serial and the seven totals.
pub fn line(buffer: &mut [u8], at: usize, serial: u32, totals: Totals) -> usize
    ensures { Wrote most_line at (day_line serial (totals_as totals)) buffer.old buffer.new result }
{
    let gross = totals.gross.0;
    let intercepted = totals.intercepted.0;
    let evapotranspired = totals.evapotranspired.0;
    let recharged = totals.recharged.0;
    let rejected = totals.rejected.0;
    let gone = totals.gone.0;
    let stored = totals.stored.0;
    let a = pair(buffer, at, wide(serial), gross, b' ');
    let b = pair(buffer, a, intercepted, evapotranspired, b' ');
    let c = pair(buffer, b, recharged, rejected, b' ');
    pair(buffer, c, gone, stored, b'\n')
}

// A count or a place as a number of a line.
pub fn units(count: usize) -> u64
    ensures { result ≡ count }
{
    count as u64
}

// The last line of a run whose days were all accepted.
pub fn ended(buffer: &mut [u8], at: usize, days: u64) -> usize
    ensures { Wrote most_end at (end_line days) buffer.old buffer.new result }
{
    let next = put_bytes(buffer, at, b"end ");
    put_item(buffer, next, days, b'\n')
}

// The last line of a refusal.
pub fn refused(buffer: &mut [u8], at: usize, number: u64, place: u64) -> usize
    ensures { Wrote most_refusal at (refused_line number place) buffer.old buffer.new result }
{
    let a = put_bytes(buffer, at, b"refused ");
    let b = put_item(buffer, a, number, b' ');
    let c = put_bytes(buffer, b, b"at ");
    put_item(buffer, c, place, b'\n')
}

// The last line of a refusal of the library's, which says its own number and place.
pub fn refusal(buffer: &mut [u8], at: usize, why: Refusal) -> usize
    ensures { Wrote most_refusal at (refusalLine (refusal_as why)) buffer.old buffer.new result }
{
    refused(buffer, at, wide(why.number()), units(why.place()))
}
