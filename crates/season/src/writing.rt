// The days of a period as the lines that `balance` prints for them, written into a lent buffer as far as that goes.
ghost use Rattle.words.specs.Writing.{Put};
ghost use Rattle.season.specs.Lines.{day_lines, lines_of};

use daybook::{DAY_NUMBERS, day_at, totals_at};
use lines::{ended, line, units};

// The lines of the first days, so many.
fn put_days(days: &[i32], totals: &[u64], count: usize, output: &mut [u8]) -> usize
    ensures { Put 0 (day_lines days.now totals.now count) output.old output.new result }
{
    let mut next = 0;
    for k in 0..count {
        let day = day_at(days, k);
        next = line(output, next, day.serial, totals_at(totals, k));
    }
    next
}

// The lines that `balance` prints for these days: one a day, by its serial and its seven totals, and `end` with their count. Of days and totals as many
// as both have. Writes what fits, and says where it would end.
pub fn day_lines(days: &[i32], totals: &[u64], output: &mut [u8]) -> usize
    ensures { Put 0 (lines_of days.now totals.now) output.old output.new result }
{
    let count = (days.len() / DAY_NUMBERS).min(totals.len() / DAY_NUMBERS);
    let next = put_days(days, totals, count, output);
    ended(output, next, units(count))
}
