// A line of readings as a day's weather.
ghost use Rattle.std.specs.Prelude.{◌≡◌, length};
ghost use Rattle.lines.specs.Reading.{given, signed, most_numbers};
ghost use Rattle.station.specs.Readings.{reading_of, celsius_of, line_in, line_as};

use lines::{MOST_NUMBERS, NEGATIVES, read};
use radiation::{Estimate, Weather};

// A line's first number, the estimate that it asks for, and how many numbers such a line has.
const TURC: u32 = 1;

const TURC_NUMBERS: usize = 4;

const JENSEN_HAISE: u32 = 2;

const JENSEN_HAISE_NUMBERS: usize = 3;

// Of a degree.
const TENTHS: f64 = 10.0;

// The number of a code.
fn reading(code: u32) -> f64
    ensures { result ≡ reading_of (signed code) }
{
    if NEGATIVES < code {
        return -((code - NEGATIVES) as f64);
    }
    code as f64
}

fn celsius(tenths: u32) -> f64
    ensures { result ≡ celsius_of (signed tenths) }
{
    reading(tenths) / TENTHS
}

// The weather of a line that has the numbers of an estimate. They go into a lent array, which is for nothing else.
pub(crate) fn read_line(line: &[u8], numbers: &mut [u32; MOST_NUMBERS]) -> Option<Weather>
    requires { length numbers.old ≡ most_numbers }
    ensures { (line_as result ≡ line_in (given line.now)) × (length numbers.new ≡ most_numbers) }
{
    let Ok(count) = read(line, numbers) else {
        return None;
    };
    let kind = numbers[0];
    if (count == TURC_NUMBERS) & (kind == TURC) {
        let mean = celsius(numbers[1]);
        let estimate = Estimate::Turc(reading(numbers[2]), reading(numbers[3]));
        return Some(Weather { mean, estimate });
    }
    if (count == JENSEN_HAISE_NUMBERS) & (kind == JENSEN_HAISE) {
        let mean = celsius(numbers[1]);
        let estimate = Estimate::JensenHaise(reading(numbers[2]));
        return Some(Weather { mean, estimate });
    }
    None
}
