// A period's weather out of a text: its numbers, seven for each day, read word by word into a lent list.
ghost use Rattle.std.specs.Prelude.{◌≡◌, set};
ghost use Rattle.season.specs.Reading.{days_in, ReadDays};

use daybook::DAY_NUMBERS;
use words::{next_word, number};

// What is wrong with a period's weather.
#[derive(Clone, Copy, Debug, PartialEq, Eq)]
pub enum WeatherError {
    // A word that is no number: how many numbers stand before it.
    BadWord(usize),
    // A last day that is cut off, or more numbers than the list holds: how many there are.
    CutOff(usize),
    TooMany(usize),
}

// Stores a number where the list has a place for it; behind a borrow from `get_mut` the proof would know none of the list's numbers.
fn store(days: &mut [i32], place: usize, number: i32)
    ensures { days.new ≡ set days.old place number }
{
    if place < days.len() {
        days[place] = number;
    }
}

// How many days so many numbers are, where the list holds so many.
#[tactic(auto, unfolding(crate::specs::Reading::days_in))]
fn days_in(count: usize, room: usize) -> Result<usize, WeatherError>
    ensures { result ≡ days_in count room }
{
    if count % DAY_NUMBERS != 0 {
        return Err(WeatherError::CutOff(count));
    }
    if room < count {
        return Err(WeatherError::TooMany(count));
    }
    Ok(count / DAY_NUMBERS)
}

// Reads a text's numbers, seven for each day, to the front of the lent list, as far as it goes. How many days there are.
pub fn read_days(text: &[u8], days: &mut [i32]) -> Result<usize, WeatherError>
    ensures { ReadDays text.now days.old days.new result }
{
    let mut count = 0;
    let mut word = next_word(text, 0);
    while word.start < word.end {
        let start = word.start;
        let end = word.end;
        let Some(n) = number(&text[start..end]) else {
            return Err(WeatherError::BadWord(count));
        };
        store(days, count, n);
        count += 1;
        word = next_word(text, end);
    }
    days_in(count, days.len())
}
