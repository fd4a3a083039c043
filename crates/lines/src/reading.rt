// The input's numbers, read word by word into one array, as the codes of specs/Reading.antt.
ghost use Rattle.std.specs.Prelude.{◌≡◌, ◌≤◌, length};
ghost use Rattle.words.specs.Numbers.{number as number_of};
ghost use Rattle.lines.specs.Reading.{reading, most_bytes, given, code_of, Read};

use words::{next_word, number};

// A word that is no number, or a text that is too long: how many numbers stand before it.
#[derive(Clone, Copy, PartialEq, Eq)]
pub struct BadForm(pub usize);

// Past this number stand the codes of the numbers below zero.
pub const NEGATIVES: u32 = 1000000000;

// Past every code: a word that is no number.
pub const NO_NUMBER: u32 = 2000000000;

// The longest text that is read.
pub const MOST_BYTES: usize = 65536;

// The number of the refusal of a text's length or form.
pub const BAD_TEXT: u64 = 11;

// A number and the blank after it take two bytes, so 65,536 bytes hold at most so many.
pub const MOST_NUMBERS: usize = 32768;

// A word's code.
fn code(word: &[u8]) -> u32
    ensures { result ≡ code_of (number_of word.now) }
{
    let Some(n) = number(word) else {
        return NO_NUMBER;
    };
    if n < 0 {
        return NEGATIVES + n.unsigned_abs();
    }
    n.unsigned_abs()
}

// Word after word, each number's code after those before it.
fn gather(input: &[u8], numbers: &mut [u32; MOST_NUMBERS]) -> Result<usize, BadForm>
    requires { length input.now ≤ most_bytes }
    ensures { Read (reading input.now) numbers.old numbers.new result }
{
    let mut count = 0;
    let mut from = 0;
    while from < input.len() {
        let word = next_word(input, from);
        let start = word.start;
        let end = word.end;
        if end <= start {
            return Ok(count);
        }
        let c = code(&input[start..end]);
        if NO_NUMBER <= c {
            return Err(BadForm(count));
        }
        numbers[count] = c;
        count += 1;
        from = end;
    }
    Ok(count)
}

// The numbers of a text, and their count; of one that is too long none.
pub fn read(input: &[u8], numbers: &mut [u32; MOST_NUMBERS]) -> Result<usize, BadForm>
    ensures { Read (given input.now) numbers.old numbers.new result }
{
    if MOST_BYTES < input.len() {
        return Err(BadForm(0));
    }
    gather(input, numbers)
}
