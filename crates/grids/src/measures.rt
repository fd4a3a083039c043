// A corner or a cell size, kept as text.
ghost use Rattle.std.specs.Prelude.{[], ◌≡◌, ◌≤◌, length};
ghost use Rattle.words.specs.Numbers.{all_digits};
ghost use Rattle.grids.specs.Measures.{most_characters, is_digits, goes_on, is_unsigned, is_measure, measured};
ghost use Rattle.grids.specs.Given.{text_as, measure_in};

use words::{is_digit, put_bytes};

// A text's most characters.
pub const MOST_CHARACTERS: usize = 20;

// The text is the first `count` bytes, which lie in the value itself (no heap) and are lent by C so.
#[derive(Clone, Copy)]
pub struct Measure {
    pub bytes: [u8; MOST_CHARACTERS],
    pub count: usize,
}

fn all_digits(word: &[u8]) -> bool
    ensures { result ≡ all_digits word.now }
{
    for &b in word {
        if !is_digit(b) {
            return false;
        }
    }
    true
}

// At least one.
#[tactic(auto, using(crate::proofs::MeasureLaws::some_digits))]
fn some_digits(word: &[u8]) -> bool
    ensures { result ≡ is_digits word.now }
{
    !word.is_empty() & all_digits(word)
}

// After a digit: digits to the end, or to a point with digits after it.
fn goes_on(word: &[u8]) -> bool
    ensures { result ≡ goes_on word.now }
{
    for i in 0..word.len() {
        let b = word[i];
        if b == b'.' {
            return some_digits(&word[i + 1..]);
        }
        if !is_digit(b) {
            return false;
        }
    }
    true
}

#[tactic(auto, unfolding(crate::specs::Measures::is_unsigned))]
fn is_unsigned(word: &[u8]) -> bool
    ensures { result ≡ is_unsigned word.now }
{
    let Some((first, rest)) = word.split_first() else {
        return false;
    };
    is_digit(*first) & goes_on(rest)
}

#[tactic(auto, unfolding(crate::specs::Measures::is_measure, crate::specs::Measures::without_minus, crate::specs::Measures::is_unsigned))]
fn is_measure(word: &[u8]) -> bool
    ensures { result ≡ is_measure word.now }
{
    let Some((first, rest)) = word.split_first() else {
        return false;
    };
    if MOST_CHARACTERS < word.len() {
        return false;
    }
    if *first == b'-' {
        return is_unsigned(rest);
    }
    is_unsigned(word)
}

impl Measure {
    // The text that a word is, where it fits.
    fn of(word: &[u8]) -> Measure
        requires { length word.now ≤ most_characters }
        ensures { result ≡ measure_in word.now }
    {
        let mut bytes = [0u8; MOST_CHARACTERS];
        let count = put_bytes(&mut bytes, 0, word);
        Measure { bytes, count }
    }

    // No text, which `measured` gives for a word that is no measure, so it is no Option.
    #[tactic(auto, unfolding(crate::specs::Given::measure_in))]
    pub(crate) fn none() -> Measure
        ensures { result ≡ measure_in [] }
    {
        Measure {
            bytes: [0u8; MOST_CHARACTERS],
            count: 0,
        }
    }

    // A word where a measure belongs.
    #[tactic(auto, unfolding(crate::specs::Measures::measured, crate::specs::Measures::is_measure))]
    pub(crate) fn in_word(word: &[u8]) -> Measure
        ensures { result ≡ measure_in (measured word.now) }
    {
        if is_measure(word) {
            return Measure::of(word);
        }
        Measure::none()
    }

    // The first `count` bytes; a count past them all is no text's.
    pub fn text(&self) -> &[u8]
        ensures { result.now ≡ text_as self.now }
    {
        match self.bytes.get(..self.count) {
            Some(text) => text,
            None => &[],
        }
    }

    pub(crate) fn fits(self) -> bool
        ensures { result ≡ is_measure (text_as self) }
    {
        is_measure(self.text())
    }
}
