// Whole numbers of at most nine digits, with their sign.
ghost use Rattle.std.specs.Prelude.{◌≡◌, ◌≤◌, nat_abs};
ghost use Rattle.words.specs.Digits.{written};
ghost use Rattle.words.specs.Numbers.{number as number_of};
ghost use Rattle.words.specs.Writing.{Wrote};
ghost use Rattle.grids.specs.Headers.{whole_fits, whole_of};
ghost use Rattle.grids.specs.Forms.{most_far, most_signed};

use words::{number, put_below, put_number};

const LEAST_WHOLE: i32 = -999999999;

const MOST_WHOLE: i32 = 999999999;

// Below them all: what a word that is no number is read as, by `whole_of`, so that such a cell is refused as one out of bounds is.
const NO_NUMBER: i32 = -1000000000;

// At most nine digits.
#[tactic(auto, unfolding(crate::specs::Headers::whole_fits))]
pub(crate) fn whole_fits(z: i32) -> bool
    ensures { result ≡ whole_fits z }
{
    (LEAST_WHOLE <= z) & (z <= MOST_WHOLE)
}

// The number that a word means.
pub(crate) fn whole(word: &[u8]) -> i32
    ensures { result ≡ whole_of (number_of word.now) }
{
    number(word).unwrap_or(NO_NUMBER)
}

// How far from zero.
pub(crate) fn magnitude(z: i32) -> u64
    ensures { (result ≡ nat_abs z) × (result ≤ most_far) }
{
    u64::from(z.unsigned_abs())
}

pub(crate) fn put_whole(buffer: &mut [u8], at: usize, z: i32) -> usize
    ensures { Wrote most_signed at (written z) buffer.old buffer.new result }
{
    let far = magnitude(z);
    if z < 0 {
        return put_below(buffer, at, far);
    }
    put_number(buffer, at, far)
}
