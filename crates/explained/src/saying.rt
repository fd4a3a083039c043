// Depths in inches, each after its words.
ghost use Rattle.std.specs.Prelude.{◌++◌, ◌+◌, length};
ghost use Rattle.words.specs.Writing.{Wrote};
ghost use Rattle.words.specs.Inches.{inches, most_inches};
ghost use Rattle.explained.specs.Lines.{say as saying, most_two};

use words::{put_bytes, put_inches};

// A depth after some words.
pub(crate) fn say(buffer: &mut [u8], at: usize, words: &[u8], depth: u64) -> usize
    ensures { Wrote (length words.now + most_inches) at (words.now ++ inches depth) buffer.old buffer.new result }
{
    let next = put_bytes(buffer, at, words);
    put_inches(buffer, next, depth)
}

// Two, each after its words.
pub(crate) fn say_two(
    buffer: &mut [u8],
    at: usize,
    words: &[u8],
    depth: u64,
    beside: &[u8],
    second: u64,
) -> usize
    ensures { Wrote (length words.now + length beside.now + most_two) at
        (saying words.now depth (beside.now ++ inches second)) buffer.old buffer.new result }
{
    let next = say(buffer, at, words, depth);
    say(buffer, next, beside, second)
}
