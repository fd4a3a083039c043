// The words of a text, one after another, and its lines.
ghost use Rattle.std.specs.Prelude.{◌≡◌, ◌+◌, drop};
ghost use Rattle.words.specs.Words.{is_blank};
ghost use Rattle.words.specs.Spans.{stops_at, before, NextWord, NextLine};

// A word's bytes: from `start` up to `end`. Where `end` is not past `start`, there is none.
#[derive(Clone, Copy)]
pub struct Span {
    pub start: usize,
    pub end: usize,
}

// The kind of byte that is searched for. An enum, for the one loop below.
#[derive(Clone, Copy)]
enum Stop {
    WordByte,
    Blank,
    LineFeed,
}

fn is_blank(b: u8) -> bool
    ensures { result ≡ is_blank b }
{
    (b == b' ') | (b == b'\n')
}

fn stops_at(stop: Stop, b: u8) -> bool
    ensures { result ≡ stops_at stop b }
{
    match stop {
        Stop::WordByte => !is_blank(b),
        Stop::Blank => is_blank(b),
        Stop::LineFeed => b == b'\n',
    }
}

// The first place from `from` on that has such a byte, or the text's end. A loop: in a chain of iterators, tried, every step is refused, one of one byte too, so that no
// edit could show that a step of two is.
fn search(text: &[u8], from: usize, stop: Stop) -> usize
    ensures { result ≡ from + before stop (drop from text.now) }
{
    let mut at = from;
    while at < text.len() {
        if stops_at(stop, text[at]) {
            return at;
        }
        at += 1;
    }
    at
}

pub fn next_word(text: &[u8], from: usize) -> Span
    ensures { NextWord text.now from result.start result.end }
{
    let start = search(text, from, Stop::WordByte);
    let end = search(text, start, Stop::Blank);
    Span { start, end }
}

// Where the line that begins at `from` ends: before its line feed, or at the text's end.
pub fn line_end(text: &[u8], from: usize) -> usize
    ensures { NextLine text.now from result }
{
    search(text, from, Stop::LineFeed)
}
