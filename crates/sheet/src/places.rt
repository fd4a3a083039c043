// Where the words of a text stand: the line of one, lines and words being counted from the first on.
use words::next_word;

// Where word `count` begins, from 0; where the words end, if there are fewer.
fn start_of(text: &[u8], count: usize) -> usize {
    let mut from = 0;
    for _ in 0..count {
        let word = next_word(text, from);
        if word.end <= word.start {
            return from;
        }
        from = word.end;
    }
    next_word(text, from).start
}

// The line of a place, from 1.
fn line_at(text: &[u8], place: usize) -> usize {
    let before = text.iter().take(place);
    before.filter(|&&byte| byte == b'\n').count() + 1
}

pub(crate) fn line_of(text: &[u8], word: usize) -> usize {
    line_at(text, start_of(text, word))
}
