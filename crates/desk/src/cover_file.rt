// The cover file's form.
ghost use Rattle.std.specs.Prelude.{◌≡◌, length};
ghost use Rattle.words.specs.Words.{words};
ghost use Rattle.desk.specs.CoverFile.{cover_count, is_cover_file};

use grids::size_at;
use records::index_of;
use words::next_word;

// The season's two days and the count of covers stand before the numbers of the covers.
const FRONT_WORDS: usize = 3;

// The number of that count among the words, counted from 0.
const COUNT_WORD: usize = 2;

const NUMBERS_PER_COVER: usize = 16;

const MOST_COVERS: u32 = 64;

// Word after word, which no iterator gives.
fn word_count(text: &[u8]) -> usize
    ensures { result ≡ length (words text.now) }
{
    let mut count = 0;
    let mut from = 0;
    loop {
        let word = next_word(text, from);
        if word.end <= word.start {
            return count;
        }
        count += 1;
        from = word.end;
    }
}

// The third word; 0 where that is no number, or one below zero.
#[tactic(auto, unfolding(crate::specs::CoverFile::cover_count))]
fn cover_count(text: &[u8]) -> u32
    ensures { result ≡ cover_count text.now }
{
    size_at(text, COUNT_WORD)
}

#[tactic(auto, unfolding(crate::specs::CoverFile::is_cover_file))]
pub(crate) fn is_cover_file(text: &[u8]) -> bool
    ensures { result ≡ is_cover_file text.now }
{
    let count = cover_count(text);
    ((1 <= count) & (count <= MOST_COVERS))
        & (word_count(text) == FRONT_WORDS + NUMBERS_PER_COVER * index_of(count))
}
