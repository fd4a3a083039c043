// A grid read out of a text.
ghost use Rattle.std.specs.Prelude.{◌≡◌, ◌≤◌, ◌<◌, length, drop};
ghost use Rattle.std.proofs.lemmas.List.Edits.{sets};
ghost use Rattle.words.specs.Words.{words};
ghost use Rattle.words.specs.Writing.{farthest};
ghost use Rattle.grids.specs.Cells.{wholes, cell_fits, passing, passing_with};
ghost use Rattle.grids.specs.Given.{Reads};

use crate::cells::cell_fits;
use crate::headers::Header;
use crate::judging::{BadGrid, judged};
use crate::names::span_at;
use crate::wholes::whole;
use words::next_word;

// How many cells stand before the first that is refused, and how many in all.
#[derive(Clone, Copy)]
struct Cells {
    passing: usize,
    count: usize,
}

// The last of a header's twelve words.
const LAST_OF_HEADER: usize = 11;

// One more passes, where all before it did.
#[tactic(auto, unfolding(crate::specs::Cells::passing_with))]
fn passed(passing: usize, count: usize, fits: bool) -> usize
    requires { passing < farthest }
    ensures { result ≡ passing_with passing count fits }
{
    if (passing == count) & fits {
        return passing + 1;
    }
    passing
}

fn scan(text: &[u8], from: usize, no_data: i32) -> Cells
    ensures { (result.passing ≡ passing (cell_fits no_data) (wholes (words (drop from text.now))))
        × (result.count ≡ length (wholes (words (drop from text.now)))) }
{
    let mut passing = 0;
    let mut count = 0;
    let mut word = next_word(text, from);
    while word.start < word.end {
        let fits = cell_fits(no_data, whole(&text[word.start..word.end]));
        passing = passed(passing, count, fits);
        count += 1;
        word = next_word(text, word.end);
    }
    Cells { passing, count }
}

// The place goes along with the words, which no iterator gives.
fn fill(text: &[u8], from: usize, cells: &mut [i32])
    requires { length (wholes (words (drop from text.now))) ≤ length cells.old }
    ensures { cells.new ≡ sets cells.old 0 (wholes (words (drop from text.now))) }
{
    let mut i = 0;
    let mut word = next_word(text, from);
    while word.start < word.end {
        cells[i] = whole(&text[word.start..word.end]);
        i += 1;
        word = next_word(text, word.end);
    }
}

// The cells go to the front of the lent ones; of a refused grid none does.
pub fn read_grid(text: &[u8], cells: &mut [i32]) -> Result<Header, BadGrid>
    ensures { Reads text.now cells.old cells.new result }
{
    let header = Header::in_text(text);
    let from = span_at(text, LAST_OF_HEADER).end;
    let found = scan(text, from, header.no_data);
    let enough = found.count <= cells.len();
    judged(header, found.passing, found.count, enough)?;
    fill(text, from, cells);
    Ok(header)
}
