// A text taken up: its numbers read and tested, before anything is run.
ghost use Rattle.std.specs.Prelude.{◌≡◌};
ghost use Rattle.text.specs.Program.{screen as screenOf};
ghost use Rattle.text.specs.Taking.{taken_in, TakenUp};

use crate::fields::{CELL_NUMBERS, DAY_NUMBERS, cells_from};
use crate::screening::{BadText, screen};
use lines::{BAD_TEXT, BadForm, MOST_NUMBERS, read, units};

// Where the parts of a text stand among its numbers.
#[derive(Clone, Copy)]
pub struct Layout {
    // How many numbers there are.
    pub numbers: usize,
    pub cells: usize,
    // Where the cover table ends and the cells begin.
    pub cells_from: usize,
    pub days_from: usize,
    pub days: usize,
}

// The numbers of a text of good form.
fn screened(numbers: &[u32]) -> Result<Layout, BadText>
    ensures { result ≡ taken_in numbers.now (screenOf numbers.now) }
{
    let cells = screen(numbers)?;
    let count = numbers.len();
    let cells_from = cells_from(numbers);
    let days_from = cells_from + CELL_NUMBERS * cells;
    let days = (count - days_from) / DAY_NUMBERS;
    Ok(Layout {
        numbers: count,
        cells,
        cells_from,
        days_from,
        days,
    })
}

// Reads a text's numbers to the front of the lent array, and says where its parts stand among them, or what is wrong.
pub fn take_up(input: &[u8], numbers: &mut [u32; MOST_NUMBERS]) -> Result<Layout, BadText>
    ensures { TakenUp input.now numbers.old numbers.new result }
{
    match read(input, numbers) {
        Ok(count) => {
            let all: &[u32] = numbers;
            screened(&all[..count])
        }
        Err(BadForm(count)) => Err(BadText {
            number: BAD_TEXT,
            place: units(count),
        }),
    }
}
