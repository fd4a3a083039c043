// The program's text as one function of the input: it is taken up, then run.
ghost use Rattle.text.specs.Program.{printed};
ghost use Rattle.text.specs.Run.{Printed, most_text};
ghost use Rattle.words.specs.Writing.{Wrote};

use crate::screening::BadText;
use crate::starting::started;
use crate::taking::take_up;
use lines::{MOST_NUMBERS, refused};

// Room for the longest text: specs/Run.antt says how it is made up.
pub const MOST_TEXT: usize = 786461;

// The whole text.
fn text(input: &[u8], output: &mut [u8]) -> usize
    ensures { Wrote most_text 0 (printed input.now) output.old output.new result }
{
    let mut numbers = [0u32; MOST_NUMBERS];
    match take_up(input, &mut numbers) {
        Err(BadText { number, place }) => refused(output, 0, number, place),
        Ok(layout) => {
            let count = layout.numbers;
            started(&numbers[..count], layout, output)
        }
    }
}

// What the program `balance` prints for an input, written from the front of a lent buffer: how many bytes, or none in a buffer that is shorter than the
// longest text.
#[tactic(auto, using(crate::proofs::PrintedLaws::no_room, crate::proofs::PrintedLaws::with_room))]
pub fn balance_text(input: &[u8], output: &mut [u8]) -> Option<usize>
    ensures { Printed input.now output.old output.new result }
{
    if output.len() < MOST_TEXT {
        return None;
    }
    Some(text(input, output))
}
