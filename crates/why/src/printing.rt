// What goes to standard output.
use intake::Failure;
use lines::{ended, refusal, refused};
use records::Refusal;

// Room for any last line.
const LAST_LINE: usize = 64;

pub(crate) fn print(rt: &impl Print, text: &[u8]) -> Result<(), Failure<'static>> {
    intake::print(rt, b"why: standard output", text)
}

// The last line of a text that is refused before anything is run.
pub(crate) fn print_refused(
    rt: &impl Print,
    number: u64,
    place: u64,
) -> Result<(), Failure<'static>> {
    let mut line = [0u8; LAST_LINE];
    let end = refused(&mut line, 0, number, place);
    print(rt, &line[..end])
}

pub(crate) fn print_refusal(rt: &impl Print, why: Refusal) -> Result<(), Failure<'static>> {
    let mut line = [0u8; LAST_LINE];
    let end = refusal(&mut line, 0, why);
    print(rt, &line[..end])
}

// The last line of a run whose days were all accepted.
pub(crate) fn print_end(rt: &impl Print, shown: u64) -> Result<(), Failure<'static>> {
    let mut line = [0u8; LAST_LINE];
    let end = ended(&mut line, 0, shown);
    print(rt, &line[..end])
}
