// Runs the program's whole text over many inputs and compares with stored outputs. The file `vectors` holds them: for each two lengths of six digits,
// the input's bytes and the output's, as bench/vectors.c wrote them from the plain C; docs/vectors.txt says what each is for.
#![tactic(auto)]

ghost use Rattle.std.specs.Prelude.{◌≡◌, ◌≤◌, true, length};

use intake::{Reason, filled};
use std::fs;
use std::io::Read;
use std::rt::Files;
use text::MOST_TEXT;

// A proved loop has to end, and nothing says that a file does: so many vectors and no more.
const MOST_VECTORS: u64 = 100000;

const MOST_WANTED: usize = 131072;

// Two numbers of six digits, each with a byte behind it.
const HEADING: usize = 14;

// What no text has in every place, to see what was written.
const UNTOUCHED: u8 = 7;

// How long a vector's input and output are.
#[derive(Clone, Copy)]
struct Lengths {
    input: usize,
    wanted: usize,
}

// A vector that is cut off, or longer than there is room for.
#[derive(Clone, Copy)]
struct Damaged;

fn digit(byte: u8) -> usize
    ensures { result ≤ 9 }
{
    usize::from(byte.saturating_sub(b'0').min(9))
}

fn size(digits: &[u8]) -> usize {
    digits.iter().fold(0usize, |size, &byte| {
        size.saturating_mul(10).saturating_add(digit(byte))
    })
}

// Reads until the part is full, the file ends or a read fails, and answers how many bytes stand at its front. It is not intake's reader, to which a read that
// fails is an error: here it ends the file.
fn read_full(file: &mut impl Read, part: &mut [u8]) -> usize
    ensures { result ≤ length part.new }
{
    let mut done = 0;
    while done < part.len() {
        let Ok(more) = file.read(&mut part[done..]) else {
            break;
        };
        if more == 0 {
            break;
        }
        done += more;
    }
    done
}

// The next vector's lengths; none where the file ends.
fn heading(file: &mut impl Read) -> Result<Option<Lengths>, Damaged> {
    let mut heading = [0u8; HEADING];
    match read_full(file, &mut heading) {
        0 => Ok(None),
        HEADING => Ok(Some(Lengths {
            input: size(&heading[..6]),
            wanted: size(&heading[7..13]),
        })),
        _ => Err(Damaged),
    }
}

// Fills the front of the room with so many of the file's next bytes.
fn filled_front<'a>(
    file: &mut impl Read,
    count: usize,
    room: &'a mut [u8],
) -> Result<&'a [u8], Damaged> {
    let part = room.get_mut(..count).ok_or(Damaged)?;
    if read_full(file, part) < count {
        return Err(Damaged);
    }
    Ok(part)
}

// True for no two that differ.
fn same(found: &[u8], wanted: &[u8]) -> bool
    ensures { result ≡ true → found.now ≡ wanted.now }
{
    found == wanted
}

// A vector, and what comes of it.
#[derive(Drop)]
struct Rooms {
    input: [u8; 65537],
    wanted: [u8; MOST_WANTED],
    output: [u8; MOST_TEXT],
}

// Whether the text function agrees on one input.
fn agrees(input: &[u8], wanted: &[u8], output: &mut [u8]) -> bool {
    let Some(used) = text::balance_text(input, output) else {
        return false;
    };
    output.get(..used).is_some_and(|found| same(found, wanted))
}

// A buffer that is too short for a text by a byte is said to be so, and is left as it was.
fn is_left_alone(buffer: &mut [u8]) -> bool {
    let Some((_, short)) = buffer.split_last_mut() else {
        return false;
    };
    match text::balance_text(b"1 1 1 1", short) {
        Some(_) => false,
        None => short.iter().all(|&byte| byte == UNTOUCHED),
    }
}

impl Rooms {
    // Whether the next vector agrees; none where the file ends.
    fn next(&mut self, file: &mut impl Read) -> Result<Option<bool>, Damaged> {
        let Some(lengths) = heading(file)? else {
            return Ok(None);
        };
        let input = filled_front(file, lengths.input, &mut self.input)?;
        let wanted = filled_front(file, lengths.wanted, &mut self.wanted)?;
        Ok(Some(agrees(input, wanted, &mut self.output)))
    }

    fn compare(&mut self, rt: &impl Print, file: &mut impl Read) {
        let mut differ = 0u64;
        for number in 1..=MOST_VECTORS {
            match self.next(file) {
                Ok(Some(true)) => {}
                Ok(Some(false)) => {
                    let _ = println!(rt; "vector {number} differs");
                    differ = differ.saturating_add(1);
                }
                Ok(None) => {
                    let _ = println!(rt; "{} vectors, {differ} differ", number - 1);
                    return;
                }
                Err(Damaged) => {
                    let _ = println!(rt; "vector {number} is damaged");
                    return;
                }
            }
        }
    }
}

fn run(rt: &(impl Files + Print + Eprint), rooms: &mut Rooms) {
    let _ = rt.println(if is_left_alone(&mut rooms.output) {
        "a short buffer is left alone"
    } else {
        "a short buffer is WRITTEN TO"
    });
    match fs::open(rt, "vectors") {
        Ok(mut file) => rooms.compare(rt, &mut file),
        Err(error) => {
            let _ = eprintln!(rt; "vectors: {}", Reason(error));
        }
    }
}

fn main(rt: HostRuntime) {
    let mut rooms = Rooms {
        input: intake::input_room(),
        wanted: filled(0),
        output: filled(UNTOUCHED),
    };
    run(&rt, &mut rooms);
}
