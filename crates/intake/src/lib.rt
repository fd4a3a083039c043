// Standard input, files and arguments for the programs, each whole or not at all; their output; and what is said where one of these fails.
#![tactic(auto)]

ghost use Rattle.std.specs.Prelude.{◌≡◌, ◌≤◌, length, replicate};
ghost use Rattle.intake.specs.Input.{Within};

use std::env::{Env, FillError};
use std::fmt::{Display, Formatter, InlineText};
use std::io::{Error, ErrorKind, Read};
use std::rt::Files;
use std::{fmt, fs, io, str};

// Room for the system's words, which std ends with the error's number.
const MOST_WORDS: usize = 128;

// The longest name of a file.
const MOST_NAME: usize = 4096;

// Bytes as they are printed: a name need not be text.
#[derive(Clone, Copy)]
pub struct Words<'a>(pub &'a [u8]);

// What the system says of an error, without the error's number.
#[derive(Clone, Copy)]
pub struct Reason(pub Error);

// A read or a write that failed, and of what.
#[derive(Clone, Copy)]
pub struct Failure<'a> {
    what: &'a [u8],
    error: Error,
}

// Why a file is not read whole.
#[derive(Clone, Copy)]
pub enum Unread {
    Failed(Error),
    // It has more bytes than this.
    Longer(usize),
}

// An argument's bytes, at the front of their room.
#[derive(Clone, Copy)]
pub struct ArgumentBytes<const N: usize> {
    room: [u8; N],
    count: usize,
    ghost inside: { count ≤ N },
}

// The name of a file or of a folder.
pub type Name = ArgumentBytes<MOST_NAME>;

impl Display for Words<'_> {
    fn fmt<W: fmt::Write>(&self, f: &mut Formatter<W>) -> fmt::Result {
        for chunk in self.0.utf8_chunks() {
            f.write_str(chunk.valid())?;
            if !chunk.invalid().is_empty() {
                f.write_str("\u{fffd}")?;
            }
        }
        Ok(())
    }
}

impl Display for Reason {
    fn fmt<W: fmt::Write>(&self, f: &mut Formatter<W>) -> fmt::Result {
        let text = InlineText::<MOST_WORDS>::of(self.0);
        let words = text.as_str();
        f.write_str(match words.split_once(" (os error ") {
            Some((reason, _)) => reason,
            None => words,
        })
    }
}

impl Display for Failure<'_> {
    fn fmt<W: fmt::Write>(&self, f: &mut Formatter<W>) -> fmt::Result {
        write!(f, "{}: {}", Words(self.what), Reason(self.error))
    }
}

impl Display for Unread {
    fn fmt<W: fmt::Write>(&self, f: &mut Formatter<W>) -> fmt::Result {
        match *self {
            Unread::Failed(error) => write!(f, "{}", Reason(error)),
            Unread::Longer(longest) => write!(f, "longer than {longest} bytes"),
        }
    }
}

impl From<Error> for Unread {
    fn from(error: Error) -> Unread {
        Unread::Failed(error)
    }
}

impl<const N: usize> ArgumentBytes<N> {
    pub fn as_bytes(&self) -> &[u8]
        ensures { length result.now ≤ N }
    {
        &self.room[..self.count]
    }
}

// A long array of one value, in a function of its own: the checker writes it out in every function that makes one.
pub fn filled<T: Copy, const N: usize>(value: T) -> [T; N]
    ensures { N ≡ length result }
{
    [value; N]
}

// Room for the longest input and a byte more, so that a longer one shows by its length.
pub fn input_room() -> [u8; 65537]
    ensures { (result ≡ replicate 65537 0) × (65537 ≡ length result) }
{
    [0u8; 65537]
}

// A name as std takes it, which opens no file whose name is not text.
pub fn path_of(name: &[u8]) -> io::Result<&str> {
    str::from_utf8(name).map_err(|_| Error::from(ErrorKind::InvalidFilename))
}

// The program's own name counts as an argument.
pub fn argument_count(rt: &impl Env) -> usize {
    for i in 0..usize::MAX {
        if let Err(FillError::NotPresent) = rt.arg(i, &mut []) {
            return i;
        }
    }
    usize::MAX
}

// None of an argument that is missing, or longer than its room.
pub fn argument<const N: usize>(rt: &impl Env, i: usize) -> Option<ArgumentBytes<N>> {
    let mut room = [0u8; N];
    let count = rt.arg(i, &mut room).ok()?;
    Some(ArgumentBytes { room, count })
}

// A name that is missing, empty or too long is none.
pub fn name_given(rt: &impl Env, i: usize) -> Option<Name> {
    argument(rt, i).filter(|name: &Name| !name.as_bytes().is_empty())
}

// Reads until the input ends or the buffer is full, and answers how many bytes stand at its front. Where a read fails, that is not the end, and what came
// before it stands for no input.
fn read_from(file: &mut impl Read, buffer: &mut [u8]) -> io::Result<usize>
    ensures { Within result buffer.new }
{
    let mut done = 0;
    while done < buffer.len() {
        let more = file.read(&mut buffer[done..])?;
        if more == 0 {
            break;
        }
        done += more;
    }
    Ok(done)
}

pub fn read_input<'a>(
    rt: &impl std::io::Input,
    what: &'a [u8],
    buffer: &mut [u8],
) -> Result<usize, Failure<'a>>
    ensures { Within result buffer.new }
{
    read_from(&mut rt.reader(), buffer).map_err(|error| Failure { what, error })
}

// The same of a file, which may also fail to be opened. The buffer has a place more than the longest, so that a longer file shows by its length.
pub fn read_file(
    rt: &impl Files,
    name: &[u8],
    longest: usize,
    buffer: &mut [u8],
) -> Result<usize, Unread>
    ensures { Within result buffer.new }
{
    let mut file = fs::open(rt, path_of(name)?)?;
    let count = read_from(&mut file, buffer)?;
    if longest < count {
        return Err(Unread::Longer(longest));
    }
    Ok(count)
}

pub fn print<'a>(rt: &impl Print, what: &'a [u8], text: &[u8]) -> Result<(), Failure<'a>> {
    rt.write_all(text).map_err(|error| Failure { what, error })
}

// Says on standard error what went wrong, if anything did.
pub fn say<E: Display + Drop>(rt: &impl Eprint, outcome: Result<(), E>) {
    if let Err(error) = outcome {
        let _ = rt.eprintln(error);
    }
}
