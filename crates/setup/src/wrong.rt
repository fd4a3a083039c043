// What can go wrong, as it is said on standard error.
use crate::files::Names;
use desk::{Fault, GridFile};
use intake::{Failure, Name, Unread, Words};
use std::fmt;
use std::fmt::{Display, Formatter};

#[derive(Clone, Copy)]
pub(crate) enum Wrong<'a> {
    Usage,
    LongName,
    Unread(&'a Name, Unread),
    // The files do not make a text.
    Files(&'a Names, Fault),
    Unwritten(Failure<'a>),
}

impl<'a> From<Failure<'a>> for Wrong<'a> {
    fn from(failure: Failure<'a>) -> Self {
        Wrong::Unwritten(failure)
    }
}

fn words(name: &Name) -> Words<'_> {
    Words(name.as_bytes())
}

// A fault of the files, by their names.
#[derive(Clone, Copy)]
struct Named<'a> {
    names: &'a Names,
    fault: Fault,
}

impl Display for Named<'_> {
    fn fmt<W: fmt::Write>(&self, f: &mut Formatter<W>) -> fmt::Result {
        let of = |file: GridFile| words(self.names.grid(file));
        let first = words(&self.names.direction);
        match self.fault {
            Fault::Refused(file, place) => write!(f, "{}: refused 12 at {place}", of(file)),
            Fault::Size(file) => write!(f, "{}: another size than {first}", of(file)),
            Fault::Corner(file) => write!(f, "{}: another corner than {first}", of(file)),
            Fault::CellSize(file) => write!(f, "{}: another cell size than {first}", of(file)),
            Fault::Covers => write!(
                f,
                "{}: not a season, a count of covers and 16 numbers for each",
                words(&self.names.covers)
            ),
            Fault::TooLong(count) => write!(
                f,
                "the text would have {count} bytes, and balance reads 65536"
            ),
        }
    }
}

impl Display for Wrong<'_> {
    fn fmt<W: fmt::Write>(&self, f: &mut Formatter<W>) -> fmt::Result {
        match *self {
            Wrong::Usage => {
                f.write_str("usage: setup DIRECTION COVER GROUP WATER COVERS WEATHER")
            }
            Wrong::LongName => f.write_str("setup: a file's name has more than 4096 bytes"),
            Wrong::Unread(name, why) => write!(f, "setup: {}: {why}", words(name)),
            Wrong::Files(names, fault) => write!(f, "setup: {}", Named { names, fault }),
            Wrong::Unwritten(failure) => write!(f, "{failure}"),
        }
    }
}
