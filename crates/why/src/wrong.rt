// What can go wrong, as it is said on standard error.
use intake::Failure;
use std::fmt;
use std::fmt::{Display, Formatter};

#[derive(Clone, Copy)]
pub(crate) enum Wrong {
    Usage,
    // The argument is no number.
    Cell,
    Serial,
    // No day of the text has this serial.
    NoDay(u32),
    Failed(Failure<'static>),
}

impl From<Failure<'static>> for Wrong {
    fn from(failure: Failure<'static>) -> Wrong {
        Wrong::Failed(failure)
    }
}

impl Display for Wrong {
    fn fmt<W: fmt::Write>(&self, f: &mut Formatter<W>) -> fmt::Result {
        match self {
            Wrong::Usage => f.write_str("usage: why CELL [SERIAL] < TEXT"),
            Wrong::Cell => f.write_str("why: the cell is no number of 1 to 9 digits"),
            Wrong::Serial => f.write_str("why: the serial is no number of 1 to 9 digits"),
            Wrong::NoDay(serial) => write!(f, "why: no day of the text has serial {serial}"),
            Wrong::Failed(failure) => write!(f, "{failure}"),
        }
    }
}
