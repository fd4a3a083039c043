// The program's arguments: the cell, and the serial of a day where one is given.
use crate::wrong::Wrong;
use records::index_of;
use std::rt::Env;
use words::number;

// The cell that is asked about, on the day with a serial, or else on every day.
#[derive(Clone, Copy)]
pub(crate) struct Question {
    pub(crate) cell: usize,
    pub(crate) serial: Option<u32>,
}

// Room for a number, and to see that a longer word is none.
const WORD: usize = 16;

// A program's own name counts as an argument.
const WITH_CELL: usize = 2;

const WITH_SERIAL: usize = 3;

// An argument's number.
fn number_at(rt: &impl Env, i: usize) -> Option<u32> {
    let word = intake::argument::<WORD>(rt, i)?;
    u32::try_from(number(word.as_bytes())?).ok()
}

impl Question {
    pub(crate) fn asked(rt: &impl Env) -> Result<Question, Wrong> {
        let count = intake::argument_count(rt);
        if (count < WITH_CELL) | (WITH_SERIAL < count) {
            return Err(Wrong::Usage);
        }
        let cell = index_of(number_at(rt, 1).ok_or(Wrong::Cell)?);
        if count < WITH_SERIAL {
            return Ok(Question { cell, serial: None });
        }
        let serial = number_at(rt, 2).ok_or(Wrong::Serial)?;
        Ok(Question {
            cell,
            serial: Some(serial),
        })
    }

    pub(crate) fn is_about(self, serial: u32) -> bool {
        self.serial.is_none_or(|asked| asked == serial)
    }
}
