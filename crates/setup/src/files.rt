// The files that the arguments name, in their order.
ghost use Rattle.intake.specs.Input.{Within};

use crate::wrong::Wrong;
use desk::GridFile;
use intake::{Name, Unread, argument_count, name_given};
use std::rt::{Env, Files};

// The program's own name counts as an argument.
const ARGUMENTS: usize = 7;

#[derive(Clone, Copy)]
pub(crate) struct Names {
    pub(crate) direction: Name,
    pub(crate) cover: Name,
    pub(crate) group: Name,
    pub(crate) water: Name,
    pub(crate) covers: Name,
    pub(crate) weather: Name,
}

fn all_named(rt: &impl Env) -> Option<Names> {
    Some(Names {
        direction: name_given(rt, 1)?,
        cover: name_given(rt, 2)?,
        group: name_given(rt, 3)?,
        water: name_given(rt, 4)?,
        covers: name_given(rt, 5)?,
        weather: name_given(rt, 6)?,
    })
}

impl Names {
    pub(crate) fn given(rt: &impl Env) -> Result<Names, Wrong<'static>> {
        if argument_count(rt) != ARGUMENTS {
            return Err(Wrong::Usage);
        }
        all_named(rt).ok_or(Wrong::LongName)
    }

    pub(crate) fn grid(&self, file: GridFile) -> &Name {
        match file {
            GridFile::Direction => &self.direction,
            GridFile::Cover => &self.cover,
            GridFile::Group => &self.group,
            GridFile::Water => &self.water,
        }
    }
}

fn read_named(
    rt: &impl Files,
    name: &Name,
    longest: usize,
    buffer: &mut [u8],
) -> Result<usize, Unread>
    ensures { Within result buffer.new }
{
    intake::read_file(rt, name.as_bytes(), longest, buffer)
}

// The file's bytes, at the front of a buffer that has a place more than the longest.
pub(crate) fn read<'a, 'b>(
    rt: &impl Files,
    name: &'a Name,
    longest: usize,
    buffer: &'b mut [u8],
) -> Result<&'b [u8], Wrong<'a>> {
    match read_named(rt, name, longest, buffer) {
        Ok(count) => Ok(&buffer[..count]),
        Err(why) => Err(Wrong::Unread(name, why)),
    }
}
