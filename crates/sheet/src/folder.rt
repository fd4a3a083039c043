// The folder that is asked about, and the files in it.
use desk::GridFile;
use intake::{Words, path_of};
use std::fmt::{Display, Formatter, InlineText};
use std::{fmt, io};

#[derive(Clone, Copy)]
pub(crate) struct Folder<'a>(pub(crate) &'a [u8]);

// A file of the folder, or a folder in it, by its path.
#[derive(Clone, Copy)]
pub(crate) struct Place<'a> {
    folder: Folder<'a>,
    name: &'static str,
    // What stands beside its place has a longer name.
    suffix: &'static str,
}

// The files that a sheet is made of.
#[derive(Clone, Copy)]
pub(crate) enum Source {
    Direction,
    Cover,
    Group,
    Water,
    Covers,
    Weather,
}

// The name of a folder, which has up to 4,096 bytes, a slash, and `sheet/evapotranspiration.asc.new`, which is the longest name.
const PATH_ROOM: usize = 4160;

impl Source {
    fn name(self) -> &'static str {
        match self {
            Source::Direction => "direction.asc",
            Source::Cover => "cover.asc",
            Source::Group => "group.asc",
            Source::Water => "water.asc",
            Source::Covers => "covers.txt",
            Source::Weather => "weather.txt",
        }
    }

    pub(crate) fn grid(file: GridFile) -> Source {
        match file {
            GridFile::Direction => Source::Direction,
            GridFile::Cover => Source::Cover,
            GridFile::Group => Source::Group,
            GridFile::Water => Source::Water,
        }
    }
}

impl<'a> Folder<'a> {
    pub(crate) fn at(self, name: &'static str) -> Place<'a> {
        Place {
            folder: self,
            name,
            suffix: "",
        }
    }

    pub(crate) fn source(self, file: Source) -> Place<'a> {
        self.at(file.name())
    }

    // The folder in it, which has the sheet's files.
    pub(crate) fn sheet(self) -> Place<'a> {
        self.at("sheet")
    }
}

impl Place<'_> {
    pub(crate) fn beside(self) -> Self {
        Place {
            suffix: ".new",
            ..self
        }
    }

    // The path as std takes it. No file is opened whose name is not text.
    pub(crate) fn path(self) -> io::Result<InlineText<PATH_ROOM>> {
        path_of(self.folder.0)?;
        Ok(InlineText::of(self))
    }
}

// A folder may be named with a slash behind it.
impl Display for Place<'_> {
    fn fmt<W: fmt::Write>(&self, f: &mut Formatter<W>) -> fmt::Result {
        let slash = match self.folder.0.last() {
            Some(b'/') => "",
            _ => "/",
        };
        write!(
            f,
            "{}{slash}{}{}",
            Words(self.folder.0),
            self.name,
            self.suffix
        )
    }
}
