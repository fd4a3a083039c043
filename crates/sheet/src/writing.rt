// The sheet's files, each written beside its place first and then, when all ten stand, renamed into it.
use crate::folder::{Folder, Place};
use crate::texts::Texts;
use crate::wrong::{What, Wrong};
use intake::{print, say};
use std::fs::OpenFile;
use std::io::{Error, ErrorKind, Write};
use std::rt::Files;
use std::{fs, io};

#[derive(Clone, Copy)]
pub(crate) enum SheetFile {
    Recharge,
    Evapotranspiration,
    Outflow,
    Interception,
    Rejected,
    Soil,
    Snow,
    Days,
    // The sheet for a person, which is also printed.
    Person,
    Map,
}

// The folder in the folder.
#[derive(Clone, Copy)]
enum Stands {
    // This run has made it.
    Made,
    Before,
}

impl SheetFile {
    // In the order in which they are written.
    const ALL: [SheetFile; 10] = [
        SheetFile::Recharge,
        SheetFile::Evapotranspiration,
        SheetFile::Outflow,
        SheetFile::Interception,
        SheetFile::Rejected,
        SheetFile::Soil,
        SheetFile::Snow,
        SheetFile::Days,
        SheetFile::Person,
        SheetFile::Map,
    ];

    // From the folder on.
    fn name(self) -> &'static str {
        match self {
            SheetFile::Recharge => "sheet/recharge.asc",
            SheetFile::Evapotranspiration => "sheet/evapotranspiration.asc",
            SheetFile::Outflow => "sheet/outflow.asc",
            SheetFile::Interception => "sheet/interception.asc",
            SheetFile::Rejected => "sheet/rejected.asc",
            SheetFile::Soil => "sheet/soil.asc",
            SheetFile::Snow => "sheet/snow.asc",
            SheetFile::Days => "sheet/days.txt",
            SheetFile::Person => "sheet/sheet.txt",
            SheetFile::Map => "sheet/recharge.svg",
        }
    }
}

// The calls of the system, each on the path of a place.
fn make_dir(rt: &impl Files, place: Place<'_>) -> io::Result<()> {
    fs::create_dir(rt, place.path()?.as_str())
}

fn remove_dir(rt: &impl Files, place: Place<'_>) -> io::Result<()> {
    fs::remove_dir(rt, place.path()?.as_str())
}

fn remove_file(rt: &impl Files, place: Place<'_>) -> io::Result<()> {
    fs::remove_file(rt, place.path()?.as_str())
}

fn rename(rt: &impl Files, from: Place<'_>, to: Place<'_>) -> io::Result<()> {
    fs::rename(rt, from.path()?.as_str(), to.path()?.as_str())
}

// What a disk has not taken is told here, since a file that is let go tells nothing. What is on no disk, such as a device, has nothing to tell.
fn synced(file: &impl OpenFile) -> io::Result<()> {
    match file.sync_all() {
        Err(error) if is_on_no_disk(error) => Ok(()),
        told => told,
    }
}

fn is_on_no_disk(error: Error) -> bool {
    matches!(
        error.kind(),
        ErrorKind::InvalidInput | ErrorKind::Unsupported
    )
}

fn overwrite(rt: &impl Files, place: Place<'_>, text: &[u8]) -> io::Result<()> {
    let mut file = fs::create(rt, place.path()?.as_str())?;
    file.write_all(text)?;
    synced(&file)
}

fn failed<'a>(place: Place<'a>, status: io::Result<()>) -> Result<(), Wrong<'a>> {
    status.map_err(|error| Wrong::At(place, What::Failed(error)))
}

fn make_folder<'a>(rt: &impl Files, folder: Folder<'a>) -> Result<Stands, Wrong<'a>> {
    let place = folder.sheet();
    match make_dir(rt, place) {
        Ok(()) => Ok(Stands::Made),
        Err(error) if error.kind() == ErrorKind::AlreadyExists => Ok(Stands::Before),
        Err(error) => Err(Wrong::At(place, What::Failed(error))),
    }
}

// What stands beside its place is removed again, and the folder too, where this run has made it.
fn undo(rt: &impl Files, folder: Folder<'_>, stands: Stands) {
    for file in SheetFile::ALL {
        let _ = remove_file(rt, folder.at(file.name()).beside());
    }
    if let Stands::Made = stands {
        let _ = remove_dir(rt, folder.sheet());
    }
}

// Each file beside its place, and then, when all ten stand, each in its place.
fn put_all<'a>(rt: &impl Files, folder: Folder<'a>, texts: Texts<'_>) -> Result<(), Wrong<'a>> {
    for file in SheetFile::ALL {
        let place = folder.at(file.name()).beside();
        failed(place, overwrite(rt, place, texts.of(file)))?;
    }
    for file in SheetFile::ALL {
        let place = folder.at(file.name());
        failed(place, rename(rt, place.beside(), place))?;
    }
    Ok(())
}

// All ten files, or none. Why there is none is said before what stands beside its place is removed again.
pub(crate) fn write_files<'a>(
    rt: &(impl Files + Print + Eprint),
    folder: Folder<'a>,
    texts: Texts<'_>,
) -> Result<(), Wrong<'a>> {
    let stands = make_folder(rt, folder)?;
    if let Err(wrong) = put_all(rt, folder, texts) {
        say(rt, Err(wrong));
        undo(rt, folder, stands);
        return Ok(());
    }
    Ok(print(rt, b"sheet: standard output", texts.of(SheetFile::Person))?)
}
