// What is said of a refused setup or day: the file, the place in it, and the refusal.
use crate::folder::{Folder, Source};
use crate::places::line_of;
use crate::setup::Site;
use crate::wrong::{At, Meaning, Refused, What, Wrong};
use covers::ENTRY_NUMBERS;
use lines::NEGATIVES;
use records::Refusal;
use text::number_at;

// The setup's text has the width and the height, on a line, before the cover file.
const SIZE_WORDS: usize = 2;

pub(crate) const DAY_NUMBERS: usize = 7;

const MOST_GROUP: u32 = 4;

// A word that is no number, or is missing.
const BAD_WORD: u32 = 11;

const NO_NUMBER: &str = "not a whole number of 1 to 9 digits";

fn has_code(covers: &[u32], code: u32) -> bool {
    covers
        .chunks(ENTRY_NUMBERS)
        .any(|entry| entry.first() == Some(&code))
}

// Refusal 4: which of the cell's four numbers is at fault. A direction below zero has taken the group's place, so it comes first.
fn faulty_number(site: &Site<'_>, cell: usize) -> (Source, &'static str) {
    let group = number_at(site.setup.group, cell);
    if NEGATIVES < number_at(site.setup.direction, cell) {
        (Source::Direction, "a direction below zero")
    } else if !has_code(site.setup.covers, number_at(site.setup.cover, cell)) {
        (Source::Cover, "the cover table has no entry for this cover")
    } else if (group < 1) | (MOST_GROUP < group) {
        (Source::Group, "a soil group outside 1 to 4")
    } else {
        (Source::Water, "available water outside 0 to 600")
    }
}

// What the library can say no to in a folder whose grids fit: the setup, or this day of the weather.
pub(crate) fn refusal_of<'a>(
    folder: Folder<'a>,
    site: &Site<'_>,
    weather: &[u8],
    day: usize,
    why: Refusal,
) -> Wrong<'a> {
    let place = why.place();
    let cell = At::Cell(site.cell(place));
    let line = At::Line(line_of(weather, DAY_NUMBERS.saturating_mul(day)));
    let (file, at, meaning) = match why {
        Refusal::Grid | Refusal::Lent => (Source::Direction, At::File, Meaning::Untold),
        Refusal::CoverTable(entry) => (
            Source::Covers,
            At::Entry(entry),
            Meaning::Words("the order of the codes, or a figure of this cover outside its limits"),
        ),
        Refusal::CellNumbers(_) => {
            let (file, words) = faulty_number(site, place);
            (file, cell, Meaning::Words(words))
        }
        Refusal::Ring(_) => (
            Source::Direction,
            cell,
            Meaning::Words("the directions lead round in a ring"),
        ),
        Refusal::Climate => (
            Source::Covers,
            At::File,
            Meaning::Words("the growing season is outside its limits"),
        ),
        Refusal::DayRecord => (
            Source::Weather,
            line,
            Meaning::Words("a figure of this day is outside its limits"),
        ),
        Refusal::SerialGap => (
            Source::Weather,
            line,
            Meaning::Words("the serial does not follow that of the day before"),
        ),
        Refusal::StateAt(_) => (Source::Weather, line, Meaning::Untold),
        Refusal::Snowfall(_) => (
            Source::Weather,
            line,
            Meaning::TooMuchSnow(site.cell(place)),
        ),
    };
    Wrong::At(
        folder.source(file),
        What::Refused(Refused {
            at,
            number: why.number(),
            place,
            meaning,
        }),
    )
}

// A word that is no number, or is missing, by its place among the words of its file.
fn bad_word<'a>(
    folder: Folder<'a>,
    file: Source,
    line: usize,
    place: usize,
    meaning: &'static str,
) -> Wrong<'a> {
    Wrong::At(
        folder.source(file),
        What::Refused(Refused {
            at: At::Line(line),
            number: BAD_WORD,
            place,
            meaning: Meaning::Words(meaning),
        }),
    )
}

// A word of the cover file that is no number, by its place in the setup's text.
pub(crate) fn bad_cover_word<'a>(folder: Folder<'a>, text: &[u8], place: usize) -> Wrong<'a> {
    let line = line_of(text, place).saturating_sub(1);
    let within = place.saturating_sub(SIZE_WORDS);
    bad_word(folder, Source::Covers, line, within, NO_NUMBER)
}

pub(crate) fn bad_weather_word<'a>(folder: Folder<'a>, text: &[u8], place: usize) -> Wrong<'a> {
    let line = line_of(text, place);
    bad_word(folder, Source::Weather, line, place, NO_NUMBER)
}

// The line is that of the day whose numbers are missing.
pub(crate) fn cut_off<'a>(folder: Folder<'a>, text: &[u8], count: usize) -> Wrong<'a> {
    let line = line_of(text, count - count % DAY_NUMBERS);
    let meaning = "the last day has fewer than 7 numbers";
    bad_word(folder, Source::Weather, line, count, meaning)
}
