// The two lines of a day: why the cell got its figures, and the figures.
ghost use Rattle.std.specs.Prelude.{◌≡◌};
ghost use Rattle.words.specs.Writing.{Wrote};
ghost use Rattle.reasons.specs.Whys.{reason_as, why_as};
ghost use Rattle.words.specs.Digits.{bytes};
ghost use Rattle.explained.specs.Lines.{reason_words, second_words, reason_line, most_reason_line, figures_line, most_figures_line};
ghost use Rattle.explained.specs.Telling.{figures_as, TellsReason};

use crate::saying::{say, say_two};
use lines::refusal;
use reasons::{Reason, Why};
use records::{Refusal, wide};
use std::ops::ControlFlow;
use words::{put_bytes, put_number};

// Room for the longest lines of a day: specs/Lines.antt says how it is made up.
pub const MOST_LINES: usize = 433;

// A cell's day, in units.
#[derive(Clone, Copy)]
pub(crate) struct Figures {
    pub(crate) intercepted: u64,
    pub(crate) outflow: u64,
    pub(crate) evapotranspired: u64,
    pub(crate) recharged: u64,
    pub(crate) rejected: u64,
    pub(crate) soil: u64,
    pub(crate) snow: u64,
}

// What a reason's first depth is.
fn first_words(reason: Reason) -> &'static [u8]
    ensures { result.now ≡ bytes (reason_words (reason_as reason)) }
{
    match reason {
        Reason::OpenWater => b"open water: gross precipitation ",
        Reason::UnderSnow => {
            b"no water reached the ground and snow lies at the day's end: water "
        }
        Reason::NoWater => b"no water reached the ground: water ",
        Reason::BelowPotential => {
            b"infiltration below potential evapotranspiration: infiltration "
        }
        Reason::RoomForAll => b"the soil had room for all of it: surplus over potential ",
        Reason::AboveLargest => b"excess above the cover's largest: excess ",
        Reason::AllRecharged => b"all the excess recharged: excess ",
    }
}

// And its second.
fn second_words(reason: Reason) -> &'static [u8]
    ensures { result.now ≡ bytes (second_words (reason_as reason)) }
{
    match reason {
        Reason::OpenWater => b", inflow ",
        Reason::UnderSnow => b", snow at the end ",
        Reason::NoWater => b", snow at the end ",
        Reason::BelowPotential => b", potential ",
        Reason::RoomForAll => b", room ",
        Reason::AboveLargest => b", largest ",
        Reason::AllRecharged => b", largest ",
    }
}

// A reason's line.
fn reason_line(buffer: &mut [u8], serial: u32, why: Why) -> usize
    ensures { Wrote most_reason_line 0 (reason_line serial (reason_as why.reason) why.first.0 why.second.0) buffer.old buffer.new result }
{
    let a = put_bytes(buffer, 0, b"serial ");
    let b = put_number(buffer, a, wide(serial));
    let c = put_bytes(buffer, b, b": ");
    let first = first_words(why.reason);
    let second = second_words(why.reason);
    let d = say_two(buffer, c, first, why.first.0, second, why.second.0);
    put_bytes(buffer, d, b" inches\n")
}

// The reason's line, or the refusal that explains a refused day and ends the run.
pub(crate) fn tell_reason(
    buffer: &mut [u8],
    serial: u32,
    why: Result<Why, Refusal>,
) -> ControlFlow<usize, usize>
    ensures { TellsReason serial (why_as why) buffer.old buffer.new result }
{
    match why {
        Ok(why) => ControlFlow::Continue(reason_line(buffer, serial, why)),
        Err(why) => ControlFlow::Break(refusal(buffer, 0, why)),
    }
}

// The figures' line.
pub(crate) fn figures_line(buffer: &mut [u8], at: usize, figures: Figures) -> usize
    ensures { Wrote most_figures_line at (figures_line (figures_as figures)) buffer.old buffer.new result }
{
    let a = say_two(
        buffer,
        at,
        b"  intercepted ",
        figures.intercepted,
        b", outflow ",
        figures.outflow,
    );
    let b = say_two(
        buffer,
        a,
        b", evapotranspired ",
        figures.evapotranspired,
        b", recharged ",
        figures.recharged,
    );
    let c = say_two(
        buffer,
        b,
        b", rejected ",
        figures.rejected,
        b"; soil ",
        figures.soil,
    );
    let d = say(buffer, c, b", snow ", figures.snow);
    put_bytes(buffer, d, b" inches\n")
}
