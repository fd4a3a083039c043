// Plain numbers and quantities, and what a call returns to C.
ghost use Rattle.std.specs.Prelude.{◌≡◌, ◌<◌, min};
ghost use Rattle.paper.specs.Refusals.{refused};
ghost use Rattle.records.specs.Verdicts.{refusal_as, verdict_as};
ghost use Rattle.clib.specs.Narrow.{narrow};
ghost use Rattle.clib.specs.Numbers.{numbered as both, told};

use records::{Depth, FrostIndex, Refusal, wide};

const NUMBER: u64 = 4294967296;

// The last place that 32 bits hold; one past it is told as this one.
const LAST_PLACE: usize = 4294967295;

pub(crate) fn depth(figure: u32) -> Depth
    ensures { (result.0 ≡ figure) × (result.0 < narrow) }
{
    Depth(figure as u64)
}

pub(crate) fn index(figure: u32) -> FrostIndex
    ensures { (result.0 ≡ figure) × (result.0 < narrow) }
{
    FrostIndex(figure as u64)
}

// A refusal's number × 2^32 + its place.
pub(crate) fn numbered(number: u32, place: usize) -> u64
    ensures { result ≡ both number (min place 4294967295) }
{
    wide(number) * NUMBER + place.min(LAST_PLACE) as u64
}

#[tactic(auto, unfolding(crate::specs::Numbers::told, paper::specs::Refusals::verdict_number, paper::specs::Refusals::verdict_place))]
pub(crate) fn refused_as(why: Refusal) -> u64
    ensures { result ≡ told (refused (refusal_as why)) }
{
    numbered(why.number(), why.place())
}

// 0 where it accepts.
#[tactic(auto, unfolding(crate::specs::Numbers::told, paper::specs::Refusals::verdict_number, paper::specs::Refusals::verdict_place))]
pub fn returned_as(verdict: Result<(), Refusal>) -> u64
    ensures { result ≡ told (verdict_as verdict) }
{
    match verdict {
        Ok(()) => 0,
        Err(why) => refused_as(why),
    }
}
