// The frost index, by a winter worked by hand: thirty days of mean 14 degrees and 26 of mean 41.
use crate::one_cell::{BARE, Cell, Temperatures, remembered, weather};
use records::Refusal;
use std::ops::Range;

// Dry days of one mean temperature after this index: the index that they set, day by day.
fn spell(rt: &impl Print, days: Range<u64>, mean: i32, before: u64) -> Result<u64, Refusal> {
    let temperatures = Temperatures {
        minimum: mean,
        mean,
        maximum: mean,
    };
    let mut index = before;
    for day in days {
        let cell = Cell::DRY.lived(BARE, remembered(0, index), weather(0, temperatures, 0))?;
        index = cell.frost;
        let _ = println!(rt; "frost {day} {index}");
    }
    Ok(index)
}

pub(crate) fn frost_days(rt: &impl Print) -> Result<(), Refusal> {
    let index = spell(rt, 1..31, 140, 0)?;
    spell(rt, 31..57, 410, index)?;
    Ok(())
}
