// Snow and melt of rule 3, by the days of document 003 and by the maximum.
use crate::one_cell::{BARE, Cell, Temperatures, remembered, weather};
use records::{Refusal, TenthF};

// 40 inches on a day of these temperatures leave snow exactly if they fall as snow: no day melts so much.
fn snows(temperatures: Temperatures) -> Result<bool, Refusal> {
    let cell = Cell::DRY.lived(BARE, remembered(0, 0), weather(400000, temperatures, 0))?;
    Ok(cell.snow > 0)
}

// One day of document 003's table 3 on ground that passes all its water on: 1 for snow or 0 for rain, the snow that lies after it, and what reached
// the ground.
fn winter(
    rt: &impl Print,
    day_of_month: u64,
    gross: u64,
    temperatures: Temperatures,
    before: Cell,
) -> Result<Cell, Refusal> {
    let after = before.lived(BARE, remembered(0, 0), weather(gross, temperatures, 0))?;
    let falls = u8::from(snows(temperatures)?);
    let Cell { snow, outflow, .. } = after;
    let _ = println!(rt; "snow {day_of_month} {falls} {snow} {outflow}");
    Ok(after)
}

// How far a maximum is above freezing, and what a dry day of it melts of deep snow, read off ground that passes all its water on.
fn melted(rt: &impl Print, maximum: i32) -> Result<(), Refusal> {
    let deep = Cell {
        snow: 1000000,
        ..Cell::DRY
    };
    let temperatures = Temperatures {
        minimum: 100,
        mean: 200,
        maximum,
    };
    let cell = deep.lived(BARE, remembered(0, 0), weather(0, temperatures, 0))?;
    let degrees = TenthF(maximum).above_freezing();
    let _ = println!(rt; "melt {degrees} {}", cell.outflow);
    Ok(())
}

pub(crate) fn melts(rt: &impl Print) -> Result<(), Refusal> {
    for maximum in [320, 321, 325, 330, 410, 500, 701, 1000, 1500] {
        melted(rt, maximum)?;
    }
    Ok(())
}

pub(crate) fn winter_days(rt: &impl Print) -> Result<(), Refusal> {
    let mut cell = Cell::DRY;
    for (day_of_month, gross, minimum, mean, maximum) in [
        (2, 900, 100, 215, 330),
        (3, 1000, 330, 370, 410),
        (4, 1700, 240, 315, 390),
        (5, 30, 190, 235, 280),
        (6, 30, 150, 205, 260),
        (7, 30, 100, 160, 220),
        (8, 30, 60, 140, 220),
        (9, 30, 160, 185, 210),
    ] {
        let temperatures = Temperatures {
            minimum,
            mean,
            maximum,
        };
        cell = winter(rt, day_of_month, gross, temperatures, cell)?;
    }
    Ok(())
}
