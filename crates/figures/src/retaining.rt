// The soil of rule 8 in dry spells, which document 000 fits, and the full soil of a fresh state.
ghost use Rattle.std.specs.Prelude.{◌≤◌};

use crate::one_cell::{Cell, Ground, MILD, one_cell, remembered, weather};
use records::{Refusal, wide};

// The soil after so many dry days, each with a potential of a tenth of the capacity; the capacity is given in tenths of an inch.
fn dried(tenths: u32, days: u32, soil: u32) -> Result<u32, Refusal>
    requires { tenths ≤ 172 }
{
    let ground = Ground {
        curve: 75,
        root: 5 * tenths,
        water: 200,
    };
    let mut cell = Cell { soil, ..Cell::DRY };
    for _ in 0..days {
        let day = weather(0, MILD, 100 * wide(tenths));
        cell = cell.lived(ground, remembered(0, 0), day)?;
    }
    Ok(cell.soil)
}

// The soil left when half the capacity, all of it and twice as much has been asked for in vain.
pub(crate) fn retention(rt: &impl Print) -> Result<(), Refusal> {
    for tenths in 5..=172 {
        let half = dried(tenths, 5, 1000 * tenths)?;
        let once = dried(tenths, 5, half)?;
        let twice = dried(tenths, 10, once)?;
        let _ = println!(rt; "soil {tenths} {half} {once} {twice}");
    }
    Ok(())
}

// The full soil of a fresh state.
pub(crate) fn capacity(rt: &impl Print, water: u32, root: u32) {
    let covers = [
        3, 0, 75, 75, 75, 75, 0, 0, 0, 0, 0, 0, root, root, root, root,
    ];
    let mut soil = [0];
    let _ = recharge::fresh(&one_cell(&covers, &[water]), &mut soil, &mut [0]);
    let _ = println!(rt; "capacity {water} {root} {}", soil[0]);
}
