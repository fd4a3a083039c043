// The program `setup`: the mapping desk's files, which its arguments name, as the text that `balance` reads, by `desk::setup_text`. Where something is wrong
// nothing is printed, and a line on standard error says what.
#![tactic(auto)]

mod files;
mod wrong;

use files::{Names, read};
use intake::{filled, input_room, say};
use std::rt::Files;
use wrong::Wrong;

const LONGEST_GRID: usize = 262144;

// Room for a grid's file and a byte more, so that a longer one shows by its length.
const GRID_ROOM: usize = 262145;

// As long as a text of balance can be.
const LONGEST_OTHER: usize = 65536;

fn make<'a>(rt: &(impl Files + Print), names: &'a Names) -> Result<(), Wrong<'a>> {
    let mut direction = filled::<u8, GRID_ROOM>(0);
    let mut cover = filled::<u8, GRID_ROOM>(0);
    let mut group = filled::<u8, GRID_ROOM>(0);
    let mut water = filled::<u8, GRID_ROOM>(0);
    let mut covers = input_room();
    let mut weather = input_room();
    let mut output = filled::<u8, LONGEST_OTHER>(0);
    let direction = read(rt, &names.direction, LONGEST_GRID, &mut direction)?;
    let cover = read(rt, &names.cover, LONGEST_GRID, &mut cover)?;
    let group = read(rt, &names.group, LONGEST_GRID, &mut group)?;
    let water = read(rt, &names.water, LONGEST_GRID, &mut water)?;
    let covers = read(rt, &names.covers, LONGEST_OTHER, &mut covers)?;
    let weather = read(rt, &names.weather, LONGEST_OTHER, &mut weather)?;
    match desk::setup_text(direction, cover, group, water, covers, weather, &mut output) {
        Ok(count) => Ok(intake::print(rt, b"setup: standard output", &output[..count])?),
        Err(fault) => Err(Wrong::Files(names, fault)),
    }
}

fn main(rt: HostRuntime) {
    match Names::given(&rt) {
        Ok(names) => say(&rt, make(&rt, &names)),
        Err(wrong) => say(&rt, Err(wrong)),
    }
}
