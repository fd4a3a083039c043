// The program `sheet`: a folder's grids, covers and weather as a recharge sheet, ten files in the folder `sheet` inside it. Where something is wrong a line on
// standard error says what, and no file is changed; else the sheet for a person is printed.
#![tactic(auto)]

mod folder;
mod ground;
mod places;
mod refusals;
mod run;
mod setup;
mod texts;
mod weather_file;
mod writing;
mod wrong;

use folder::Folder;
use intake::{Name, argument_count, name_given, say};
use run::sheet_of;
use std::rt::Env;
use wrong::Wrong;

// The program's own name counts as an argument.
const ARGUMENTS: usize = 2;

fn folder_name(rt: &impl Env) -> Result<Name, Wrong<'static>> {
    if argument_count(rt) != ARGUMENTS {
        return Err(Wrong::Usage);
    }
    name_given(rt, 1).ok_or(Wrong::NoFolder)
}

fn main(rt: HostRuntime) {
    match folder_name(&rt) {
        Ok(name) => say(&rt, sheet_of(&rt, Folder(name.as_bytes()))),
        Err(wrong) => say(&rt, Err(wrong)),
    }
}
