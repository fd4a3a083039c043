// What a state has besides its stores, and the totals, as plain numbers.
ghost use Rattle.std.specs.Prelude.{◌≡◌};
ghost use Rattle.records.specs.Past.{memory_as, last_as, past_as};
ghost use Rattle.records.specs.Answers.{totals_as};
ghost use Rattle.clib.specs.Numbers.{memory_from, memory_list, last_from, last_number, past_from, totals_list};
ghost use Rattle.clib.specs.Narrow.{NarrowMemory, Narrow};
ghost use Rattle.clib.specs.Handed.{Kept};

use crate::numbers::{depth, index};
use records::{Memory, Past, Totals};

// The last serial of a state that has seen no day.
const NO_SERIAL: u32 = 4294967295;

fn memory_from(memory: &[u32; 5]) -> Memory
    ensures { (memory_as result ≡ memory_from memory.now) × NarrowMemory (memory_as result) }
{
    Memory {
        oldest: depth(memory[0]),
        fourth: depth(memory[1]),
        third: depth(memory[2]),
        second: depth(memory[3]),
        yesterday: depth(memory[4]),
    }
}

fn last_from(serial: u32) -> Option<u32>
    ensures { last_as result ≡ last_from serial }
{
    if serial == NO_SERIAL {
        return None;
    }
    Some(serial)
}

pub(crate) fn past_from(memory: &[u32; 5], last_serial: u32, frost_index: u32) -> Past
    ensures { (past_as result ≡ past_from memory.now last_serial frost_index) × Narrow (past_as result) }
{
    let memory = memory_from(memory);
    let last = last_from(last_serial);
    let frost = index(frost_index);
    Past {
        memory,
        last,
        frost,
    }
}

#[tactic(auto, unfolding(crate::specs::Numbers::memory_list))]
fn memory_kept(kept: Past) -> [u32; 5]
    requires { Narrow (past_as kept) }
    ensures { result ≡ memory_list (memory_as kept.memory) }
{
    let memory = kept.memory;
    let oldest = memory.oldest.0;
    let fourth = memory.fourth.0;
    let third = memory.third.0;
    let second = memory.second.0;
    let yesterday = memory.yesterday.0;
    [
        oldest as u32,
        fourth as u32,
        third as u32,
        second as u32,
        yesterday as u32,
    ]
}

#[tactic(auto, unfolding(crate::specs::Numbers::last_number))]
fn serial_kept(kept: Past) -> u32
    ensures { result ≡ last_number (last_as kept.last) }
{
    let last = kept.last;
    match last {
        None => NO_SERIAL,
        Some(serial) => serial,
    }
}

fn index_kept(kept: Past) -> u32
    requires { Narrow (past_as kept) }
    ensures { result ≡ kept.frost.0 }
{
    let index = kept.frost.0;
    index as u32
}

// Writes them where C lent room for them.
pub(crate) fn keep(past: Past, memory: &mut [u32; 5], last_serial: &mut u32, frost_index: &mut u32)
    requires { Narrow (past_as past) }
    ensures { Kept (past_as past) memory.new last_serial.new frost_index.new }
{
    *memory = memory_kept(past);
    *last_serial = serial_kept(past);
    *frost_index = index_kept(past);
}

// In the paper's order.
#[tactic(auto, unfolding(crate::specs::Numbers::totals_list))]
pub(crate) fn figures_of(totals: Totals) -> [u64; 7]
    ensures { result ≡ totals_list (totals_as totals) }
{
    let gross = totals.gross.0;
    let intercepted = totals.intercepted.0;
    let evapotranspired = totals.evapotranspired.0;
    let recharged = totals.recharged.0;
    let rejected = totals.rejected.0;
    let gone = totals.gone.0;
    let stored = totals.stored.0;
    [
        gross,
        intercepted,
        evapotranspired,
        recharged,
        rejected,
        gone,
        stored,
    ]
}
