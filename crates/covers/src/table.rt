// The cover table, test 3: 16 numbers an entry, tested once a call, and found by a cell's code in one step.
ghost use Rattle.std.specs.Prelude.{not, ◌≡◌, ◌+◌, ◌*◌, ◌≤◌, ◌<◌, length, replicate};
ghost use Rattle.theory.specs.Lowest.{lowest};
ghost use Rattle.paper.specs.Covers.{code_of, entries, number_of, size_fits, rises as risesAt, group_fits, entry_fits};
ghost use Rattle.records.specs.Places.{place_in};
ghost use Rattle.covers.specs.Table.{EntriesFit, index_of, CoversRead};

use records::{CurveNumber, Depth, Refusal, index_of, wide};

// Numbers an entry.
pub const ENTRY_NUMBERS: usize = 16;

pub const MOST_ENTRIES: usize = 64;

const MOST_CODE: u64 = 255;

// The codes with 0, which no entry has.
pub const CODES: usize = 256;

// In hundredths of a foot.
const MOST_ROOT_DEPTH: u64 = 1000;

// Where an entry's numbers stand.
pub const OPEN_FLAG: usize = 1;

pub(crate) const GROWING_FIGURE: usize = 10;

pub(crate) const DORMANT_FIGURE: usize = 11;

// One before those of the four soil groups, which are counted from 1.
pub(crate) const CURVE_NUMBERS: usize = 1;

pub const LARGEST_RECHARGES: usize = 5;

pub const ROOT_DEPTHS: usize = 11;

#[tactic(auto, unfolding(paper::specs::Covers::size_fits, paper::specs::Covers::entries))]
fn size_fits(covers: &[u32]) -> bool
    ensures { result ≡ size_fits covers.now }
{
    let numbers = covers.len();
    let count = numbers / ENTRY_NUMBERS;
    (numbers % ENTRY_NUMBERS == 0) & ((1 <= count) & (count <= MOST_ENTRIES))
}

// Number k of entry e, which the table has whole.
pub(crate) fn entry_number(covers: &[u32], e: usize, k: usize) -> u32
    requires { (16 * e + 16 ≤ length covers.now) × (k < 16) }
    ensures { result ≡ number_of covers.now e k }
{
    covers[ENTRY_NUMBERS * e + k]
}

fn number_of(covers: &[u32], e: usize, k: usize) -> u64
    requires { (16 * e + 16 ≤ length covers.now) × (k < 16) }
    ensures { result ≡ number_of covers.now e k }
{
    wide(entry_number(covers, e, k))
}

fn code_of(covers: &[u32], e: usize) -> u64
    requires { 16 * e + 16 ≤ length covers.now }
    ensures { result ≡ code_of covers.now e }
{
    wide(covers[ENTRY_NUMBERS * e])
}

// Codes rise strictly: no two entries have the same.
fn rises(covers: &[u32], e: usize) -> bool
    requires { 16 * e + 16 ≤ length covers.now }
    ensures { result ≡ risesAt covers.now e }
{
    if e == 0 {
        return true;
    }
    code_of(covers, e - 1) < code_of(covers, e)
}

#[tactic(auto, unfolding(paper::specs::Covers::group_fits))]
fn group_fits(covers: &[u32], e: usize, group: usize) -> bool
    requires { (16 * e + 16 ≤ length covers.now) × (group ≤ 4) }
    ensures { result ≡ group_fits covers.now e group }
{
    let number = number_of(covers, e, CURVE_NUMBERS + group);
    ((CurveNumber::LEAST.0 <= number) & (number <= CurveNumber::MOST.0))
        & (number_of(covers, e, LARGEST_RECHARGES + group) <= Depth::MOST_LARGEST_RECHARGE.0)
        & (number_of(covers, e, ROOT_DEPTHS + group) <= MOST_ROOT_DEPTH)
}

#[tactic(auto, unfolding(paper::specs::Covers::entry_fits))]
fn entry_fits(covers: &[u32], e: usize) -> bool
    requires { 16 * e + 16 ≤ length covers.now }
    ensures { result ≡ entry_fits covers.now e }
{
    let code = code_of(covers, e);
    rises(covers, e)
        & ((1 <= code) & (code <= MOST_CODE))
        & (number_of(covers, e, OPEN_FLAG) <= 1)
        & group_fits(covers, e, 1)
        & group_fits(covers, e, 2)
        & group_fits(covers, e, 3)
        & group_fits(covers, e, 4)
        & (number_of(covers, e, GROWING_FIGURE) <= Depth::MOST_INTERCEPTION.0)
        & (number_of(covers, e, DORMANT_FIGURE) <= Depth::MOST_INTERCEPTION.0)
}

// The lowest entry with a fault.
fn bad_entry(covers: &[u32]) -> Option<usize>
    ensures { result ≡ place_in (lowest (entries covers.now) (λ e. not (entry_fits covers.now e))) }
{
    for e in 0..covers.len() / ENTRY_NUMBERS {
        if !entry_fits(covers, e) {
            return Some(e);
        }
    }
    None
}

// Fills the index by code: one more than the entry.
fn index_codes(covers: &[u32], index: &mut [u8; CODES])
    requires { EntriesFit covers.now × (index.old ≡ replicate 256 0) }
    ensures { index.new ≡ index_of covers.now (entries covers.now) }
{
    for e in 0..covers.len() / ENTRY_NUMBERS {
        let code = index_of(covers[ENTRY_NUMBERS * e]);
        index[code] = (e + 1) as u8;
    }
}

// Test 3, and where it passes the index: for each code one more than its entry, 0 for a code without one. A refused table leaves the array as lent.
pub fn read_covers(covers: &[u32], index: &mut [u8; CODES]) -> Result<(), Refusal>
    ensures { CoversRead covers.now index.old result index.new }
{
    if !size_fits(covers) {
        return Err(Refusal::CoverTable(0));
    }
    let entry = bad_entry(covers);
    if let Some(e) = entry {
        return Err(Refusal::CoverTable(e));
    }
    *index = [0u8; CODES];
    index_codes(covers, index);
    Ok(())
}
