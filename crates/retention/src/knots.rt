// Rule 8's table F, which stands in for the retention table of figure 6 in document 003. Each sixteenth entry is kept as a constant, and the ones
// between are worked out from it by F's own step, in a working array: once a call, for all cells.
ghost use Rattle.std.specs.Prelude.{◌≡◌, ◌-◌, ◌/◌, get_or};
ghost use Rattle.retention.specs.Retention.{kept, table, place_of};

// The table's knots, from 0 on, the last of them, and F at the first, of which F is a part at every other.
pub const KNOTS: usize = 2049;

pub const LAST_KNOT: usize = 2048;

pub const WHOLE: u64 = 1048576;

// From each kept entry but the last a chain of 16 entries leads on, and none of the 128 chains waits for another. The array has the first entry
// of every chain, then the second of every chain, and so on, so that a processor steps several chains at a time.
const KEPT: usize = 129;

const CHAINS: usize = 128;

const CHAIN: usize = 16;

// The one place that reads the constant: each reading stores it whole.
fn kept_entries() -> [u32; KEPT]
    ensures { result ≡ kept }
{
    EACH_SIXTEENTH
}

// F's step: an entry less its 256th part, rounded down.
fn next(entry: u32) -> u32
    ensures { result ≡ entry - entry / 256 }
{
    entry - entry / 256
}

// Fills the working array, over whatever it held: a call of the library does so once and lends it down. An array handed back would be copied.
pub fn retention(f: &mut [u32; KNOTS])
    ensures { f.new ≡ table }
{
    let kept = kept_entries();
    *f = [0u32; KNOTS];
    for i in 0..CHAINS {
        f[i] = kept[i];
    }
    for i in CHAINS..LAST_KNOT {
        f[i] = next(f[i - CHAINS]);
    }
    f[LAST_KNOT] = kept[CHAINS];
}

// F(k) out of the working array; past the last knot, the last.
pub fn retained(f: &[u32; KNOTS], k: usize) -> u32
    ensures { result ≡ get_or f.now (place_of k) 0 }
{
    if k < LAST_KNOT {
        f[k % CHAIN * CHAINS + k / CHAIN]
    } else {
        f[LAST_KNOT]
    }
}

// F(0), F(16), .. F(2,048).
const EACH_SIXTEENTH: [u32; KEPT] = [
    1048576, 984932, 925152, 869002, 816260, 766718, 720184, 676475, 635417, 596853, 560630,
    526607, 494646, 464626, 436432, 409949, 385072, 361704, 339756, 319139, 299775, 281587, 264502,
    248452, 233378, 219219, 205920, 193429, 181696, 170675, 160322, 150599, 141466, 132885, 124821,
    117252, 110142, 103465, 97191, 91299, 85765, 80567, 75684, 71098, 66789, 62747, 58945, 55374,
    52020, 48870, 45911, 43132, 40522, 38069, 35766, 33603, 31571, 29662, 27869, 26185, 24604,
    23118, 21723, 20413, 19182, 18026, 16940, 15920, 14962, 14061, 13215, 12420, 11674, 10972,
    10314, 9695, 9114, 8569, 8057, 7576, 7123, 6699, 6301, 5926, 5574, 5244, 4933, 4641, 4367,
    4110, 3869, 3643, 3430, 3230, 3040, 2864, 2699, 2541, 2397, 2258, 2130, 2007, 1895, 1784, 1688,
    1592, 1502, 1422, 1342, 1265, 1201, 1137, 1073, 1012, 964, 916, 868, 820, 772, 738, 706, 674,
    642, 610, 578, 546, 514, 496, 480,
];
