// Days out of a list of whole numbers: of each its serial, day of the year, gross precipitation, minimum, mean and maximum temperature, and potential
// evapotranspiration. Every list is answered: what it does not have reads as 0.
ghost use Rattle.std.specs.Prelude.{◌≡◌, get_or};
ghost use Rattle.records.specs.Days.{day_as};
ghost use Rattle.daybook.specs.Days.{unsigned as unsignedOf, seven_in, day_in};

use records::{DayRecord, TenthF, depth};

pub const DAY_NUMBERS: usize = 7;

// Past the limit of every number that has no sign.
const PAST_EVERY_LIMIT: u32 = u32::MAX;

fn number_at<T: Copy>(list: &[T], place: usize, none: T) -> T
    ensures { result ≡ get_or list.now place none }
{
    list.get(place).copied().unwrap_or(none)
}

// The seven numbers of day k in a list; what it does not have reads as `none`.
pub(crate) fn seven_at<T: Copy>(list: &[T], k: usize, none: T) -> [T; DAY_NUMBERS]
    ensures { result ≡ seven_in list.now k none }
{
    let at = DAY_NUMBERS.saturating_mul(k);
    [
        number_at(list, at, none),
        number_at(list, at.saturating_add(1), none),
        number_at(list, at.saturating_add(2), none),
        number_at(list, at.saturating_add(3), none),
        number_at(list, at.saturating_add(4), none),
        number_at(list, at.saturating_add(5), none),
        number_at(list, at.saturating_add(6), none),
    ]
}

// A number below zero, where there may be none, is past every limit, so that its day is refused.
#[tactic(auto, unfolding(crate::specs::Days::unsigned))]
fn unsigned(n: i32) -> u32
    ensures { result ≡ unsignedOf n }
{
    u32::try_from(n).unwrap_or(PAST_EVERY_LIMIT)
}

#[tactic(auto, unfolding(crate::specs::Days::day_in))]
pub fn day_at(days: &[i32], k: usize) -> DayRecord
    ensures { day_as result ≡ day_in days.now k }
{
    let [
        serial,
        day_of_year,
        gross,
        minimum,
        mean,
        maximum,
        potential,
    ] = seven_at(days, k, 0);
    DayRecord {
        serial: unsigned(serial),
        day_of_year: unsigned(day_of_year),
        gross: depth(unsigned(gross)),
        minimum: TenthF(minimum),
        mean: TenthF(mean),
        maximum: TenthF(maximum),
        potential: depth(unsigned(potential)),
    }
}
