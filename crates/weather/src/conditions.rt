// Rule 5: the antecedent condition, what it counts as in frost, and the curve number in it.
ghost use Rattle.std.specs.Prelude.{◌≡◌, ◌<◌};
ghost use Rattle.paper.specs.State.{five_days};
ghost use Rattle.paper.specs.CurveNumber.{class as class_of, condition_of, nearest as rounded};
ghost use Rattle.paper.specs.Frost.{counted, not_dry};
ghost use Rattle.records.specs.Grids.{setpoints_as};
ghost use Rattle.records.specs.Past.{memory_as};
ghost use Rattle.weather.specs.Conditions.{condition_as, FiveFit, curve_number_by};

use records::{CurveNumber, Depth, FrostIndex, Memory, Setpoints};

// By the rain of the five previous days: I is dry, II average, III wet.
#[derive(Clone, Copy)]
pub enum Condition {
    I,
    II,
    III,
}

#[tactic(auto, unfolding(paper::specs::State::five_days))]
fn five_days(memory: Memory) -> Depth
    requires { FiveFit (memory_as memory) }
    ensures { result.0 ≡ five_days (memory_as memory) }
{
    let oldest = memory.oldest.0;
    let fourth = memory.fourth.0;
    let third = memory.third.0;
    let second = memory.second.0;
    let yesterday = memory.yesterday.0;
    Depth(oldest + fourth + third + second + yesterday)
}

fn class(low: Depth, high: Depth, rain: Depth) -> Condition
    ensures { condition_as result ≡ class_of low.0 high.0 rain.0 }
{
    if rain.0 < low.0 {
        return Condition::I;
    }
    if high.0 < rain.0 {
        return Condition::III;
    }
    Condition::II
}

pub(crate) fn condition_of(growing: bool, memory: Memory) -> Condition
    requires { FiveFit (memory_as memory) }
    ensures { condition_as result ≡ condition_of growing (five_days (memory_as memory)) }
{
    let rain = five_days(memory);
    if growing {
        class(Depth(14000), Depth(21000), rain)
    } else {
        class(Depth(5000), Depth(11000), rain)
    }
}

#[tactic(auto, unfolding(paper::specs::Frost::not_dry))]
fn not_dry(condition: Condition) -> Condition
    ensures { condition_as result ≡ not_dry (condition_as condition) }
{
    match condition {
        Condition::I => Condition::II,
        Condition::II => Condition::II,
        Condition::III => Condition::III,
    }
}

// What a day's condition counts as, by the frost index that the day has set: at or above a setpoint it is reached.
pub(crate) fn counted_as(setpoints: Setpoints, index: FrostIndex, condition: Condition) -> Condition
    ensures { condition_as result ≡ counted (setpoints_as setpoints) index.0 (condition_as condition) }
{
    if setpoints.second.0 <= index.0 {
        return Condition::III;
    }
    if setpoints.first.0 <= index.0 {
        return not_dry(condition);
    }
    condition
}

// Twice the numerator and the divisor once, over twice the divisor: halves go up.
#[tactic(auto, unfolding(paper::specs::CurveNumber::nearest))]
fn nearest(p: u64, q: u64) -> u64
    requires { (p < 4294967296) × (0 < q) × (q < 4294967296) }
    ensures { result ≡ rounded p q }
{
    (2 * p + q) / (2 * q)
}

// The table's curve number in the day's condition; a number outside the table's limits is handed back.
pub fn curve_number(condition: Condition, table: CurveNumber) -> CurveNumber
    ensures { result.0 ≡ curve_number_by (condition_as condition) table.0 }
{
    let n = table.0;
    if n < CurveNumber::LEAST.0 {
        return table;
    }
    if CurveNumber::MOST.0 < n {
        return table;
    }
    match condition {
        Condition::I => CurveNumber(nearest(100000 * n, 228100 - 1281 * n)),
        Condition::II => table,
        Condition::III => CurveNumber(nearest(100000 * n, 42700 + 573 * n)),
    }
}
